//! The grammar of the words. It is read by hand: there are few commands, and each refusal names its word.

ghost use Rattle.std.specs.Prelude.{◌≡◌, ◌≤◌, ◌+◌, true, Ok, IfOk, IfErr};
ghost use Rattle.std.specs.List.{list_all};
ghost use Rattle.std.specs.Str.{is_utf8, bytes_eq};
ghost use Rattle.jfs_format.specs.Superblock.{label_field};
ghost use Rattle.jfs_command.specs.Words.{texts, is_visible, is_label, with_label, with_uuid, image_and_uuid, is_name, begins_with_dash, command_of, on_image, image_alone, place, run_at, names_in_front, image_and_scripts, leave_and_rest, places_of, script_words, is_alone, has_clients, UsageIs};

use crate::gen_words::image_and_numbers;
use std::alloc::{AllocError, Global};
use uuid::Uuid;

/// The words leave the grammar at this word, counted from 1, or end before it.
#[derive(Clone, Copy, PartialEq, Eq, Debug)]
pub struct Usage {
    pub word: u32,
}

/// What is to be done with an image, with the words that aren't names of files.
#[derive(Clone, Copy, PartialEq, Eq, Debug)]
pub enum Job {
    /// Print the superblock of the image.
    Super,
    /// Print the records of the image's log.
    Log,
    /// List what is wrong with the volume of the image.
    Check,
    /// Redo the volume of the image by its log.
    Redo,
    /// Write an empty volume over all pages of the image; behind the label stand zeros.
    Format {
        uuid: Uuid,
        label: [u8; 16],
    },
    /// Do the calls of scripts on the volume of the image, each for a client, and unmount it, unless it is to be left mounted.
    Run {
        is_left: bool,
    },
    /// Do so many generated calls of so many clients on the volume of the image, and unmount it.
    Generate {
        number: u64,
        calls: u32,
        clients: u32,
    },
}

impl Job {
    /// Whether it has no clients.
    pub fn is_alone(self) -> bool
        ensures { result ≡ is_alone self }
    {
        !matches!(self, Job::Run { .. } | Job::Generate { .. })
    }
}

/// The words that name scripts. They stand one behind the other: from place `first` on, counted from 1, up to `end`, which is the place behind the last of them.
#[derive(Clone, Copy, PartialEq, Eq, Debug)]
pub struct Scripts {
    pub first: u32,
    pub end: u32,
}

impl Scripts {
    /// No word names a script.
    const NONE: Scripts = Scripts { first: 0, end: 0 };

    /// The places of the words.
    fn places(self, alloc: Global) -> Result<Vec<u32>, AllocError>
        ensures { IfOk result (λ places. places.items ≡ places_of self) }
    {
        (self.first..self.end).collect(alloc)
    }
}

/// What the words ask for: the job, the place of the word that names the image, counted from 1, and the words that name scripts.
#[derive(Clone, Copy, PartialEq, Eq, Debug)]
pub struct Command {
    pub job: Job,
    pub image: u32,
    pub scripts: Scripts,
}

impl Command {
    /// A job on the image that the second word names, without scripts.
    pub fn on_image(job: Job) -> Command
        ensures { result ≡ on_image job }
    {
        Command {
            job,
            image: 2,
            scripts: Scripts::NONE,
        }
    }

    /// A run of so many scripts, which the words behind the image name.
    fn run_at(is_left: bool, image: u32, count: usize) -> Command
        requires { image ≤ 3 }
        ensures { result ≡ run_at is_left image count }
    {
        Command {
            job: Job::Run { is_left },
            image,
            scripts: Scripts {
                first: image + 1,
                end: behind(image + 1, count),
            },
        }
    }
}

// The place so many words behind another.
fn behind(at: u32, count: usize) -> u32
    requires { at ≤ 4 }
    ensures { result ≡ place (at + count) }
{
    match u32::try_from(count) {
        Ok(count) => at.saturating_add(count),
        Err(_) => u32::MAX,
    }
}

/// The places of the words that name files, counted from 1.
#[derive(Debug, Drop)]
pub struct Paths {
    pub image: u32,
    pub scripts: Vec<u32>,
}

/// Why the words name no files.
#[derive(Clone, Copy, PartialEq, Eq, Debug)]
pub enum PathsError {
    /// The words leave the grammar.
    Usage(Usage),
    /// Memory ran out.
    Memory,
}

/// Which words name the image and the scripts.
pub fn paths_of(alloc: Global, words: &[Vec<u8>]) -> Result<Paths, PathsError>
    ensures names { IfOk result (λ paths. (command : Command) × (command_of (texts words.now) ≡ Ok command)
        × (paths.image ≡ command.image) × (paths.scripts.items ≡ script_words command)) }
    ensures usage { IfErr result (λ e. UsageIs e (command_of (texts words.now))) }
{
    match read_words(words) {
        Ok(command) => match command.scripts.places(alloc) {
            Ok(scripts) => Ok(Paths {
                image: command.image,
                scripts,
            }),
            Err(_) => Err(PathsError::Memory),
        },
        Err(usage) => Err(PathsError::Usage(usage)),
    }
}

/// Whether the words ask for a command with clients. Words that leave the grammar ask for none.
pub fn has_clients(words: &[Vec<u8>]) -> bool
    ensures { result ≡ has_clients (command_of (texts words.now)) }
{
    match read_words(words) {
        Ok(command) => !command.job.is_alone(),
        Err(_) => false,
    }
}

/// What the words ask for, or the first of them that leaves the grammar.
pub fn read_words(words: &[Vec<u8>]) -> Result<Command, Usage>
    ensures { result ≡ command_of (texts words.now) }
{
    match words {
        [first, rest @ ..] if is_word(first, b"super") => image_alone(Job::Super, rest),
        [first, rest @ ..] if is_word(first, b"log") => image_alone(Job::Log, rest),
        [first, rest @ ..] if is_word(first, b"check") => image_alone(Job::Check, rest),
        [first, rest @ ..] if is_word(first, b"redo") => image_alone(Job::Redo, rest),
        [first, rest @ ..] if is_word(first, b"format") => image_and_uuid(rest),
        [first, rest @ ..] if is_word(first, b"run") => leave_and_rest(rest),
        [first, rest @ ..] if is_word(first, b"gen") => image_and_numbers(rest),
        _ => Err(Usage { word: 1 }),
    }
}

// The words after a command that takes an image and nothing else.
fn image_alone(job: Job, words: &[Vec<u8>]) -> Result<Command, Usage>
    ensures { result ≡ image_alone job (texts words.now) }
{
    match words {
        [image] if is_name(image) => Ok(Command::on_image(job)),
        [image, _, ..] if is_name(image) => Err(Usage { word: 3 }),
        _ => Err(Usage { word: 2 }),
    }
}

// The words of `format`: an image, a UUID, and perhaps a label.
fn image_and_uuid(words: &[Vec<u8>]) -> Result<Command, Usage>
    ensures { result ≡ image_and_uuid (texts words.now) }
{
    match words {
        [image, rest @ ..] if is_name(image) => with_uuid(rest),
        _ => Err(Usage { word: 2 }),
    }
}

fn with_uuid(words: &[Vec<u8>]) -> Result<Command, Usage>
    ensures { result ≡ with_uuid (texts words.now) }
{
    match words {
        [uuid, rest @ ..] => match Uuid::try_parse_ascii(uuid) {
            Ok(uuid) => with_label(uuid, rest),
            Err(_) => Err(Usage { word: 3 }),
        },
        [] => Err(Usage { word: 3 }),
    }
}

fn with_label(uuid: Uuid, words: &[Vec<u8>]) -> Result<Command, Usage>
    ensures { result ≡ with_label uuid (texts words.now) }
{
    match words {
        [] => Ok(Command::on_image(Job::Format {
            uuid,
            label: [0; 16],
        })),
        [label] if is_label(label) => Ok(Command::on_image(Job::Format {
            uuid,
            label: padded(label),
        })),
        [label, _, ..] if is_label(label) => Err(Usage { word: 5 }),
        _ => Err(Usage { word: 4 }),
    }
}

// The words of `run`: perhaps `--leave`, then an image and scripts.
fn leave_and_rest(words: &[Vec<u8>]) -> Result<Command, Usage>
    ensures { result ≡ leave_and_rest (texts words.now) }
{
    match words {
        [first, rest @ ..] if is_word(first, b"--leave") => image_and_scripts(true, 3, rest),
        _ => image_and_scripts(false, 2, words),
    }
}

// An image and one script or more, and nothing else; the first of these words stands at this place.
fn image_and_scripts(is_left: bool, at: u32, words: &[Vec<u8>]) -> Result<Command, Usage>
    requires { at ≤ 3 }
    ensures { result ≡ image_and_scripts is_left at (texts words.now) }
{
    match words {
        [image, scripts @ ..] if is_name(image) => {
            let names = names_in_front(scripts);
            if 0 < scripts.len() && names == scripts.len() {
                return Ok(Command::run_at(is_left, at, names));
            }
            Err(Usage {
                word: behind(at + 1, names),
            })
        }
        _ => Err(Usage { word: at }),
    }
}

// How many words at the front may name files.
fn names_in_front(words: &[Vec<u8>]) -> usize
    ensures { result ≡ names_in_front (texts words.now) }
{
    let mut count = 0;
    for word in words {
        if !is_name(word) {
            return count;
        }
        count += 1;
    }
    count
}

// A label and the zeros behind it.
fn padded(label: &[u8]) -> [u8; 16]
    requires { is_label label.now ≡ true }
    ensures { result ≡ label_field label.now }
{
    let mut field = [0u8; 16];
    field[..label.len()].copy_from_slice(label);
    field
}

// A label has 1 to 16 visible bytes, the first of them no dash.
fn is_label(word: &[u8]) -> bool
    ensures { result ≡ is_label word.now }
{
    !word.is_empty() && word.len() <= 16 && all_visible(word) && !begins_with_dash(word)
}

fn all_visible(word: &[u8]) -> bool
    ensures { result ≡ list_all is_visible word.now }
{
    word.iter().all(|byte| matches!(byte, 0x21..=0x7e))
}

fn is_word(word: &[u8], wanted: &[u8]) -> bool
    ensures { result ≡ bytes_eq word.now wanted.now }
{
    word == wanted
}

/// Whether a word may name a file: text that doesn't begin with a dash.
pub fn is_name(word: &[u8]) -> bool
    ensures { result ≡ is_name word.now }
{
    is_text(word) && !begins_with_dash(word)
}

fn is_text(word: &[u8]) -> bool
    ensures { result ≡ is_utf8 word.now }
{
    match std::str::from_utf8(word) {
        Ok(_) => true,
        Err(_) => false,
    }
}

fn begins_with_dash(word: &[u8]) -> bool
    ensures { result ≡ begins_with_dash word.now }
{
    matches!(word, [b'-', ..])
}
