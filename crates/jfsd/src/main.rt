//! The program: it opens what the words name, hands it to the top call, and ends with the status's number.
#![tactic(auto)]

ghost use Rattle.std.specs.Prelude.{◌≡◌, IfOk, length};
ghost use Rattle.jfs_command.specs.Words.{texts, command_of, scripts_asked};

mod file_disk;
mod file_source;
mod out_sink;
mod progress;
#[cfg(test)]
mod progress_rows;

use file_disk::{Access, FileDisk, is_standard};
use file_source::FileSource;
use jfs_bits::Moment;
use jfs_command::{Paths, PathsError, Status, jfs_top, paths_of};
use out_sink::OutSink;
use progress::Progress;
use std::alloc::{AllocError, Global};
use std::fs::File;
use std::io::IsTerminal;
use std::process::ExitCode;
use std::rt::{Clock, Env, Files};
use std::time::{Duration, SystemTime, UNIX_EPOCH};
use std::{env, fs, io, str};

/// The grammar of the words, a line a command. (docs/jfsd.8 says what each does.)
const GRAMMAR: &str = "\
usage: jfsd format IMAGE UUID [LABEL]
       jfsd super IMAGE
       jfsd log IMAGE
       jfsd check IMAGE
       jfsd redo IMAGE
       jfsd run [--leave] IMAGE SCRIPT..
       jfsd gen IMAGE NUMBER CALLS CLIENTS
";

fn main(rt: HostRuntime) -> ExitCode {
    let _placeholders = Placeholders::open(&rt);
    let progress = Progress::new(rt.stderr().is_terminal().then_some(&rt));
    let mut out = OutSink::new(io::writer(&rt), &progress);
    let words = match words(&rt) {
        Ok(words) => words,
        Err(WordsError::NotText) => {
            tell_grammar(&rt);
            return end_with(&rt, b"jfsd: usage: word 1\n", 2);
        }
        Err(WordsError::Memory) => return end_with(&rt, b"jfsd: out of memory\n", 8),
    };
    let alloc = rt.alloc();
    let Ok(named) = named(alloc, &words) else {
        return end_with(&rt, b"jfsd: out of memory\n", 8);
    };
    let disk = match word(&words, named.image) {
        Some(name) => opened(&rt, alloc, name, access_of(&words)),
        None => FileDisk::closed(),
    };
    let Ok(mut scripts) = scripts(&rt, alloc, &words, &named.scripts) else {
        return end_with(&rt, b"jfsd: out of memory\n", 8);
    };
    let ended = jfs_top(
        &rt,
        alloc,
        &words,
        moment(&rt),
        disk,
        &mut scripts,
        &mut out,
        &progress,
    );
    if matches!(ended.status, Status::Usage { .. }) {
        tell_grammar(&rt);
    }
    ExitCode::from(ended.status.number())
}

// Standard error has the grammar where the words left it.
fn tell_grammar<R: Eprint>(rt: &R) {
    let _ = eprint!(rt; "{GRAMMAR}");
}

/// Files under the numbers of standard input, output and error where the caller closed these. Without them an image could
/// be opened under such a number, and text would be written into it. Nothing can be written to them.
#[derive(Drop)]
struct Placeholders {
    _files: [Option<File>; 3],
}

impl Placeholders {
    fn open<R: Files<File = File>>(rt: &R) -> Placeholders {
        let mut files = [None, None, None];
        for file in &mut files {
            *file = placeholder(rt);
        }
        Placeholders { _files: files }
    }
}

// A file that takes the lowest free number, where that is one of the standard ones.
fn placeholder<R: Files<File = File>>(rt: &R) -> Option<File> {
    let file = fs::open(rt, "/dev/null").ok()?;
    is_standard(&file).then_some(file)
}

// The word at a place, which counts from 1.
fn word(words: &[Vec<u8>], place: u32) -> Option<&[u8]> {
    let word = words.get((place as usize).checked_sub(1)?)?;
    Some(word.as_slice())
}

// The places of the words that name files. Words that leave the grammar name none: their image has place 0, where no word stands.
fn named(alloc: Global, words: &[Vec<u8>]) -> Result<Paths, AllocError>
    ensures { IfOk result (λ paths. paths.scripts.items ≡ scripts_asked (command_of (texts words.now))) }
{
    match paths_of(alloc, words) {
        Ok(paths) => Ok(paths),
        Err(PathsError::Usage(_)) => Ok(Paths {
            image: 0,
            scripts: Vec::new(alloc),
        }),
        Err(PathsError::Memory) => Err(AllocError),
    }
}

// A source for each script that the words name, in their order.
fn scripts<R: Files<File = File> + Eprint>(
    rt: &R,
    alloc: Global,
    words: &[Vec<u8>],
    places: &[u32],
) -> Result<Vec<FileSource>, AllocError>
    ensures { IfOk result (λ scripts. length scripts.items ≡ length places.now) }
{
    let mut scripts = Vec::new(alloc);
    for place in places {
        scripts.push(script(rt, words, *place))?;
    }
    Ok(scripts)
}

// The script that the word at a place names. Where it can't be opened, standard error has the reason, and each call on it fails.
fn script<R: Files<File = File> + Eprint>(rt: &R, words: &[Vec<u8>], place: u32) -> FileSource {
    let Some(name) = word(words, place) else {
        return FileSource::closed();
    };
    match FileSource::open(rt, name) {
        Ok(script) => script,
        Err(reason) => {
            let name = str::from_utf8(name).unwrap_or("");
            let _ = eprintln!(rt; "jfsd: {name}: {reason}");
            FileSource::closed()
        }
    }
}

// What the command, which the first word names, does with its image.
fn access_of(words: &[Vec<u8>]) -> Access {
    match word(words, 1) {
        Some(b"super" | b"log" | b"check") => Access::Read,
        _ => Access::Write,
    }
}

// The image of that name. Where it can't be opened, standard error has the reason, and the image is a disk without pages.
fn opened<R: Files<File = File> + Eprint>(
    rt: &R,
    alloc: Global,
    name: &[u8],
    access: Access,
) -> FileDisk {
    match FileDisk::open(rt, alloc, name, access) {
        Ok(disk) => disk,
        Err(reason) => {
            let name = str::from_utf8(name).unwrap_or("");
            let _ = eprintln!(rt; "jfsd: {name}: {reason}");
            FileDisk::closed()
        }
    }
}

/// Why there are no words.
#[derive(Clone, Copy, Debug, PartialEq, Eq)]
enum WordsError {
    NotText,
    Memory,
}

impl From<AllocError> for WordsError {
    fn from(_: AllocError) -> WordsError {
        WordsError::Memory
    }
}

// The words after the program's name.
fn words(rt: &(impl Env + AllocGlobal)) -> Result<Vec<Vec<u8>>, WordsError> {
    let args = match env::args(rt) {
        Ok(args) => args,
        Err(e) if e.kind() == io::ErrorKind::OutOfMemory => return Err(WordsError::Memory),
        Err(_) => return Err(WordsError::NotText),
    };
    let alloc: Global = rt.alloc();
    let mut words = Vec::new(alloc);
    for arg in args.skip(1) {
        words
            .push(Vec::from_slice(alloc, arg.as_bytes())?)
            .map_err(AllocError::from)?;
    }
    Ok(words)
}

// Prints a line that no top call was made for, and ends with its number.
fn end_with(rt: &impl Print, line: &[u8], number: u8) -> ExitCode {
    let _ = io::Write::write_all(&mut io::writer(rt), line);
    ExitCode::from(number)
}

// The moment now; the beginning of 1970 where the clock can't be read.
fn moment(clock: &impl Clock) -> Moment {
    let since = match SystemTime::now(clock) {
        Ok(now) => now.duration_since(UNIX_EPOCH).unwrap_or(Duration::ZERO),
        Err(_) => Duration::ZERO,
    };
    Moment {
        sec: u32::try_from(since.as_secs()).unwrap_or(u32::MAX),
        nano: since.subsec_nanos(),
    }
}
