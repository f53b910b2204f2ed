//! The scripts of clients.

ghost use Rattle.std.specs.Prelude.{◌≤◌, length, IfSome};
ghost use Rattle.jfs_run.specs.Tasks.{plan_of, IsPlan};
ghost use Rattle.jfs_script.specs.Script.{AllFit};

use jfs_io::SureSource;
use jfs_plain::Line;
use jfs_script::read_script;
use std::alloc::Global;

/// How many pairs of lines a client has that goes through rounds.
pub const PAIRS: u32 = 16;

/// What the scripts of clients are.
#[derive(Clone, Copy)]
pub enum Work {
    /// Pairs of lines, of which only the second one waits for the log: it is never refused. The first ones take names that others want too, or files of the next client. The last line is `sync`.
    Pairs,
    /// Six lines, most of which wait, the last one `sync`.
    Six,
    /// Two lines that wait.
    Two,
    /// Six lines that make a directory with a file, and read what was made. No client has names of its own.
    First,
}

/// Those lines.
const FIRST: &'static [u8] = b"mkdir /a 0755
create /a/f 0644
fill /a/f 0 6 41
read /a/f 0 16
stat /a/f
list /a
";

// The client whose directory another one goes into.
fn next(client: u32, clients: u32) -> u32 {
    if client < clients {
        client.wrapping_add(1)
    } else {
        1
    }
}

// The first line of a pair.
fn first_of(alloc: Global, client: u32, next: u32, pair: u32) -> Option<String> {
    let taken = pair.wrapping_sub(2);
    match pair % 8 {
        1 if pair == 1 => format!(in alloc; "lazy mkdir /d{client} 0755\n"),
        2 | 6 => format!(in alloc; "lazy mkdir /s{pair} 0755\n"),
        4 => format!(in alloc; "lazy rmdir /s{taken}\n"),
        0 => format!(in alloc; "list /d{next}\n"),
        _ => format!(in alloc; "lazy rename /d{next}/f{taken} /d{client}/g{pair}\n"),
    }
    .ok()
}

// The second line of a pair.
fn second_of(alloc: Global, client: u32, pair: u32) -> Option<String> {
    let made = pair.wrapping_sub(1);
    match pair % 2 {
        1 => format!(in alloc; "create /d{client}/f{pair} 0644\n"),
        _ => format!(in alloc; "write /d{client}/f{made} 0 4a4653\n"),
    }
    .ok()
}

// The text of a client's pairs.
fn pairs_of(alloc: Global, client: u32, next: u32) -> Option<Vec<u8>> {
    let mut text = Vec::new(alloc);
    for pair in 1..PAIRS + 1 {
        let first = first_of(alloc, client, next, pair)?;
        text.extend_from_slice(first.as_bytes()).ok()?;
        let second = second_of(alloc, client, pair)?;
        text.extend_from_slice(second.as_bytes()).ok()?;
    }
    text.extend_from_slice(b"sync\n").ok()?;
    Some(text)
}

// The six lines of a client.
fn six_of(alloc: Global, client: u32, next: u32) -> Option<Vec<u8>> {
    let text = format!(in alloc;
        "mkdir /d{client} 0755\ncreate /d{client}/f 0644\nrename /d{next}/f /d{client}/g\nlazy create /d{client}/h 0600\nmkdir /s 0700\nsync\n"
    ).ok()?;
    Vec::from_slice(alloc, text.as_bytes()).ok()
}

// The two lines of a client.
fn two_of(alloc: Global, client: u32) -> Option<Vec<u8>> {
    let text = format!(in alloc; "mkdir /d{client} 0755\nmkdir /e{client} 0755\n").ok()?;
    Vec::from_slice(alloc, text.as_bytes()).ok()
}

// The lines of a client, 4,096 at most.
fn lines_of(alloc: Global, work: Work, client: u32, clients: u32) -> Option<Vec<Line>>
    ensures { IfSome result (λ lines. AllFit lines.items × (length lines.items ≤ 4096)) }
{
    let next = next(client, clients);
    let text = match work {
        Work::Pairs => pairs_of(alloc, client, next)?,
        Work::Six => six_of(alloc, client, next)?,
        Work::Two => two_of(alloc, client)?,
        Work::First => Vec::from_slice(alloc, FIRST).ok()?,
    };
    let mut source = SureSource::new(text);
    let lines = read_script(alloc, &mut source).ok()?;
    if lines.len() > 4096 {
        return None;
    }
    Some(lines)
}

/// The scripts of so many clients, 1 to 16.
pub fn scripts_of(alloc: Global, work: Work, clients: u32) -> Option<Vec<Vec<Line>>>
    ensures { IfSome result (λ scripts. IsPlan (plan_of scripts.items)) }
{
    if clients == 0 || clients > 16 {
        return None;
    }
    let mut scripts = Vec::new(alloc);
    for i in 0..clients {
        let lines = lines_of(alloc, work, i + 1, clients)?;
        match scripts.push(lines) {
            Ok(()) => {}
            Err(_) => return None,
        }
    }
    Some(scripts)
}
