//! The generated script of a client.

ghost use Rattle.std.specs.Prelude.{◌≡◌, ◌+◌, ◌<◌, ◌≤◌, ◌^◌, IfOk, vec_len};
ghost use Rattle.jfs_gen.specs.Workload.{next, call_by, call_of, line_of, lines_of};
ghost use Rattle.jfs_gen.specs.Limits.{AllFit};

use crate::name::{file_path, home_path};
use jfs_name::Path;
use jfs_plain::{Call, Line, Request};
use std::alloc::{AllocError, Global};

/// The script of a client: its directory is made, `calls` pseudorandom calls are done on sixteen files there, and all is made durable.
/// Another number gives other calls; the same one gives the same.
pub fn workload(
    alloc: Global,
    number: u64,
    client: u32,
    calls: u32,
) -> Result<Vec<Line>, AllocError>
    requires client { client < 100 }
    requires calls { calls ≤ 4094 }
    ensures lines { IfOk result (λ lines. lines.items ≡ lines_of number client calls) }
    ensures fit { IfOk result (λ lines. AllFit lines.items) }
    ensures count { IfOk result (λ lines. vec_len lines ≡ calls + 2) }
{
    let mut lines = Vec::new(alloc);
    let path = home_path(alloc, client)?;
    lines.push(line(1, Call::Mkdir { path, mode: 0o755 }))?;
    let mut x = number ^ u64::from(client);
    for i in 0..calls {
        x = next(x);
        let call = call_of(alloc, client, (x >> 33) as u32)?;
        lines.push(line(i + 2, call))?;
    }
    lines.push(line(calls + 2, Call::Sync))?;
    Ok(lines)
}

/// A line whose caller waits until the call is durable.
fn line(number: u32, call: Call) -> Line
    ensures { result ≡ line_of number call }
{
    Line {
        number,
        request: Request { call, lazy: false },
    }
}

/// What follows a number of the sequence.
fn next(x: u64) -> u64
    ensures { result ≡ next x }
{
    x.wrapping_mul(6364136223846793005)
        .wrapping_add(1442695040888963407)
}

/// The call that a number of 31 bits asks for.
#[tactic(auto, unfolding(crate::specs::Workload::call_of))]
fn call_of(alloc: Global, client: u32, r: u32) -> Result<Call, AllocError>
    requires { client < 100 }
    ensures { IfOk result (λ call. call ≡ call_of client r) }
{
    let file = r / 8 % 16;
    let path = file_path(alloc, client, file)?;
    Ok(call_by(r % 8, path, file as u8, r / 128 % 8))
}

/// The call of a kind on a file.
fn call_by(kind: u32, path: Path, byte: u8, block: u32) -> Call
    requires { block < 8 }
    ensures { result ≡ call_by kind path byte block }
{
    let offset = u64::from(4096 * block);
    if kind < 2 {
        return Call::Create { path, mode: 0o644 };
    }
    if kind == 2 {
        return Call::Unlink { path };
    }
    if kind < 6 {
        return Call::Fill {
            path,
            offset,
            count: 4096,
            byte,
        };
    }
    if kind == 6 {
        return Call::Stat { path };
    }
    Call::Truncate { path, size: offset }
}
