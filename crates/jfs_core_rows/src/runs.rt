//! Steps as the tables write them, and runs of them.

ghost use Rattle.std.specs.Prelude.{◌≤◌, ◌^◌, ◌<◌, length, IfOk};

use jfs_bits::PageKind;
use jfs_core::{CoreState, FaultOf, RunError, Step, StepRefused, run_steps};
use jfs_disk::{Fault, Page, PageList, Part};
use jfs_ranges::{Edit, Tx};
use std::alloc::{AllocError, Global};

/// A step, as the tables write it.
#[derive(Clone, Copy)]
pub enum Do {
    /// An entry that sets the 16 bytes of a line of a page.
    Set(u32, u32, u8),
    /// An entry with two such lines.
    SetBoth(u32, u32, u32, u32, u8),
    /// An entry without a change.
    Nothing,
    Take,
    Group,
    Told,
    Home(u32),
    Sync,
    Point(u64),
    FailRead,
    FailSync,
    FailGroup,
    /// A failed write of a page whose first 16 bytes are these and whose other bytes are 0.
    FailHome(u32, u8, u32),
}

const FAULT: Fault = Fault {
    part: Part::Low,
    count: 1,
};

pub fn set_line(
    alloc: Global,
    tx: &mut Tx,
    page: u32,
    line: u32,
    byte: u8,
) -> Result<(), AllocError> {
    let mut bytes = jfs_bits::Blob::new(alloc);
    for _ in 0..16 {
        bytes.push(byte)?;
    }
    tx.push(Edit::Lines {
        page,
        kind: PageKind::Xtree,
        first: line,
        bytes,
    })?;
    Ok(())
}

/// The step that a table means.
pub fn step_of(alloc: Global, code: Do) -> Result<Step, AllocError> {
    match code {
        Do::Set(page, line, byte) => set(alloc, page, line, byte),
        Do::SetBoth(page, line, other, next, byte) => {
            set_both(alloc, (page, line), (other, next), byte)
        }
        Do::Nothing => Ok(Step::Append { tx: Tx::new(alloc) }),
        Do::Take => Ok(Step::Take),
        Do::Group => Ok(Step::GroupWrite),
        Do::Told => Ok(Step::Told),
        Do::Home(page) => Ok(Step::Home { page }),
        Do::Sync => Ok(Step::LowSync),
        Do::Point(c) => Ok(Step::SyncPoint { c }),
        Do::FailRead => Ok(failed(FaultOf::Read)),
        Do::FailSync => Ok(failed(FaultOf::LowSync)),
        Do::FailGroup => Ok(failed(FaultOf::GroupWrite)),
        Do::FailHome(page, byte, sectors) => Ok(failed(FaultOf::LowWrite {
            page,
            bytes: first_line(byte),
            sectors,
        })),
    }
}

fn set(alloc: Global, page: u32, line: u32, byte: u8) -> Result<Step, AllocError> {
    let mut tx = Tx::new(alloc);
    set_line(alloc, &mut tx, page, line, byte)?;
    Ok(Step::Append { tx })
}

fn set_both(
    alloc: Global,
    one: (u32, u32),
    other: (u32, u32),
    byte: u8,
) -> Result<Step, AllocError> {
    let mut tx = Tx::new(alloc);
    set_line(alloc, &mut tx, one.0, one.1, byte)?;
    set_line(alloc, &mut tx, other.0, other.1, byte)?;
    Ok(Step::Append { tx })
}

fn failed(of: FaultOf) -> Step {
    Step::Fault { fault: FAULT, of }
}

/// A page whose first 16 bytes are these and whose other bytes are 0.
fn first_line(byte: u8) -> Page {
    let mut page = Page::zeros();
    for i in 0..16 {
        page.0[i] = byte;
    }
    page
}

/// Pages of zeros.
pub fn zeros(alloc: Global, count: u32) -> Result<PageList, AllocError>
    ensures { IfOk result (λ pages. length pages < 2 ^ 32) }
{
    let mut pages = PageList::new(alloc);
    for _ in 0..count {
        pages.push(Page::zeros())?;
    }
    Ok(pages)
}

/// Runs the steps of a table, and gives the refused one.
pub fn run(
    alloc: Global,
    core: &mut CoreState,
    codes: &[Do],
) -> Result<Option<StepRefused>, AllocError>
    requires { length codes.now ≤ 2 ^ 32 }
{
    let mut steps = Vec::new(alloc);
    for code in codes {
        steps.push(step_of(alloc, *code)?)?;
    }
    match run_steps(alloc, core, &steps) {
        Ok(()) => Ok(None),
        Err(RunError::Refused(refused)) => Ok(Some(refused)),
        Err(RunError::Memory) => Err(AllocError),
    }
}
