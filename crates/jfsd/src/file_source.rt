//! A script over a file. It tells nothing of its bytes.

ghost use Rattle.std.specs.Prelude.{◌≡◌, [], IfOk};

use jfs_io::{IoFailed, Source};
use std::fs::File;
use std::io::Read;
use std::rt::Files;
use std::{fs, io, str};

/// A script, and how often a call failed. Of a name that can't be opened each call fails.
#[derive(Drop)]
pub struct FileSource {
    file: Option<File>,
    faults: u64,
}

impl FileSource {
    /// Opens the script of that name.
    pub fn open<R: Files<File = File>>(rt: &R, name: &[u8]) -> io::Result<FileSource>
        ensures { IfOk result (λ source. source.faults ≡ 0) }
    {
        let name = str::from_utf8(name).map_err(|_| io::Error::from(io::ErrorKind::InvalidInput))?;
        Ok(FileSource {
            file: Some(fs::open(rt, name)?),
            faults: 0,
        })
    }

    /// A script of a name that can't be opened.
    pub fn closed() -> FileSource
        ensures { result.faults ≡ 0 }
    {
        FileSource {
            file: None,
            faults: 0,
        }
    }
}

impl Source for FileSource {
    ghost fault_count = { λ s. s.faults };

    ghost tells = { ⊥ };

    ghost remaining = { λ _. [] };

    fn take(&mut self, into: &mut [u8]) -> Result<usize, IoFailed> {
        if let Some(file) = &mut self.file {
            if let Ok(count) = file.read(into) {
                return Ok(count);
            }
        }
        self.faults = self.faults.saturating_add(1);
        Err(IoFailed)
    }

    fn faults(&self) -> u64 {
        self.faults
    }
}
