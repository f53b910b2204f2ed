//! A disk over a file. It tells nothing of its contents: what a real file holds is trusted.

ghost use Rattle.std.specs.Prelude.{◌≡◌, ◌≢◌, ◌<◌, ◌≤◌, ◌+◌, ◌/◌, ◌-◌, ◌^◌, min, [], IfOk};
ghost use Rattle.jfs_disk.specs.Fault.{HasCause};

use jfs_disk::{Disk, DiskError, Page};
use std::alloc::{AllocError, Global};
use std::fmt::{Display, Formatter};
use std::fs::{File, OpenFile, OpenOptions, TryLockError};
use std::io::{Seek, SeekFrom};
use std::os::fd::AsRawFd;
use std::os::unix::fs::FileExt;
use std::rt::Files;
use std::sync::Arc;
use std::{fmt, io, str};

const PAGE_BYTES: u64 = 4096;

/// What a command does with its image.
#[derive(Clone, Copy, Debug, PartialEq, Eq)]
pub enum Access {
    /// It only reads: others may read at the same time.
    Read,
    /// It writes too: it has the image alone.
    Write,
}

/// Why an image can't be opened.
#[derive(Debug, Drop)]
pub enum OpenError {
    /// The system refuses it.
    System(io::Error),
    /// Another process has it.
    InUse,
    /// It was given the number of a standard stream that is closed, so text could be written into it.
    Standard,
}

impl From<io::Error> for OpenError {
    fn from(e: io::Error) -> OpenError {
        OpenError::System(e)
    }
}

impl From<TryLockError> for OpenError {
    fn from(e: TryLockError) -> OpenError {
        match e {
            TryLockError::Error(e) => OpenError::System(e),
            TryLockError::WouldBlock => OpenError::InUse,
        }
    }
}

impl Display for OpenError {
    fn fmt<W: fmt::Write>(&self, f: &mut Formatter<W>) -> fmt::Result {
        match self {
            OpenError::System(e) => Display::fmt(e, f),
            OpenError::InUse => f.write_str("in use by another process"),
            OpenError::Standard => f.write_str("standard input, output or error is closed"),
        }
    }
}

/// An image: one open file for reads and, where the command writes, one for writes, and how often a call failed.
/// Of a name that can't be opened it has no pages, and each call on it fails.
/// A part of it is so many pages from its first one on, and shares the files.
#[derive(Drop)]
pub struct FileDisk {
    files: Option<Arc<ImageFiles>>,
    first: u32,
    pages: u32,
    room: u32,
    faults: u64,
    ghost within: { first + room < 2 ^ 32 },
    ghost has_room: { pages ≤ room },
}

/// The file that is read, and the same file to be written.
#[derive(Drop)]
struct ImageFiles {
    reads: File,
    writes: Option<File>,
}

impl FileDisk {
    /// Opens the image of that name, a file or a block device, and takes the system's advisory lock on it: shared to
    /// read, exclusive to write. It doesn't wait for one.
    pub fn open<R: Files<File = File>>(
        rt: &R,
        alloc: Global,
        name: &[u8],
        access: Access,
    ) -> Result<FileDisk, OpenError>
        ensures { IfOk result (λ disk. disk.faults ≡ 0) }
    {
        let name = str::from_utf8(name).map_err(|_| io::Error::from(io::ErrorKind::InvalidInput))?;
        let reads = OpenOptions::new().read(true).open(rt, name)?;
        if is_standard(&reads) {
            return Err(OpenError::Standard);
        }
        if reads.metadata()?.is_dir() {
            return Err(OpenError::System(io::Error::from(io::ErrorKind::IsADirectory)));
        }
        let writes = match access {
            Access::Read => {
                reads.try_lock_shared()?;
                None
            }
            Access::Write => {
                reads.try_lock()?;
                Some(OpenOptions::new().write(true).open(rt, name)?)
            }
        };
        // The metadata of a block device has no length.
        let bytes = (&reads).seek(SeekFrom::End(0))?;
        let pages = whole_pages(bytes);
        let files = Arc::new(alloc, ImageFiles { reads, writes }).map_err(|_| io::Error::from(
            io::ErrorKind::OutOfMemory,
        ))?;
        Ok(FileDisk {
            files: Some(files),
            first: 0,
            pages,
            room: pages,
            faults: 0,
        })
    }

    /// A disk of a name that can't be opened.
    pub fn closed() -> FileDisk
        ensures { result.faults ≡ 0 }
    {
        FileDisk {
            files: None,
            first: 0,
            pages: 0,
            room: 0,
            faults: 0,
        }
    }

    // Counts a failed call.
    fn counted(&mut self, done: io::Result<()>) -> Result<(), DiskError>
        ensures pages { self.new.pages ≡ self.old.pages }
        ensures room { self.new.room ≡ self.old.room }
        ensures cause { HasCause self.old.faults self.new.faults result }
        ensures no_memory { result ≢ Err DiskError.Memory }
    {
        match done {
            Ok(()) => Ok(()),
            Err(_) => {
                self.faults = self.faults.saturating_add(1);
                Err(DiskError::Failed)
            }
        }
    }

    // The file that is written.
    fn written(&self) -> io::Result<&File> {
        let writes = match &self.files {
            Some(files) => files.writes.as_ref(),
            None => None,
        };
        writes.ok_or_else(|| io::Error::from(io::ErrorKind::NotFound))
    }

    // Where a page lies in the file.
    fn place_of(&self, n: u32) -> u64
        requires { n < self.now.pages }
    {
        u64::from(self.first + n) * PAGE_BYTES
    }
}

// The same files once more.
fn shared(files: &Option<Arc<ImageFiles>>) -> Result<Option<Arc<ImageFiles>>, AllocError> {
    match files {
        Some(files) => Ok(Some(files.clone()?)),
        None => Ok(None),
    }
}

impl Disk for FileDisk {
    ghost page_count = { λ d. d.pages };

    ghost fault_count = { λ d. d.faults };

    ghost room = { λ d. d.room };

    ghost tells = { ⊥ };

    ghost image = { λ _. [] };

    ghost tells_crashes = { ⊥ };

    ghost past = { λ _. [] };

    ghost has_pages = { λ _ tells. absurd tells };

    ghost reads_now = { λ _ tells. absurd tells };

    ghost reads_crash = { λ _ tells. absurd tells };

    ghost has_state = { λ _ tells. absurd tells };

    fn pages(&self) -> u32 {
        self.pages
    }

    fn read(&mut self, n: u32, into: &mut Page) -> Result<(), DiskError> {
        let place = self.place_of(n);
        let done = match &self.files {
            Some(files) => files.reads.read_exact_at(&mut into.0, place),
            None => Err(io::Error::from(io::ErrorKind::NotFound)),
        };
        self.counted(done)
    }

    fn write(&mut self, n: u32, from: &Page) -> Result<(), DiskError> {
        let place = self.place_of(n);
        let done = match self.written() {
            Ok(file) => file.write_all_at(&from.0, place),
            Err(e) => Err(e),
        };
        self.counted(done)
    }

    fn sync(&mut self) -> Result<(), DiskError> {
        let done = match self.written() {
            // The file's length never changes, so its data alone is synced.
            Ok(file) => file.sync_data(),
            Err(e) => Err(e),
        };
        self.counted(done)
    }

    fn faults(&self) -> u64 {
        self.faults
    }

    fn cut(self, at: u32) -> Result<(Self, Self), Self> {
        let FileDisk {
            files,
            first,
            pages,
            room,
            faults,
        } = self;
        let Ok(behind) = shared(&files) else {
            return Err(FileDisk {
                files,
                first,
                pages,
                room,
                faults,
            });
        };
        let low = FileDisk {
            files,
            first,
            pages: at,
            room,
            faults,
        };
        let high = FileDisk {
            files: behind,
            first: first + at,
            pages: pages - at,
            room: pages - at,
            faults: 0,
        };
        Ok((low, high))
    }

    /// Of parts of one file alone: the pages are those of the low part's file.
    fn join(low: Self, high: Self) -> Self {
        FileDisk {
            files: low.files,
            first: low.first,
            pages: low.pages + high.pages,
            room: low.room,
            faults: low.faults.saturating_add(high.faults),
        }
    }
}

/// Whether a file has the number of standard input, output or error.
pub fn is_standard(file: &File) -> bool {
    file.as_raw_fd() <= 2
}

/// How many whole pages a file of so many bytes has, up to the last number of a page.
fn whole_pages(bytes: u64) -> u32
    ensures { result ≡ min (bytes / 4096) (2 ^ 32 - 1) }
{
    (bytes / PAGE_BYTES).min(u64::from(u32::MAX)) as u32
}
