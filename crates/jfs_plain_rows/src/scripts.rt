//! Scripts and paths for the tests.

use jfs_io::SureSource;
use jfs_name::{Path, write_name};
use jfs_plain::Line;
use jfs_script::{ScriptError, read_script};
use std::alloc::{AllocError, Global};

/// What a script of these bytes asks for.
pub fn script_of(alloc: Global, text: &[u8]) -> Result<Vec<Line>, ScriptError> {
    let mut source = SureSource::new(Vec::from_slice(alloc, text)?);
    read_script(alloc, &mut source)
}

/// A path as it is spelled; nothing for the root directory.
pub fn spelled(alloc: Global, path: &Path) -> Result<Vec<u8>, AllocError> {
    let mut text = Vec::new(alloc);
    for name in path.as_slice() {
        text.push(b'/')?;
        write_name(name.as_slice(), &mut text)?;
    }
    Ok(text)
}
