//! The directories and files of generated scripts.

ghost use Rattle.std.specs.Prelude.{◌≡◌, ◌+◌, ◌<◌, [], ◌∷◌, ◌++◌, IfOk, OnOk};
ghost use Rattle.std.specs.Fmt.{decimal};
ghost use Rattle.jfs_gen.specs.Workload.{home_path, file_path};

use jfs_name::{Name, Path};
use std::alloc::{AllocError, Global};

/// The directory of a client, `/gC`.
pub fn home_path(alloc: Global, client: u32) -> Result<Path, AllocError>
    requires { client < 100 }
    ensures { IfOk result (λ path. path ≡ home_path client) }
{
    let mut path = Path::new(alloc);
    path.push(numbered(alloc, b'g', client)?)?;
    Ok(path)
}

/// A file of a client, `/gC/fN`.
pub fn file_path(alloc: Global, client: u32, file: u32) -> Result<Path, AllocError>
    requires { (client < 100) × (file < 100) }
    ensures { IfOk result (λ path. path ≡ file_path client file) }
{
    let mut path = home_path(alloc, client)?;
    path.push(numbered(alloc, b'f', file)?)?;
    Ok(path)
}

/// A letter and a number of one or two digits.
pub(crate) fn numbered(alloc: Global, letter: u8, number: u32) -> Result<Name, AllocError>
    requires { number < 100 }
    ensures { IfOk result (λ name. name ≡ letter ∷ decimal number) }
{
    let mut name = Name::new(alloc);
    name.push(u16::from(letter))?;
    if number >= 10 {
        name.push(b'0' as u16 + (number / 10) as u16)?;
    }
    name.push(b'0' as u16 + (number % 10) as u16)?;
    Ok(name)
}
