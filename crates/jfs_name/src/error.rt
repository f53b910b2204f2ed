//! Why a text is no path.

ghost use Rattle.std.specs.Prelude.{◌≡◌};
ghost use Rattle.jfs_name.specs.declared.error.PathError.TheVariants.{Memory};

use std::alloc::{AllocError, AllocFailed};

/// Why a text is no path. `place` counts the bytes before the one at fault; it is the text's length where something is missing at the end.
#[derive(Clone, Copy, PartialEq, Eq, Debug, Drop)]
pub enum PathError {
    /// The text leaves the spelling of paths here.
    BadPath { place: usize },
    /// A 256th unit of a name stands here.
    NameTooLong { place: usize },
    Memory,
}

impl From<AllocError> for PathError {
    ghost from_gives = { λ _ e. e ≡ Memory };

    fn from(_e: AllocError) -> PathError {
        PathError::Memory
    }
}

impl<T: Drop> From<AllocFailed<T>> for PathError {
    ghost from_gives = { λ _ e. e ≡ Memory };

    fn from(_e: AllocFailed<T>) -> PathError {
        PathError::Memory
    }
}
