//! How far a walk through a tree of names has come.

use crate::entry::NameKey;

/// How far a walk through a tree of names has come: to a key, or just behind a name.
#[derive(Drop)]
pub enum Reached {
    At(NameKey),
    Behind(NameKey),
}
