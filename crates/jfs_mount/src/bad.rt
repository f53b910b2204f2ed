//! A rule that a mount finds broken.

ghost use Rattle.std.specs.Prelude.{◌≡◌};

use jfs_bits::Rule;

/// A rule that a mount finds broken, with the page that breaks it and the value there.
#[derive(Clone, Copy, PartialEq, Eq, Debug)]
pub struct BadMount {
    pub rule: Rule,
    pub page: u32,
    pub value: u64,
}
