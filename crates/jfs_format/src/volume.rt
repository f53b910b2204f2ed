//! What a new volume is made from.

ghost use Rattle.std.specs.Prelude.{◌≡◌, ◌≤◌, length};
ghost use Rattle.jfs_format.specs.Superblock.{label_field};

use crate::layout::Layout;
use jfs_bits::Moment;

/// A new volume: its layout, its UUID and label, and the moment at which it is made.
#[derive(Clone, Copy, PartialEq, Eq)]
pub struct NewVolume {
    pub layout: Layout,
    pub uuid: [u8; 16],
    /// The label, with zeros behind it.
    pub label: [u8; 16],
    pub moment: Moment,
}

/// A label as the superblock has it.
pub fn label_field(label: &[u8]) -> [u8; 16]
    requires { length label.now ≤ 16 }
    ensures { result ≡ label_field label.now }
{
    let mut field = [0u8; 16];
    field[..label.len()].copy_from_slice(label);
    field
}
