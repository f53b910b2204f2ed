//! The tree of a new volume.

ghost use Rattle.std.specs.Prelude.{◌≡◌, IfOk};
ghost use Rattle.jfs_plain.specs.Plain.{IsNew};

use crate::node::Node;
use crate::plain::{PlainTree, ROOT};
use jfs_bits::Moment;
use std::alloc::{AllocError, Global};
use std::collections::BTreeMap;

impl PlainTree {
    /// The tree of a new volume: an empty root directory, and the inodes 0, 1 and 3, which are kept.
    pub fn new(alloc: Global, file_limit: u64, now: Moment) -> Result<PlainTree, AllocError>
        ensures { IfOk result (IsNew file_limit now) }
    {
        let mut nodes = BTreeMap::new(alloc);
        nodes.insert(0, Node::file(alloc, 0, now))?;
        nodes.insert(1, Node::file(alloc, 0, now))?;
        nodes.insert(ROOT, Node::directory(alloc, 0o755, ROOT, now))?;
        nodes.insert(3, Node::file(alloc, 0, now))?;
        Ok(PlainTree {
            nodes,
            contents: BTreeMap::new(alloc),
            file_limit,
            alloc,
        })
    }
}
