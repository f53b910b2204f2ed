//! A tree put together object by object.

ghost use Rattle.std.specs.Prelude.{◌≡◌, None, OnOk, OnErr};
ghost use Rattle.std.specs.Option.{option_copied};
ghost use Rattle.jfs_plain.specs.Build.{IsEmpty, holding};
ghost use Rattle.jfs_plain.specs.Plain.{Became, node_at};

use crate::content::Content;
use crate::node::Node;
use crate::plain::PlainTree;
use std::alloc::{AllocError, Global};
use std::collections::BTreeMap;

impl PlainTree {
    /// No object. No file may grow past the limit, in bytes.
    pub fn empty(alloc: Global, file_limit: u64) -> PlainTree
        ensures { IsEmpty file_limit result }
    {
        PlainTree {
            nodes: BTreeMap::new(alloc),
            contents: BTreeMap::new(alloc),
            file_limit,
            alloc,
        }
    }

    /// Puts an object under a number that is free. It holds these bytes, and zeros behind them. At `Err` the tree is as it was.
    pub fn put_object(&mut self, n: u32, node: Node, bytes: Vec<u8>) -> Result<(), AllocError>
        requires { node_at self.old n ≡ None }
        ensures ok { OnOk result (Became self.old self.new (holding n node bytes.items)) }
        ensures err { OnErr result (Became self.old self.new (λ t. t)) }
    {
        self.nodes.insert(n, node)?;
        if let Err(error) = self.contents.insert(n, Content::from_bytes(bytes)) {
            self.nodes.remove(&n);
            return Err(error.into());
        }
        Ok(())
    }

    /// The object with this number.
    pub fn node(&self, n: u32) -> Option<&Node>
        ensures { option_copied result ≡ node_at self.now n }
    {
        self.nodes.get(&n)
    }
}
