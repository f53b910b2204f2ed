//! Every call on a plain tree.

ghost use Rattle.std.specs.Prelude.{◌≡◌, None};
ghost use Rattle.jfs_plain.specs.Step.{outcome};
ghost use Rattle.jfs_plain.specs.Plain.{Steps, Meets, ample, node_at, tree_of};

use crate::call::Call;
use crate::plain::{PlainTree, Supply};
use crate::refusal::Refusal;
use crate::reply::Reply;
use jfs_bits::Moment;

impl PlainTree {
    /// What a call is answered, and what becomes of the tree; a new object gets the inode `fresh`, which is free. `OutOfMemory` leaves the tree.
    pub fn step(&mut self, call: &Call, fresh: u32, now: Moment) -> Reply
        requires { node_at self.old fresh ≡ None }
        ensures { Steps self.old call.now fresh now result self.new }
    {
        match self.perform(call, Supply { inode: fresh, now }) {
            Ok(reply) => reply,
            Err(why) => Reply::Refused(why),
        }
    }

    fn perform(&mut self, call: &Call, supply: Supply) -> Result<Reply, Refusal>
        requires { node_at self.old supply.inode ≡ None }
        ensures answer { Meets (tree_of self.old) (outcome (ample self.old.file_limit supply.inode) (tree_of self.old) call.now supply.now) result (tree_of self.new) }
        ensures limit { self.new.file_limit ≡ self.old.file_limit }
    {
        match call {
            Call::Mkdir { path, mode } => self.mkdir(
                path.as_slice(),
                *mode,
                supply.inode,
                supply.now,
            ),
            Call::Create { path, mode } => self.create(
                path.as_slice(),
                *mode,
                supply.inode,
                supply.now,
            ),
            Call::Symlink { path, target } => self.symlink(
                path.as_slice(),
                target,
                supply.inode,
                supply.now,
            ),
            Call::Link { from, to } => self.link(from.as_slice(), to.as_slice(), supply),
            Call::Unlink { path } => self.unlink(path.as_slice(), supply),
            Call::Rmdir { path } => self.rmdir(path.as_slice(), supply.now),
            Call::Rename { from, to } => self.rename(from.as_slice(), to.as_slice(), supply),
            Call::Chmod { path, mode } => self.chmod(path.as_slice(), *mode, supply.now),
            Call::Write {
                path,
                offset,
                bytes,
            } => { self.write(path.as_slice(), *offset, bytes.as_slice(), supply) }
            Call::Fill {
                path,
                offset,
                count,
                byte,
            } => self.fill(path.as_slice(), *offset, *count, *byte, supply),
            Call::Truncate { path, size } => self.truncate(path.as_slice(), *size, supply),
            Call::Read {
                path,
                offset,
                count,
            } => self.read(path.as_slice(), *offset, *count),
            Call::Stat { path } => self.stat(path.as_slice()),
            Call::List { path } => self.list(path.as_slice()),
            Call::Readlink { path } => self.readlink(path.as_slice()),
            Call::Sync => Ok(Reply::Done),
        }
    }
}
