//! What holds of the parts of a transaction.

ghost use Rattle.jfs_logged.specs.Logged.{PageLaw};
ghost use Rattle.jfs_logged.specs.Own.{JoinLaw, LeftLaw, OrderLaw, OwnLaw};
ghost use Rattle.jfs_logged.specs.Edits.{EditsLaw, InodeLaw};
ghost use Rattle.jfs_logged.specs.Kinds.{KindsLaw};
ghost use Rattle.jfs_logged.specs.Stages.{RunsLaw, StageLaw};
ghost use Rattle.jfs_logged.specs.Trees.{PagesLaw};
ghost use Rattle.jfs_logged.specs.Written.{TreesLaw};

/// Two parts of a transaction that each log what the log keeps safe, and keep to their own pages, do so together, where the later one takes no block that the first one freed. Where it frees none that the first one took either, they are a part again.
pub fn parts_are_logged_together()
    ensures { JoinLaw }
{}

/// A page is logged that is told by lines alone and is kept safe then, whole where it wasn't before; and one that is freed with no line behind that.
pub fn pages_are_logged()
    ensures { PageLaw }
{}

/// An inode that is written with the same trees keeps the kinds of its blocks, and so does a directory or a link with the same attributes and target.
pub fn inodes_and_directories_keep_kinds()
    ensures { KindsLaw }
{}

/// A part of a transaction that tells what it changes of an object's pages logs what matters, where maps agree and blocks that stay in use keep their owners.
pub fn stages_are_logged()
    ensures { StageLaw }
{}

/// The runs of lines of one page leave each other page, and have no NoRedo.
pub fn runs_leave_other_pages()
    ensures { RunsLaw }
{}

/// So does a part that sets an object and keeps the kinds of its blocks, one that drops an object, and one that adds an inode extent.
pub fn edits_of_objects_are_logged()
    ensures { EditsLaw }
{}

/// An inode that is written with the same trees, by the runs of its page, logs what matters.
pub fn inodes_are_logged()
    ensures { InodeLaw }
{}

/// What a call on a page tree tells: a page that it freed is freed with no line behind that, one that was taken and changed is told whole, and one that has the bytes it had is left.
pub fn tree_pages_are_told()
    ensures { PagesLaw }
{}

/// Of two parts either may come first, where the one leaves each page and the other those of which it has a NoRedo.
pub fn order_of_parts_is_free()
    ensures { OrderLaw }
{}

/// An object that is set by a call on its tree and by the runs of its inode's page logs what matters, where each tree page that comes is told whole and each that goes is freed; and so does one that goes with all that it has.
pub fn objects_and_their_trees_are_logged()
    ensures { TreesLaw }
{}

/// A page that a transaction has lines of is kept safe by the log then, or has a NoRedo; where it stays in use it is an inode's page or a tree's. Each that is dirty by it is one that the log keeps safe, or a regular file's data, or isn't in use.
pub fn transactions_keep_to_their_own_pages()
    ensures { OwnLaw }
{}

/// Edits that leave a page, whatever it holds, have no line of it.
pub fn edits_that_leave_a_page_have_no_line_of_it()
    ensures { LeftLaw }
{}
