//! What is true of the step of a call, and of what calls are handed.

ghost use Rattle.std.specs.Prelude.{ℕ, List};
ghost use Rattle.jfs_plain.specs.CallStep.{CallStepLaw, RefusalLaw};
ghost use Rattle.jfs_plain.specs.Limits.{FitsPath, AreShort};

/// The plain steps are the steps of calls in which nothing fails and nothing is damaged: no plain step answers a fault, damage or want of memory.
pub fn call_steps_are_plain()
    ensures { CallStepLaw }
{}

/// A refusal leaves the tree, but for bytes where a device failed.
pub fn refusal_leaves_tree()
    ensures { RefusalLaw }
{}

/// The names of a path have 255 units at most, so directories can be asked for them.
pub fn names_of_paths_are_short()
    ensures { (names : List (List ℕ)) → FitsPath names → AreShort names }
{}
