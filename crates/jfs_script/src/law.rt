//! What is true of all scripts.

ghost use Rattle.jfs_script.specs.Laws.{ScriptsMeanOneThing};

/// A script has one meaning: the same calls, or the same first bad line and rule, or the same limit that it passes.
pub fn scripts_mean_one_thing()
    ensures { ScriptsMeanOneThing }
{}
