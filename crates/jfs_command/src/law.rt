//! What is true of all answers of a command.

ghost use Rattle.jfs_command.specs.Check.{CheckSaysOneThing};
ghost use Rattle.jfs_command.specs.Log.{LogSaysOneThing};
ghost use Rattle.jfs_command.specs.Redo.{RedoSaysOneThing};
ghost use Rattle.jfs_command.specs.Run.{RunSaysOneThing};

/// Of one log one answer is given, text and all.
pub fn log_says_one_thing()
    ensures { LogSaysOneThing }
{}

/// Of one volume one answer is given, text and all, where the disk tells.
pub fn check_says_one_thing()
    ensures { CheckSaysOneThing }
{}

/// Of one volume one answer of a redo is given, text and all, where the disk tells.
pub fn redo_says_one_thing()
    ensures { RedoSaysOneThing }
{}

/// Of a script and a volume all answers of a run have one status, where the disk tells.
pub fn run_says_one_thing()
    ensures { RunSaysOneThing }
{}
