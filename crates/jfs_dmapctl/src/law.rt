//! What a control page follows from.

ghost use Rattle.jfs_dmapctl.specs.Laws.{ControlsAgree};

/// A canonical control page is a function of its level and its leaves' own ranks.
pub fn controls_agree()
    ensures { ControlsAgree }
{}
