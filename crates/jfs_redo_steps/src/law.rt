//! What redo of pages is made of.

ghost use Rattle.jfs_redo_steps.specs.Pages.{RedoneAgain};

/// Redo of what a crash left in the midst of a redo makes the same pages.
pub fn pages_are_redone_again()
    ensures { RedoneAgain }
{}
