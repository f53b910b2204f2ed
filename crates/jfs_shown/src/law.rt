//! What pages show of the maps in memory.

ghost use Rattle.jfs_shown.specs.Laws.{ImageLaw, CanonicalLaw, FilesLaw, KeepsLaw};
ghost use Rattle.jfs_shown.specs.Files.{WrittenLaw, ChangeLaw, OwnLaw};

/// Where the pages of both maps' files show the maps in memory, a consistent volume of pages and maps is the one that its pages spell: so they have its tree and its room.
pub fn shown_maps_give_the_image()
    ensures { ImageLaw }
{}

/// A page in its canonical form shows the map that it is of.
pub fn canonical_pages_show_maps()
    ensures { CanonicalLaw }
{}

/// Where the pages stay that say where the maps' files and the bad blocks lie, these lie where they were, and so do the fixed areas.
pub fn files_are_framed()
    ensures { FilesLaw }
{}

/// On a volume whose maps agree these pages stay where the fixed areas do, but for the superblock's page and the pages of both maps.
pub fn changes_keep_files()
    ensures { KeepsLaw }
{}

/// Where neither map has changed since its pages were written, all pages of both files show them.
pub fn written_pages_show_maps()
    ensures { WrittenLaw }
{}

/// What is known of the maps' files holds after a change that leaves the pages which say where they lie.
pub fn changes_keep_what_is_known()
    ensures { ChangeLaw }
{}

/// The pages of both files lie on blocks of their own.
pub fn map_pages_are_apart()
    ensures { OwnLaw }
{}
