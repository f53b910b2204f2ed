//! What holds of images after entries.

ghost use Rattle.jfs_image_volumes.specs.Crash.{CrashLaw, HistoryLaw};
ghost use Rattle.jfs_image_volumes.specs.Enters.{EnteredLaw};
ghost use Rattle.jfs_image_volumes.specs.Next.{NextLaw, RunLaw, StartLaw};
ghost use Rattle.jfs_image_volumes.specs.Stands.{PlacesLaw, ShowsLaw, VolumeLaw};

/// An entry that leaves the pages of the fixed areas beside the maps leaves both maps' files where they are, whole and with all of their pages.
pub fn entries_leave_maps_in_their_places()
    ensures { PlacesLaw }
{}

/// Where an image shows what the log keeps safe of a volume, the image after an entry that logs what matters shows it of the volume after the entry.
pub fn images_show_what_is_logged_after_entries()
    ensures { ShowsLaw }
{}

/// Then the image after the entry, read as a volume is mounted, has the blocks and inodes in use, the places, the objects and the owners of the volume after it, its maps agree, and they stand where they were mounted.
pub fn images_are_volumes_after_entries()
    ensures { VolumeLaw }
{}

/// From an image that is a volume's, each transaction that logs what matters and stays within the volume leads to an image, which is the next volume's.
pub fn images_follow_volumes()
    ensures { NextLaw }
{}

/// So after a run of such transactions the image is the last volume's.
pub fn images_follow_runs()
    ensures { RunLaw }
{}

/// Where a volume is mounted, its image with canonical map pages is the volume's.
pub fn mounted_images_are_volumes()
    ensures { StartLaw }
{}

/// Each image of a sound core's history is its volume's, where each entry leads from one volume to the next.
pub fn images_of_histories_are_volumes()
    ensures { HistoryLaw }
{}

/// So after any changes of a mounted volume's halves that are a run of such a core, whatever a crash leaves of the disk and for each log image: redo finds a front of the history with all that was acknowledged before, and leaves the volume after that front.
pub fn crashes_leave_a_volume_of_the_history()
    ensures { CrashLaw }
{}

/// Where the newest image of a core is a volume's, a transaction from this volume to the next, which tells no page of a map and nothing past the volume's part of the disk, is an entry that the core's laws ask for, with the image after it.
pub fn transactions_between_volumes_are_entries()
    ensures { EnteredLaw }
{}
