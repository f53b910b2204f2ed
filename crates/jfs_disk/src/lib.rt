//! Pages, the trait of a disk, what a crash may leave of one, and disks in memory.
#![tactic(auto)]

mod choice;
mod disk;
mod memory;
mod page;
mod past;
mod plan;
mod slot;
mod stable;
mod store;
mod sure;
mod table;

pub use choice::{Choice, find_choice, torn};
pub use disk::{Disk, DiskError, Fault, Part};
pub use memory::MemDisk;
pub use page::{Page, PageList};
pub use plan::{Fail, Kind};
pub use slot::PageSlot;
pub use stable::write_stable;
pub use sure::SureDisk;
