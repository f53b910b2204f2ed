//! One call of a client on a mounted volume that is lent its log.
#![tactic(auto)]

mod asking;
mod call;
mod changing;
mod lent;
mod outcome;
mod reply;

pub use call::call_without_log;
pub use lent::call_with_log;
pub use outcome::Outcome;
pub use reply::Caller;

pub mod volume_calls {
    //! Passed on from `jfs_volume_calls`.

    pub use jfs_volume_calls::{PointText, commit};
}
