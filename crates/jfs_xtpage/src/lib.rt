//! Pages of extent trees, in place. (JFS Layout, xtree: `xtpage_t`.)
#![tactic(auto)]

mod check;
mod edit;
mod find;
mod head;

pub use check::xt_check;
pub use edit::{Full, xt_cut, xt_insert, xt_link, xt_new, xt_put, xt_set_kind, xt_split};
pub use find::{xt_entry, xt_find};
pub use head::{BadXt, XtForm, XtHead};
