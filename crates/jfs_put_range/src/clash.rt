//! What an error means where no page on the range's way breaks a rule by itself.

ghost use Rattle.std.specs.Prelude.{◌≡◌};
ghost use Rattle.jfs_put_range.specs.Way.{as_clash};

use jfs_bits::Rule;
use jfs_tree::{NO_PAGE, TreeError};

/// Pages that break no rule clash with each other: that is `order` at the page. Only the root can be too full.
pub(crate) fn as_clash(e: TreeError) -> TreeError
    ensures { result ≡ as_clash e }
{
    match e {
        TreeError::View(e) => TreeError::View(e),
        TreeError::Bad { page, rule: _ } => {
            if page == NO_PAGE {
                return TreeError::Bad {
                    page,
                    rule: Rule::Deep,
                };
            }
            TreeError::Bad {
                page,
                rule: Rule::Order,
            }
        }
        TreeError::Memory => TreeError::Memory,
    }
}
