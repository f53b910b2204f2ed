//! What a crash leaves of a page.

ghost use Rattle.std.specs.Prelude.{◌≡◌, ◌≤◌, ◌++◌, length, take, drop};
ghost use Rattle.jfs_disk.specs.Crash.{torn};
ghost use Rattle.jfs_disk.specs.Choice.{choice_of};

use crate::page::Page;

/// What a crash leaves of a page: the first `sectors` sectors of content `top`, then the rest of content `base`.
/// Content 0 is the stable one, content `k` the `k`-th write since the last sync. A write that failed counts as two.
#[derive(Clone, Copy)]
pub struct Choice {
    pub page: u32,
    pub base: u32,
    pub top: u32,
    pub sectors: u32,
}

/// The first choice of a page.
pub fn find_choice(choices: &[Choice], page: u32) -> Option<Choice>
    ensures { result ≡ choice_of choices.now page }
{
    for choice in choices {
        if choice.page == page {
            return Some(*choice);
        }
    }
    None
}

/// The first sectors of one page, then the rest of the other.
#[tactic(auto, unfolding(crate::specs::Crash::torn))]
pub fn torn(front: &Page, rest: &Page, sectors: usize) -> Page
    requires { sectors ≤ 8 }
    ensures { result.0 ≡ torn sectors front.now.0 rest.now.0 }
{
    let mut page = Page(rest.0);
    let front: &[u8] = &front.0;
    put_front(&mut page.0, front, 512 * sectors);
    page
}

fn put_front(bytes: &mut [u8], front: &[u8], count: usize)
    requires within { count ≤ length bytes.old }
    requires there { count ≤ length front.now }
    ensures { bytes.new ≡ take count front.now ++ drop count bytes.old }
{
    bytes[..count].copy_from_slice(&front[..count]);
}
