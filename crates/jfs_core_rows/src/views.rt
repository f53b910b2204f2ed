ghost use Rattle.std.specs.Prelude.{◌≡◌, ◌<◌, ℕ, List, [], ◌∷◌, IfOk, get_or, length};
ghost use Rattle.jfs_disk.specs.Image.{page_of};
ghost use Rattle.jfs_ranges.specs.View.{IsLent, no_device};
ghost use Rattle.jfs_core_rows.specs.Views.{two_whole};
ghost use Rattle.jfs_disk.specs.declared.disk.Part.TheVariants.{Low};

use jfs_disk::{Fault, Page, Part};
use jfs_ranges::{PageView, ViewError};
use std::test::*;

/// The first bytes of pages 0 and 1, read one after the other.
fn first_bytes<V: PageView>(view: &mut V) -> Result<(u8, u8), ViewError>
    requires { 1 < V.block_count view.old }
    ensures first { IfOk result (λ bytes. V.tells → bytes.0 ≡ get_or (page_of (V.image view.old) 0) 0 0) }
    ensures second { IfOk result (λ bytes. V.tells → bytes.1 ≡ get_or (page_of (V.image view.old) 1) 0 0) }
    ensures lent { IsLent V.tells (V.block_count view.old) (V.block_count view.new) (V.image view.old) (V.image view.new)
        (V.device view.old) (V.device view.new) (V.faults view.old) (V.faults view.new) result }
{
    let first = match view.page(0) {
        Ok(page) => page.0[0],
        Err(e) => return Err(e),
    };
    let second = match view.page(1) {
        Ok(page) => page.0[0],
        Err(e) => return Err(e),
    };
    Ok((first, second))
}

/// Two pages in memory, of which one can't be read.
#[derive(Drop)]
struct Shelf {
    low: Page,
    high: Page,
    bad: u32,
    faults: u64,
    ghost low_size: { length low.0 ≡ 4096 },
    ghost high_size: { length high.0 ≡ 4096 },
}

impl Shelf {
    fn new(bad: u32) -> Shelf {
        let mut low = Page::zeros();
        low.0[0] = 3;
        let mut high = Page::zeros();
        high.0[0] = 5;
        Shelf {
            low,
            high,
            bad,
            faults: 0,
        }
    }
}

impl PageView for Shelf {
    ghost block_count = { λ shelf. 2 };

    ghost faults = { λ shelf. record { part = Low; count = shelf.faults } };

    ghost image = { λ shelf. shelf.low.0 ∷ shelf.high.0 ∷ [] };

    ghost tells = { Unit {0} };

    ghost crashes = { Unit {0} };

    ghost device = { λ shelf. no_device };

    ghost has_pages = { λ shelf told. two_whole shelf.low.0 shelf.high.0 shelf.low_size shelf.high_size };

    fn blocks(&self) -> u32 {
        2
    }

    fn page(&mut self, n: u32) -> Result<&Page, ViewError> {
        if n == self.bad {
            self.faults = self.faults.saturating_add(1);
            return Err(ViewError::Read(Fault {
                part: Part::Low,
                count: self.faults,
            }));
        }
        if n == 0 {
            Ok(&self.low)
        } else {
            Ok(&self.high)
        }
    }
}

#[test]
fn reads_one_page_after_another(rt: HostRuntime) {
    let mut shelf = Shelf::new(2);
    assert_eq!(rt; shelf.blocks(), 2);
    assert_eq!(rt; first_bytes(&mut shelf), Ok((3, 5)));
    assert_eq!(rt; first_bytes(&mut shelf), Ok((3, 5)));
}

#[test]
fn hands_the_count_on(rt: HostRuntime) {
    let mut shelf = Shelf::new(1);
    for count in 1..3 {
        let fault = Fault {
            part: Part::Low,
            count,
        };
        assert_eq!(rt; first_bytes(&mut shelf), Err(ViewError::Read(fault)));
    }
}
