//! Reading the ring.

ghost use Rattle.std.specs.Prelude.{◌≡◌, ◌<◌, ◌≤◌, ◌+◌, ◌-◌, ◌^◌, ℕ, suc, true, false, length, slice_index, None, IfSome};
ghost use Rattle.jfs_logpages.specs.Marks.{StandsIn, IsRunIn};

/// Whether page `number` stands at its place.
fn stands(marks: &[u64], number: u64) -> bool
    requires some { 0 < length marks.now }
    requires small { number < 2 ^ 40 }
    ensures yes { result ≡ true → StandsIn marks.now number }
    ensures no { result ≡ false → StandsIn marks.now number → ⊥ }
{
    marks[(number % marks.len() as u64) as usize] == number + 1
}

/// Whether half a ring of pages up to `number` stand.
fn is_run(marks: &[u64], half: u64, number: u64) -> bool
    requires some { 0 < length marks.now }
    requires small { number < 2 ^ 40 }
    requires half { half < 2 ^ 40 }
    ensures yes { result ≡ true → IsRunIn marks.now half number }
    ensures no { result ≡ false → IsRunIn marks.now half number → ⊥ }
{
    if number + 1 < half {
        return false;
    }
    for j in 0..half {
        if !stands(marks, number - j) {
            return false;
        }
    }
    true
}

/// Whether the page that is marked so ends half a ring, and is past the best one so far.
fn is_greater(marks: &[u64], half: u64, mark: u64, found: bool, best: u64) -> bool
    requires some { 0 < length marks.now }
    requires half { half < 2 ^ 40 }
    requires small { mark < 2 ^ 40 }
    ensures yes { result ≡ true → (0 < mark) × IsRunIn marks.now half (mark - 1) × (found ≡ true → best ≤ mark - 1) }
    ensures no { result ≡ false → (q : ℕ) → mark ≡ suc q → IsRunIn marks.now half q → (StandsIn marks.now (suc q) → ⊥) → (found ≡ true) × (q ≤ best) }
{
    if mark == 0 {
        return false;
    }
    // only a page whose next one doesn't stand can be the last: so each run is gone through once
    if stands(marks, mark) {
        return false;
    }
    if found && mark - 1 <= best {
        return false;
    }
    is_run(marks, half, mark - 1)
}

/// The greatest number that ends half a ring.
pub fn last_run(marks: &[u64], half: u64) -> Option<u64>
    requires some { 0 < length marks.now }
    requires half { 0 < half }
    requires half_small { half < 2 ^ 40 }
    requires small { (p : ℕ) → slice_index marks.now p < 2 ^ 33 }
    ensures found { IfSome result (λ q. IsRunIn marks.now half q × ((r : ℕ) → IsRunIn marks.now half r → r ≤ q)) }
    ensures none { result ≡ None → (q : ℕ) → IsRunIn marks.now half q → ⊥ }
{
    let mut found = false;
    let mut best = 0;
    for p in 0..marks.len() {
        let mark = marks[p];
        if is_greater(marks, half, mark, found, best) {
            found = true;
            best = mark - 1;
        }
    }
    if found { Some(best) } else { None }
}
