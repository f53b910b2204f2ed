//! Addresses of the log, and places in the ring's text.

ghost use Rattle.std.specs.Prelude.{◌≡◌, ◌<◌, ◌≤◌, ◌+◌, ◌-◌, ◌*◌, ◌/◌, ◌%◌, ◌^◌, ℕ, None, IfSome};
ghost use Rattle.jfs_logpages.specs.Back.{address_at, HasAddress};

/// Where a text stands in a ring: the number of ring pages, the number of the page with the text's
/// first byte, and how many bytes it has.
#[derive(Clone, Copy)]
pub struct Window {
    pub ring: u32,
    pub first: u64,
    pub size: usize,
}

/// The address just past so many bytes of the ring's text, counted from page number 0 on.
pub fn address(ring: u32, position: u64) -> u32
    requires ring { (0 < ring) × (ring < 2 ^ 16) }
    requires some { 0 < position }
    ensures { result ≡ address_at ring 0 position }
{
    let before = position - 1;
    let page = (before / 4080) % u64::from(ring);
    4096 * (2 + page as u32) + (9 + (before % 4080) as u32)
}

impl Window {
    /// The address just past so many bytes of the text.
    pub fn address(self, place: usize) -> u32
        requires place { (0 < place) × (place ≤ self.size) }
        requires ring { (0 < self.ring) × (self.ring < 2 ^ 16) }
        requires first { self.first < 2 ^ 40 }
        requires half { self.size ≤ 4080 * (self.ring / 2) }
        ensures value { result ≡ address_at self.ring self.first place }
        ensures some { 0 < result }
    {
        let before = place - 1;
        let page = (self.first + (before / 4080) as u64) % u64::from(self.ring);
        4096 * (2 + page as u32) + (9 + (before % 4080) as u32)
    }

    /// The place with this address, `None` exactly where there is none.
    pub fn place(self, address: u32) -> Option<usize>
        requires ring { (0 < self.ring) × (self.ring < 2 ^ 16) }
        requires first { self.first < 2 ^ 40 }
        requires half { self.size ≤ 4080 * (self.ring / 2) }
        ensures found { IfSome result (λ place. HasAddress self.ring self.first self.size address place) }
        ensures none { result ≡ None → (place : ℕ) → HasAddress self.ring self.first self.size address place → ⊥ }
    {
        let page = address / 4096;
        let offset = address % 4096;
        if page < 2 || page - 2 >= self.ring || offset < 9 || offset > 4088 {
            return None;
        }
        let behind = (u64::from(page - 2) + u64::from(self.ring)
            - self.first % u64::from(self.ring))
            % u64::from(self.ring);
        let place = 4080 * behind as usize + (offset - 8) as usize;
        if place <= self.size {
            Some(place)
        } else {
            None
        }
    }
}
