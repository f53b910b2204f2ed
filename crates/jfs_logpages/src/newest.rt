//! Where redo begins, by the newest SYNCPT.

ghost use Rattle.std.specs.Prelude.{◌≡◌, ◌<◌, ◌≤◌, ◌*◌, ◌/◌, ◌^◌, ◌⊎◌, ℕ, true, false, None, IfSome, Option};
ghost use Rattle.jfs_logpages.specs.Back.{SyncAt, Met, Gives, GivesSome, IsGiven, newest_or, point_of};
ghost use Rattle.jfs_logpages.specs.Outcome.{IsPlaceOf, IsPointOf};

use crate::place::Window;
use crate::point::Point;
use jfs_logfmt::Record;

impl Window {
    /// The place that a SYNCPT which ends at `end` gives: its own, or the one with its address.
    fn given(self, sync: u32, end: usize) -> Option<usize>
        requires ring { (0 < self.ring) × (self.ring < 2 ^ 16) }
        requires first { self.first < 2 ^ 40 }
        requires half { self.size ≤ 4080 * (self.ring / 2) }
        ensures { IsPlaceOf self.ring self.first self.size (record { end = end; address = sync }) result }
    {
        if sync == 0 {
            Some(end)
        } else {
            self.place(sync)
        }
    }

    /// The newest SYNCPT, once one more record was read; those that were read before are newer.
    pub fn newer(self, known: Option<Point>, record: &Record, end: usize) -> Option<Point>
        requires ring { (0 < self.ring) × (self.ring < 2 ^ 16) }
        requires first { self.first < 2 ^ 40 }
        requires half { self.size ≤ 4080 * (self.ring / 2) }
        ensures within { IfSome known (λ p. (0 < p.end) × (p.end ≤ self.size)) → (0 < end) → (end ≤ self.size) → IfSome result (λ p. (0 < p.end) × (p.end ≤ self.size)) }
        ensures newer { (newest : Option SyncAt) → (m : Met) → m.end ≡ end → m.is ≡ record.now → IsPointOf self.ring self.first self.size newest known
            → IsPointOf self.ring self.first self.size (newest_or newest (point_of m)) result }
    {
        match known {
            Some(point) => Some(point),
            None => match record {
                Record::SyncPt { sync } => Some(Point {
                    end,
                    place: self.given(*sync, end),
                }),
                Record::Redo { .. }
                | Record::NoRedo { .. }
                | Record::Update { .. }
                | Record::Commit { .. } => None,
            },
        }
    }

    /// Whether the newest SYNCPT gives this place.
    pub fn gives(self, point: Option<Point>, place: usize) -> bool
        requires ring { (0 < self.ring) × (self.ring < 2 ^ 16) }
        requires half { self.size ≤ 4080 * (self.ring / 2) }
        ensures yes { result ≡ true → (newest : Option SyncAt) → IsPointOf self.ring self.first self.size newest point → IsGiven self.ring self.first self.size newest place }
        ensures no { result ≡ false → (newest : Option SyncAt) → IsPointOf self.ring self.first self.size newest point → IsGiven self.ring self.first self.size newest place → ⊥ }
    {
        match point {
            Some(point) => match point.place {
                Some(given) => given == place,
                None => false,
            },
            None => false,
        }
    }
}

/// Whether the place that a SYNCPT gives is among the first bytes.
pub fn lies_within(point: Point, start: usize) -> bool
    ensures yes { result ≡ true → IfSome point.place (λ place. place ≤ start) }
    ensures some { result ≡ true → point.place ≡ None → ⊥ }
    ensures no { result ≡ false → IfSome point.place (λ place. start < place) }
{
    match point.place {
        Some(place) => place <= start,
        None => false,
    }
}
