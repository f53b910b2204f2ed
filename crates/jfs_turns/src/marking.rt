//! The marks that whoever has both turns makes.
ghost use Rattle.std.specs.Prelude.{◌≡◌, ◌≤◌, [], length};
ghost use Rattle.jfs_turns.specs.Lists.{IsPrefix};
ghost use Rattle.jfs_turns.specs.Views.{AreBoth, without, aside, rejoined, took_all, got_points};
ghost use Rattle.jfs_turns.specs.Standing.{ArePoints};
ghost use Rattle.jfs_turns.specs.Both.{AreOf, AreHeld, AreHalvesOf, AreSame, whole};

use crate::both::BothTurns;
use crate::facts::PointsFact;
use crate::plays::{MarkPoints, MarkStable, MarkTaken};
use crate::stands::{HasClient, Stands};
use crate::turns::Turns;
use crate::view::{Held, View};
use atomic_table::Seat;
use std::marker::Brand;

impl<V: Stands<E>, L: Stands<E>, E: HasClient> Turns<V, L, E> {
    fn mark_seats(&self, main: &mut Seat<Held<V, L>, View<E>>, half: &mut Seat<Held<V, L>, View<E>>)
        requires table { (main.old.table_id ≡ self.now.table.shared.table_id) × (half.old.table_id ≡ self.now.table.shared.table_id) }
        requires both { AreBoth half.old.me main.old.me }
        ensures table { (main.new.table_id ≡ main.old.table_id) × (half.new.table_id ≡ half.old.table_id) }
        ensures main { main.new.me ≡ (without (took_all (rejoined main.old.me.0 half.old.me.0)), main.old.me.1) }
        ensures half { half.new.me ≡ (aside (took_all (rejoined main.old.me.0 half.old.me.0)), []) }
    {
        self.rejoin(main, half);
        self.table.shared.load::<MarkTaken>(main, 0);
        self.part(main, half);
    }

    /// Says that all entries of the list are taken into groups. Both halves have the length of the list as the number of taken
    /// entries, and the log side's list is the whole list. Whoever took a group calls this before giving either turn, and before an
    /// `append`.
    pub fn mark_taken(&self, turn: &mut BothTurns<V, L, E>)
        requires table { AreOf self.now.table.shared.table_id turn.old }
        requires both { AreHeld turn.old }
        ensures table { AreOf self.now.table.shared.table_id turn.new }
        ensures both { AreHeld turn.new }
        ensures same { AreSame turn.old turn.new }
        ensures told { AreHalvesOf (took_all (whole turn.old)) turn.new }
    {
        let volume = &mut turn.volume;
        let log = &mut turn.log;
        self.mark_seats(&mut log.seat, &mut volume.seat);
    }

    fn point_seats<W: PointsFact>(
        &self,
        main: &mut Seat<Held<V, L>, View<E>>,
        half: &mut Seat<Held<V, L>, View<E>>,
        count: u64,
        stable: u64,
    )
        requires table { (main.old.table_id ≡ self.now.table.shared.table_id) × (half.old.table_id ≡ self.now.table.shared.table_id) }
        requires both { AreBoth half.old.me main.old.me }
        requires said { (ps : _) × W.fits ps × IsPrefix main.old.me.0.points ps × (length ps ≡ count) }
        requires bound { stable ≤ count }
        ensures table { (main.new.table_id ≡ main.old.table_id) × (half.new.table_id ≡ half.old.table_id) }
        ensures told { (ps : _) × W.fits ps × IsPrefix main.old.me.0.points ps × (length ps ≡ count) × (main.new.me ≡ (without (got_points ps stable (rejoined main.old.me.0 half.old.me.0)), main.old.me.1)) × (half.new.me ≡ (aside (got_points ps stable (rejoined main.old.me.0 half.old.me.0)), [])) }
    {
        self.rejoin(main, half);
        self.table.shared.fetch_max::<MarkPoints<W>>(main, 4, count);
        self.table.shared.fetch_max::<MarkStable>(main, 5, stable);
        self.part(main, half);
    }

    /// Brings words 4 and 5 to what the two values count, where the caller says of the syncpoints what it likes: `W.fits`.
    /// Otherwise as `mark_syncpoints`.
    pub fn mark_syncpoints_as<W: PointsFact>(&self, turn: &mut BothTurns<V, L, E>)
        requires table { AreOf self.now.table.shared.table_id turn.old }
        requires both { AreHeld turn.old }
        requires said { (ps : _) × W.fits ps × IsPrefix turn.old.log.seat.me.0.points ps × (length ps ≡ V.count turn.old.volume.value) }
        requires bound { L.count turn.old.log.value ≤ V.count turn.old.volume.value }
        ensures table { AreOf self.now.table.shared.table_id turn.new }
        ensures both { AreHeld turn.new }
        ensures same { AreSame turn.old turn.new }
        ensures told { (ps : _) × W.fits ps × IsPrefix turn.old.log.seat.me.0.points ps × (length ps ≡ V.count turn.old.volume.value) × AreHalvesOf (got_points ps (L.count turn.old.log.value) (whole turn.old)) turn.new }
    {
        let volume = &mut turn.volume;
        let log = &mut turn.log;
        let count = volume.value.syncpoints();
        let stable = log.value.syncpoints();
        self.point_seats::<W>(&mut log.seat, &mut volume.seat, count, stable);
    }

    /// Brings words 4 and 5 to the number of syncpoints that the volume has and the number of stable ones that the log side has.
    /// Both halves then have that list and that number. Whoever made a syncpoint calls this before giving either turn.
    pub fn mark_syncpoints(&self, turn: &mut BothTurns<V, L, E>)
        requires table { AreOf self.now.table.shared.table_id turn.old }
        requires both { AreHeld turn.old }
        requires points { (ps : _) × ArePoints V.stands L.stands V.count L.count turn.old.volume.value turn.old.log.value turn.old.volume.seat.me.0 turn.old.log.seat.me.0 ps }
        ensures table { AreOf self.now.table.shared.table_id turn.new }
        ensures both { AreHeld turn.new }
        ensures same { AreSame turn.old turn.new }
        ensures told { (ps : _) × ArePoints V.stands L.stands V.count L.count turn.old.volume.value turn.old.log.value turn.old.volume.seat.me.0 turn.old.log.seat.me.0 ps × AreHalvesOf (got_points ps (L.count turn.old.log.value) (whole turn.old)) turn.new }
    {
        self.mark_syncpoints_as::<Brand>(turn);
    }
}
