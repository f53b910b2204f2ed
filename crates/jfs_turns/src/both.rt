//! Both turns at once. The pass's own seat goes with the log half, and a seat that may append with the volume half.
ghost use Rattle.std.specs.Prelude.{◌≡◌, [], true, false};
ghost use Rattle.jfs_turns.specs.Views.{IsLoneLog, AreBoth, rejoined, without, aside, carried};
ghost use Rattle.jfs_turns.specs.Both.{AreOf, AreHeld, AreHalvesOf, whole};
ghost use Rattle.jfs_turns.specs.Standing.{VolumeStands};
ghost use Rattle.jfs_turns.specs.Told.{Learned};
ghost use Rattle.jfs_turns.specs.declared.view.Held.TheVariants.{Volume, Log, Nothing};

use crate::log_turn::LogTurn;
use crate::plays::{Aside, Rejoin, Spent};
use crate::stands::{HasClient, Stands};
use crate::turns::{Turns, VolumeTurn};
use crate::view::{Held, View};
use atomic_table::Seat;
use std::sync::Wait;
use std::{mem, thread};

/// Both turns of one pass. The volume half is lent out for `append` and `settled`, the log half for `raise`.
pub struct BothTurns<V, L, E> {
    pub volume: VolumeTurn<V, L, E>,
    pub log: LogTurn<V, L, E>,
}

impl<V: Stands<E>, L: Stands<E>, E: HasClient> Turns<V, L, E> {
    /// Waits for the volume turn too. The volume stands for what the volume half's seat has. The log half's seat knows the same
    /// syncpoints and the same number of taken entries.
    pub fn add_volume<R: Wait>(&self, rt: &R, turn: LogTurn<V, L, E>) -> BothTurns<V, L, E>
        requires table { turn.seat.table_id ≡ self.now.table.shared.table_id }
        requires lone { IsLoneLog turn.seat.me }
        ensures table { AreOf turn.seat.table_id result }
        ensures same { (result.log.value ≡ turn.value) × (result.volume.client ≡ turn.client) × (result.log.client ≡ turn.client) × (result.volume.calls_left ≡ turn.calls_left) }
        ensures both { AreHeld result }
        ensures stands { VolumeStands V.stands result.volume.value (whole result) }
        ensures halves { AreHalvesOf (whole result) result }
        ensures learned { Learned E.client turn.seat.me (whole result, result.log.seat.me.1) }
        ensures log { (result.log.seat.me.0.log_list ≡ turn.seat.me.0.log_list) × (result.log.seat.me.0.log_points ≡ turn.seat.me.0.log_points) × (result.log.seat.me.0.base ≡ turn.seat.me.0.base) }
    {
        let LogTurn {
            value: log,
            client,
            calls_left,
            mut seat,
        } = turn;
        for _ in rt.forever() {
            if let Some(value) = self.try_volume(&mut seat, client as u64) {
                let half = self.table.shared.split_seat::<Aside>(&mut seat);
                let volume = VolumeTurn {
                    value,
                    client,
                    calls_left,
                    seat: half,
                };
                let log = LogTurn {
                    value: log,
                    client,
                    calls_left,
                    seat,
                };
                return BothTurns { volume, log };
            }
            thread::yield_now();
        }
        unreachable!()
    }

    /// Gives the volume turn, and keeps the log turn. The volume stands for what its seat has. It has acknowledged no more than
    /// `settled` gave, or than the log side's own count.
    pub fn drop_volume(&self, turn: BothTurns<V, L, E>) -> LogTurn<V, L, E>
        requires table { AreOf self.now.table.shared.table_id turn }
        requires both { AreHeld turn }
        requires stands { VolumeStands V.stands turn.volume.value (whole turn) }
        ensures turn { (result.seat.table_id ≡ turn.log.seat.table_id) × (result.value ≡ turn.log.value) × (result.client ≡ turn.log.client) × (result.calls_left ≡ turn.volume.calls_left) × IsLoneLog result.seat.me }
        ensures told { result.seat.me.0 ≡ record (whole turn) { volume = false; appends = false } }
    {
        let BothTurns { volume, log } = turn;
        let VolumeTurn {
            value,
            client: _,
            calls_left,
            seat: half,
        } = volume;
        let LogTurn {
            value: log,
            client,
            calls_left: _,
            mut seat,
        } = log;
        self.table.shared.join_seat::<Rejoin>(&mut seat, half);
        self.put_volume(&mut seat, value);
        LogTurn {
            value: log,
            client,
            calls_left,
            seat,
        }
    }

    // The right to append comes back to the pass's seat, and a spent seat lies in its place.
    pub(crate) fn rejoin(
        &self,
        main: &mut Seat<Held<V, L>, View<E>>,
        half: &mut Seat<Held<V, L>, View<E>>,
    )
        requires table { (main.old.table_id ≡ self.now.table.shared.table_id) × (half.old.table_id ≡ self.now.table.shared.table_id) }
        requires both { AreBoth half.old.me main.old.me }
        ensures { (main.new.table_id ≡ main.old.table_id) × (main.new.me ≡ (rejoined main.old.me.0 half.old.me.0, main.old.me.1)) }
    {
        let shared = &self.table.shared;
        let spent = shared.split_seat::<Spent>(main);
        let seat = mem::replace(half, spent);
        shared.join_seat::<Rejoin>(main, seat);
    }

    // The right to append goes to a seat of its own again.
    pub(crate) fn part(
        &self,
        main: &mut Seat<Held<V, L>, View<E>>,
        half: &mut Seat<Held<V, L>, View<E>>,
    )
        requires { (main.old.table_id ≡ self.now.table.shared.table_id) × (main.old.me.0.live ≡ true) × (main.old.me.0.keeper ≡ false) × (main.old.me.0.appends ≡ true) }
        ensures { (main.new.table_id ≡ main.old.table_id) × (main.new.me ≡ (without main.old.me.0, main.old.me.1)) × (half.new.table_id ≡ main.old.table_id) × (half.new.me ≡ (aside main.old.me.0, [])) }
    {
        *half = self.table.shared.split_seat::<Aside>(main);
    }
}
