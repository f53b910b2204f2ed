//! The calls of the log turn.
ghost use Rattle.std.specs.Prelude.{◌≡◌, ◌≤◌, length, IfSome, IfNone, true, false};
ghost use Rattle.jfs_turns.specs.Views.{HasLogTurn, IsLoneLog, carried};
ghost use Rattle.jfs_turns.specs.Standing.{LogStands};
ghost use Rattle.jfs_turns.specs.Told.{LearnedLog, raised, gave_log};
ghost use Rattle.jfs_turns.specs.declared.view.Held.TheVariants.{Volume, Log, Nothing};

use crate::plays::{GiveLog, Raise, TakeLog};
use crate::stands::{HasClient, Stands};
use crate::turns::{Pass, Turns};
use crate::view::{Held, View};
use atomic_table::Seat;
use std::sync::Wait;
use std::thread;

/// The log turn: the log side, and the right to raise the durable count. It has a pass, or is lent out of `BothTurns`.
pub struct LogTurn<V, L, E> {
    /// The log side.
    pub value: L,
    pub(crate) client: u32,
    pub(crate) calls_left: u32,
    pub(crate) seat: Seat<Held<V, L>, View<E>>,
    pub ghost has: { HasLogTurn seat.me.0 × (seat.me.0.number ≡ client) },
}

impl<V: Stands<E>, L: Stands<E>, E: HasClient> Turns<V, L, E> {
    fn try_log(&self, seat: &mut Seat<Held<V, L>, View<E>>, number: u64) -> Option<L>
        requires { (seat.old.table_id ≡ self.now.table.shared.table_id) × (seat.old.me.0.live ≡ true) × (seat.old.me.0.main ≡ true) × (seat.old.me.0.keeper ≡ false) × (number ≡ seat.old.me.0.number) }
        ensures table { (seat.new.table_id ≡ seat.old.table_id) × (seat.new.id ≡ seat.old.id) }
        ensures none { IfNone result (seat.new.me ≡ seat.old.me) }
        ensures some { IfSome result (λ x. (seat.new.me.1 ≡ carried 1 Nothing seat.old.me.1) × LogStands L.stands x seat.new.me.0 × LearnedLog seat.old.me seat.new.me) }
    {
        let shared = &self.table.shared;
        if shared.compare_exchange::<TakeLog>(seat, 1, 0, number) != 0 {
            return None;
        }
        match shared.exchange(seat, 1, Held::Nothing) {
            Held::Log(x) => Some(x),
            _ => unreachable!(),
        }
    }

    /// Waits for the log turn. The log side stands for what the turn's seat then has, with words 3 and 5 as its counts.
    pub fn take_log<R: Wait>(&self, rt: &R, pass: Pass<V, L, E>) -> LogTurn<V, L, E>
        requires { pass.seat.table_id ≡ self.now.table.shared.table_id }
        ensures turn { (result.seat.table_id ≡ pass.seat.table_id) × (result.client ≡ pass.client) × (result.calls_left ≡ pass.calls_left) × IsLoneLog result.seat.me }
        ensures stands { LogStands L.stands result.value result.seat.me.0 }
        ensures learned { LearnedLog pass.seat.me result.seat.me }
    {
        let Pass {
            client,
            calls_left,
            mut seat,
        } = pass;
        for _ in rt.forever() {
            if let Some(value) = self.try_log(&mut seat, client as u64) {
                return LogTurn {
                    value,
                    client,
                    calls_left,
                    seat,
                };
            }
            thread::yield_now();
        }
        unreachable!()
    }

    /// Raises the durable count to `n`, unless it is there already. `n` is at most the length of the log side's list, and at most
    /// the number of taken entries: whoever took a group marks it first.
    pub fn raise(&self, turn: &mut LogTurn<V, L, E>, n: u64)
        requires table { turn.old.seat.table_id ≡ self.now.table.shared.table_id }
        requires within { (n ≤ length turn.old.seat.me.0.log_list) × (n ≤ turn.old.seat.me.0.taken) }
        ensures same { (turn.new.seat.table_id ≡ turn.old.seat.table_id) × (turn.new.value ≡ turn.old.value) × (turn.new.client ≡ turn.old.client) × (turn.new.calls_left ≡ turn.old.calls_left) }
        ensures told { raised n turn.old.seat.me turn.new.seat.me }
    {
        self.table.shared.fetch_max::<Raise>(&mut turn.seat, 3, n);
    }

    /// Gives the log turn. The log side stands for what its seat has, with just the seat's counts durable and stable.
    pub fn give_log(&self, turn: LogTurn<V, L, E>) -> Pass<V, L, E>
        requires table { turn.seat.table_id ≡ self.now.table.shared.table_id }
        requires lone { IsLoneLog turn.seat.me }
        requires stands { LogStands L.stands turn.value turn.seat.me.0 }
        ensures pass { (result.seat.table_id ≡ turn.seat.table_id) × (result.client ≡ turn.client) × (result.calls_left ≡ turn.calls_left) }
        ensures told { gave_log turn.seat.me result.seat.me }
    {
        let LogTurn {
            value,
            client,
            calls_left,
            mut seat,
        } = turn;
        let shared = &self.table.shared;
        match shared.exchange(&mut seat, 1, Held::Log(value)) {
            Held::Nothing => {}
            _ => unreachable!(),
        }
        shared.store::<GiveLog>(&mut seat, 1, 0);
        Pass {
            client,
            calls_left,
            seat,
        }
    }
}
