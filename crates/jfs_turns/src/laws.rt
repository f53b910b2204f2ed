//! What the rule of the table is for.

ghost use Rattle.jfs_turns.specs.Laws.{KnowledgeGrows, SeenIsPrefix, SeesItsOwn, AtMostOne, DurableIsTheLogSides, BothAgree};

use crate::stands::{HasClient, Stands};

/// A list that a seat has seen is a prefix of every list that it sees later, and its bounds on the counts never fall.
pub fn knowledge_grows<V: Stands<E>, L: Stands<E>, E: HasClient>()
    ensures { KnowledgeGrows V L E.client }
{}

/// A list that a seat has seen is a prefix of the volume's list, at every later moment too. So with syncpoints.
pub fn seen_is_a_prefix<V: Stands<E>, L: Stands<E>, E: HasClient>()
    ensures { SeenIsPrefix E.client V.stands L.stands }
{}

/// Each entry of a client is in its pass's list, in order, unless the pass has the volume turn.
pub fn sees_its_own_entries<V: Stands<E>, L: Stands<E>, E: HasClient>()
    ensures { SeesItsOwn E.client V.stands L.stands }
{}

/// Each turn has one holder at most, whose number the turn's word has.
pub fn at_most_one_holder<V: Stands<E>, L: Stands<E>, E: HasClient>()
    ensures { AtMostOne E.client V.stands L.stands }
{}

/// The durable count is the log side's own, and no bound that a seat knows is ever above it.
pub fn durable_count_is_the_log_sides<V: Stands<E>, L: Stands<E>, E: HasClient>()
    ensures { DurableIsTheLogSides E.client V.stands L.stands }
{}

/// Whoever holds both turns has one list, one number of taken entries and one list of syncpoints, which is the log side's too.
pub fn both_turns_agree<V: Stands<E>, L: Stands<E>, E: HasClient>()
    ensures { BothAgree E.client V.stands L.stands }
{}
