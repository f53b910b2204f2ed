//! Which record may stand behind which.

ghost use Rattle.std.specs.Prelude.{◌≡◌};
ghost use Rattle.jfs_logpages.specs.Back.{is_point, tid_of, back_of, goes_on as is_next, may_follow as may_stand, is_followed as is_well_followed};

use jfs_logfmt::Record;

/// Whether a record is a SYNCPT.
fn is_syncpt(record: &Record) -> bool
    ensures { result ≡ is_point record.now }
{
    match record {
        Record::SyncPt { .. } => true,
        Record::Redo { .. }
        | Record::NoRedo { .. }
        | Record::Update { .. }
        | Record::Commit { .. } => { false }
    }
}

/// The number of a record's transaction; a SYNCPT has none.
fn transaction(record: &Record) -> u32
    ensures { result ≡ tid_of record.now }
{
    match record {
        Record::Redo { tid, .. }
        | Record::NoRedo { tid, .. }
        | Record::Update { tid, .. }
        | Record::Commit { tid, .. } => *tid,
        Record::SyncPt { .. } => 0,
    }
}

/// The address of the transaction's record before this one, or 0.
pub fn backchain(record: &Record) -> u32
    ensures { result ≡ back_of record.now }
{
    match record {
        Record::Redo { back, .. }
        | Record::NoRedo { back, .. }
        | Record::Update { back, .. }
        | Record::Commit { back, .. } => *back,
        Record::SyncPt { .. } => 0,
    }
}

/// Whether a record goes on with transaction `tid`, whose record before it has this address.
fn goes_on(at: u32, tid: u32, next: &Record) -> bool
    ensures { result ≡ is_next at tid next.now }
{
    !is_syncpt(next) && (transaction(next) == tid && backchain(next) == at)
}

/// Whether `next` may stand behind a record at this address.
fn may_follow(at: u32, record: &Record, next: &Record) -> bool
    ensures { result ≡ may_stand at record.now next.now }
{
    match record {
        Record::Commit { .. } | Record::SyncPt { .. } => backchain(next) == 0,
        Record::Redo { tid, .. } | Record::NoRedo { tid, .. } | Record::Update { tid, .. } => {
            goes_on(at, *tid, next)
        }
    }
}

/// Whether what stands behind a record at this address may; nothing may stand there too.
pub fn is_followed(at: u32, record: &Record, next: &Option<Record>) -> bool
    ensures { result ≡ is_well_followed at record.now next.now }
{
    match next {
        Some(next) => may_follow(at, record, next),
        None => true,
    }
}
