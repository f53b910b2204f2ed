//! What a call is that writes no data.

ghost use Rattle.jfs_files.specs.Laws.{NoDataLaw};

/// Where no block of a file is written, the volume after a call is the one after its transaction.
pub fn no_data_leaves_the_transaction_alone()
    ensures { NoDataLaw }
{}
