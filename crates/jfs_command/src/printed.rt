//! What is printed of clients' calls.

/// What is printed of the calls that clients did.
#[derive(Clone, Copy, PartialEq, Eq, Debug)]
pub enum Printed {
    /// A line for each entry, and how many there were.
    History,
    /// One line that sums up the history of generated scripts of so many clients.
    Summary { clients: u32 },
}
