//! The newest SYNCPT.

/// A SYNCPT: where it ends, and the place in the text that it gives, where there is one.
#[derive(Clone, Copy)]
pub struct Point {
    pub end: usize,
    pub place: Option<usize>,
}
