//! Intervals of a list of entries.

/// An interval of a list of entries: those from `start` up to `end`, without `end`.
#[derive(Clone, Copy, PartialEq, Eq, Debug)]
pub struct Span {
    pub start: u64,
    pub end: u64,
}

/// One subtree, or two side by side, that hold an interval of entries.
#[derive(Clone, Copy, PartialEq, Eq, Debug)]
pub struct Cover {
    pub first: Span,
    pub second: Option<Span>,
}
