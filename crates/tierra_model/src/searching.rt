//! The search for a template's complement.

/// The sides on which a search tries candidates.
#[derive(Clone, Copy, Drop, PartialEq, Eq, Debug)]
pub enum Way {
    Outward,
    Forward,
    Backward,
}

/// What a search finds: the cell after the match, a template that is too short, or no match.
#[derive(Clone, Copy, Drop, PartialEq, Eq, Debug)]
pub enum Found {
    At(u32),
    Short,
    NoMatch,
}
