//! How the quanta were committed.

ghost use Rattle.std.specs.Prelude.{◌≡◌, ◌+◌, ◌++◌, ◌<◌, ◌∷◌, [], IfOk, OnErr, OnOk, Some, length, slice_get};
ghost use Rattle.commit_book.specs.History.{IsThere, KeepsLines, how_by};

use std::alloc::Global;
use std::marker::Model;
use tierra_model::{Entry, How, OutOfMemory, Stale};

/// How the quanta were committed, in order. Each takes 32 bytes; the differences of stale findings are in a list of
/// their own.
#[derive(Debug, Drop)]
pub struct History {
    lines: Vec<Line>,
    differences: Vec<Stale>,
}

/// An entry without its number, which follows from its place.
#[derive(Clone, Copy, Debug, Drop)]
pub(crate) struct Line {
    creature: u64,
    by: u32,
    way: HowAt,
}

/// Like `How`, with the place of the difference instead of the difference.
#[derive(Clone, Copy, Debug, Drop)]
pub(crate) enum HowAt {
    Fresh,
    Missing,
    Stale(usize),
}

impl Model for History {
    ghost use Rattle.std.specs.Prelude.{List, length};
    ghost use Rattle.tierra_model.specs.declared.history.Entry.{Entry};
    ghost use Rattle.tierra_model.proofs.Each.{Each};
    ghost use Rattle.commit_book.specs.History.{IsThere, entries_of};

    ghost Value = { List Entry };

    ghost view = { λ h. entries_of h.differences.items 0 h.lines.items };

    ghost invariant = { λ h. Each (λ l. IsThere (length h.differences.items) l.way) h.lines.items };
}

impl History {
    /// A history with nothing committed.
    pub(crate) fn new(alloc: Global) -> History
        ensures { result ≡ [] }
    {
        History {
            lines: Vec::new(alloc),
            differences: Vec::new(alloc),
        }
    }

    /// How many quanta were committed.
    pub fn len(&self) -> usize
        ensures { result ≡ length self.now }
    {
        self.lines.len()
    }

    /// How a quantum was committed, by its place, which is 0 for the first.
    pub fn at(&self, place: usize) -> Entry
        requires { place < length self.now }
        ensures { slice_get self.now place ≡ Some result }
    {
        let line = self.lines[place];
        Entry {
            quantum: place as u64 + 1,
            creature: line.creature,
            by: line.by,
            how: how_by(line.way, &self.differences),
        }
    }

    /// Appends the entry of the next quantum.
    pub(crate) fn push(&mut self, creature: u64, by: u32, how: How) -> Result<(), OutOfMemory>
        ensures ok { OnOk result (self.new ≡ self.old
            ++ record { quantum = length self.old + 1; creature = creature; by = by; how = how } ∷ []) }
        ensures refused { OnErr result (self.new ≡ self.old) }
    {
        self.lines.reserve(1)?;
        let way = way_of(how, &mut self.differences)?;
        self.lines.push_reserved(Line { creature, by, way });
        Ok(())
    }
}

// Turns `How` into the `HowAt` of a line. A difference is appended to the list.
fn way_of(how: How, differences: &mut Vec<Stale>) -> Result<HowAt, OutOfMemory>
    ensures how { IfOk result (λ w. how_by differences.new.items w ≡ how) }
    ensures there { IfOk result (IsThere (length differences.new.items)) }
    ensures lines { KeepsLines differences.old.items differences.new.items }
    ensures refused { OnErr result (differences.new.items ≡ differences.old.items) }
{
    match how {
        How::Fresh => Ok(HowAt::Fresh),
        How::Missing => Ok(HowAt::Missing),
        How::Stale(difference) => {
            let place = differences.len();
            differences.push(difference)?;
            Ok(HowAt::Stale(place))
        }
    }
}

fn how_by(way: HowAt, differences: &Vec<Stale>) -> How
    requires { IsThere (length differences.now.items) way }
    ensures { result ≡ how_by differences.now.items way }
{
    match way {
        HowAt::Fresh => How::Fresh,
        HowAt::Missing => How::Missing,
        HowAt::Stale(place) => How::Stale(differences[place]),
    }
}
