//! The log of a run.

ghost use Rattle.std.specs.Prelude.{All, ◌≡◌, ◌+◌, ◌<◌, ◌≤◌, [], ◌∷◌, ◌++◌, OnOk, Some, false, length, nat_le, slice_get, take, true};
ghost use Rattle.std.specs.List.Sorted.{IsNonDecreasingBy, IsPartitionPoint};
ghost use Rattle.tierra_model.specs.declared.limits.TheConstants.{COUNT_END};
ghost use Rattle.tierra_model.specs.Counting.{times_in};
ghost use Rattle.run_log.specs.declared.record.Record.TheVariants as record_of;
ghost use Rattle.run_log.specs.Records.{living_in, point_of, quantum_of, up_to};

use crate::record::Record;
use std::alloc::Global;
use std::marker::Model;
use tierra_model::OutOfMemory;

/// The counts of a population.
#[derive(Clone, Copy, Debug, Drop, PartialEq, Eq)]
pub struct Point {
    pub living: u64,
    pub births: u64,
    pub deaths: u64,
}

/// A record, and the counts after it.
#[derive(Clone, Copy, Drop)]
struct Entry {
    note: Record,
    point: Point,
}

/// The births and deaths of a run, in the order in which they happened.
#[derive(Drop)]
pub struct Log {
    inoculated: u64,
    entries: Vec<Entry>,
}

impl Model for Log {
    ghost use Rattle.std.specs.Prelude.{◌-◌, vec_capacity, vec_len};
    ghost use Rattle.run_log.specs.Records.{LogFields};
    ghost use Rattle.run_log.specs.Entries.{IsKept, records_of};

    ghost Value = { LogFields };

    ghost view = { λ l. record {
      inoculated = l.inoculated;
      records = records_of l.entries.items;
      spare = vec_capacity l.entries - vec_len l.entries;
    } };

    ghost invariant = { λ l. IsKept l.inoculated l.entries.items };
}

impl Log {
    /// A log with no records, in which the birth numbers 1 to `inoculated` live. It takes no memory.
    pub fn new(alloc: Global, inoculated: u64) -> Log
        requires { inoculated < COUNT_END }
        ensures inoculated { result.inoculated ≡ inoculated }
        ensures records { result.records ≡ [] }
    {
        Log {
            inoculated,
            entries: Vec::new(alloc),
        }
    }

    /// Makes room for `more` records, so that they can be noted without memory.
    pub fn reserve(&mut self, more: u64) -> Result<(), OutOfMemory>
        ensures inoculated { self.new.inoculated ≡ self.old.inoculated }
        ensures records { self.new.records ≡ self.old.records }
        ensures ok { OnOk result (more ≤ self.new.spare) }
        ensures room { self.old.spare ≤ self.new.spare }
    {
        self.entries.reserve(more as usize)
    }

    /// Notes that a creature was born.
    pub fn born(&mut self, quantum: u64, id: u64)
        requires room { 0 < self.old.spare }
        requires order { All (λ r. quantum_of r ≤ quantum) self.old.records }
        requires absent { times_in (living_in self.old.inoculated self.old.records) id ≡ 0 }
        ensures inoculated { self.new.inoculated ≡ self.old.inoculated }
        ensures records { self.new.records ≡ self.old.records ++ record_of.Birth quantum id ∷ [] }
        ensures room { self.old.spare ≡ self.new.spare + 1 }
    {
        let last = self.last();
        self.entries.push_reserved(Entry {
            note: Record::Birth { quantum, id },
            point: Point {
                living: last.living + 1,
                births: last.births + 1,
                deaths: last.deaths,
            },
        });
    }

    /// Notes that a creature died.
    pub fn died(&mut self, quantum: u64, id: u64)
        requires room { 0 < self.old.spare }
        requires order { All (λ r. quantum_of r ≤ quantum) self.old.records }
        requires present { 0 < times_in (living_in self.old.inoculated self.old.records) id }
        ensures inoculated { self.new.inoculated ≡ self.old.inoculated }
        ensures records { self.new.records ≡ self.old.records ++ record_of.Death quantum id ∷ [] }
        ensures room { self.old.spare ≡ self.new.spare + 1 }
    {
        let last = self.last();
        self.entries.push_reserved(Entry {
            note: Record::Death { quantum, id },
            point: Point {
                living: last.living - 1,
                births: last.births,
                deaths: last.deaths + 1,
            },
        });
    }

    /// The counts after all records of this quantum and of earlier ones.
    pub fn at(&self, quantum: u64) -> Point
        ensures { result ≡ point_of self.now.inoculated (up_to quantum self.now.records) }
    {
        self.point_before(entries_up_to(&self.entries, quantum))
    }

    /// How many records there are.
    pub fn len(&self) -> usize
        ensures { result ≡ length self.now.records }
    {
        self.entries.len()
    }

    /// The record at a place.
    pub fn get(&self, place: usize) -> Record
        requires { place < length self.now.records }
        ensures { slice_get self.now.records place ≡ Some result }
    {
        self.entries[place].note
    }

    // The counts after the last record.
    fn last(&self) -> Point
        ensures { result ≡ point_of self.now.inoculated self.now.records }
    {
        self.point_before(self.entries.len())
    }

    // The counts after the first `after` records.
    fn point_before(&self, after: usize) -> Point
        requires { after ≤ length self.now.records }
        ensures { result ≡ point_of self.now.inoculated (take after self.now.records) }
    {
        if after == 0 {
            return Point {
                living: self.inoculated,
                births: 0,
                deaths: 0,
            };
        }
        self.entries[after - 1].point
    }
}

// How many entries are of this quantum or an earlier one.
fn entries_up_to(entries: &[Entry], quantum: u64) -> usize
    requires { IsNonDecreasingBy (λ (e : Entry). quantum_of e.note) entries.now }
    ensures within { result ≤ length entries.now }
    ensures parted { IsPartitionPoint (λ (e : Entry). nat_le (quantum_of e.note) quantum
        ≡ true) (λ (e : Entry). nat_le (quantum_of e.note) quantum ≡ false) entries.now result }
{
    entries.partition_point(|entry| entry.note.quantum() <= quantum)
}
