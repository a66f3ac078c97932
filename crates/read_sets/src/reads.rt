//! The reads of a quantum.

ghost use Rattle.std.specs.Prelude.{◌≡◌, ◌++◌, ◌+◌, ◌<◌, ◌≤◌, ◌^◌, ◌∷◌, [], IfOk, IfSome, None, OnOk, Some, length, option_map, slice_get};
ghost use Rattle.std.specs.Arc.{arc_value};
ghost use Rattle.read_sets.specs.Reads.{nothing};

use std::alloc::Global;
use std::marker::Model;
use std::sync::Arc;
use tierra_model::{FreeList, OutOfMemory, Yard};

/// What a quantum read: cells in the order of reading, each with what it held, and the free list and the yard if they
/// were read. The two lists are shared with the job that showed them, and not copied. Callers note each cell only
/// once.
#[derive(Drop)]
pub struct Reads {
    cells: Vec<(u32, u8)>,
    free: Option<Arc<FreeList>>,
    yard: Option<Arc<Yard>>,
}

impl Model for Reads {
    ghost use Rattle.std.specs.Prelude.{◌-◌, ◌<◌, ◌^◌, IfSome, length, min, option_map, vec_len};
    ghost use Rattle.std.specs.Arc.{arc_value};
    ghost use Rattle.std.specs.Vec.{vec_capacity};
    ghost use Rattle.read_sets.specs.Reads.{ReadsFields};

    ghost Value = { ReadsFields };

    // Places are numbers of 32 bits, so room beyond them does not count.
    ghost view = { λ r. record {
      reads = record {
        cells = r.cells.items;
        free = option_map (λ a. arc_value a) r.free;
        yard = option_map (λ a. arc_value a) r.yard;
      };
      spare = min (vec_capacity r.cells) (2 ^ 32 - 1) - vec_len r.cells;
    } };

    ghost invariant = { λ r. (vec_len r.cells < 2 ^ 32)
        × IfSome r.free (λ a. length (arc_value a) < 2 ^ 32)
        × IfSome r.yard (λ a. length (arc_value a) < 2 ^ 32) };
}

impl Reads {
    /// No reads yet. It takes no memory, and has no room.
    pub fn empty(alloc: Global) -> Reads
        ensures reads { result.reads ≡ nothing }
    {
        Reads {
            cells: Vec::new(alloc),
            free: None,
            yard: None,
        }
    }

    /// No reads yet, with room for `size` cells, which is all that reads of a soup of that size need.
    pub fn new(alloc: Global, size: u32) -> Result<Reads, OutOfMemory>
        ensures reads { IfOk result (λ r. r.reads ≡ nothing) }
        ensures room { IfOk result (λ r. size ≤ r.spare) }
    {
        Ok(Reads {
            cells: Vec::with_capacity(alloc, size as usize)?,
            free: None,
            yard: None,
        })
    }

    /// Notes that a cell was read, and held the value. It takes no memory.
    pub fn note(&mut self, at: u32, value: u8)
        requires { 0 < self.old.spare }
        ensures cells { self.new.reads.cells ≡ self.old.reads.cells ++ (at, value) ∷ [] }
        ensures free { self.new.reads.free ≡ self.old.reads.free }
        ensures yard { self.new.reads.yard ≡ self.old.reads.yard }
        ensures room { self.new.spare + 1 ≡ self.old.spare }
    {
        self.cells.push_reserved((at, value));
    }

    /// Notes that the free list was read. It takes no memory.
    pub fn note_free(&mut self, free: Arc<FreeList>)
        requires { length (arc_value free) < 2 ^ 32 }
        ensures cells { self.new.reads.cells ≡ self.old.reads.cells }
        ensures free { self.new.reads.free ≡ Some (arc_value free) }
        ensures yard { self.new.reads.yard ≡ self.old.reads.yard }
        ensures room { self.new.spare ≡ self.old.spare }
    {
        self.free = Some(free);
    }

    /// Notes that the yard was read. It takes no memory.
    pub fn note_yard(&mut self, yard: Arc<Yard>)
        requires { length (arc_value yard) < 2 ^ 32 }
        ensures cells { self.new.reads.cells ≡ self.old.reads.cells }
        ensures free { self.new.reads.free ≡ self.old.reads.free }
        ensures yard { self.new.reads.yard ≡ Some (arc_value yard) }
        ensures room { self.new.spare ≡ self.old.spare }
    {
        self.yard = Some(yard);
    }

    /// Makes room for this many more cells. What was read stays.
    pub fn reserve(&mut self, more: u32) -> Result<(), OutOfMemory>
        requires { length self.old.reads.cells + more < 2 ^ 32 }
        ensures reads { self.new.reads ≡ self.old.reads }
        ensures ok { OnOk result (more ≤ self.new.spare) }
        ensures room { self.old.spare ≤ self.new.spare }
    {
        self.cells.reserve(more as usize)
    }

    /// Forgets all that was read. The room stays.
    pub fn clear(&mut self)
        ensures reads { self.new.reads ≡ nothing }
        ensures room { self.new.spare ≡ self.old.spare + length self.old.reads.cells }
    {
        self.cells.clear();
        self.free = None;
        self.yard = None;
    }

    /// How many cells were read.
    pub fn len(&self) -> u32
        ensures { result ≡ length self.now.reads.cells }
    {
        self.cells.len() as u32
    }

    /// A cell that was read, by its place in the order of reading, and what it held.
    pub fn at(&self, place: u32) -> (u32, u8)
        requires { place < length self.now.reads.cells }
        ensures { slice_get self.now.reads.cells place ≡ Some result }
    {
        self.cells[place as usize]
    }

    /// The cells, in the order of reading.
    pub fn cells(&self) -> &[(u32, u8)]
        ensures { result.now ≡ self.now.reads.cells }
    {
        &self.cells
    }

    /// The free list, if it was read.
    pub fn free(&self) -> Option<&FreeList>
        ensures same { option_map (λ r. r.now) result ≡ self.now.reads.free }
        ensures few { IfSome result (λ r. length r.now < 2 ^ 32) }
    {
        match &self.free {
            Some(free) => Some(&**free),
            None => None,
        }
    }

    /// The yard, if it was read.
    pub fn yard(&self) -> Option<&Yard>
        ensures same { option_map (λ r. r.now) result ≡ self.now.reads.yard }
        ensures few { IfSome result (λ r. length r.now < 2 ^ 32) }
    {
        match &self.yard {
            Some(yard) => Some(&**yard),
            None => None,
        }
    }

    /// A copy of the reads. The lists are shared.
    pub fn copy(&self) -> Result<Reads, OutOfMemory>
        ensures { IfOk result (λ r. r.reads ≡ self.now.reads) }
    {
        let free = match &self.free {
            Some(free) => Some(Arc::try_clone(free)?),
            None => None,
        };
        let yard = match &self.yard {
            Some(yard) => Some(Arc::try_clone(yard)?),
            None => None,
        };
        Ok(Reads {
            cells: self.cells.clone()?,
            free,
            yard,
        })
    }
}
