//! What was seen, look after look.

ghost use Rattle.std.specs.Prelude.{◌≡◌, ◌++◌, ◌∷◌, [], ◌+◌, ◌<◌, ◌≤◌, IfSome, OnOk, Some};
ghost use Rattle.soup_watch.specs.Seeing.{NeverFalls, last_of};

use crate::sight::Sight;
use std::alloc::Global;
use std::marker::Model;
use tierra_model::OutOfMemory;

/// Sights, one after another. The type ensures that their quanta never fall.
#[derive(Debug, Drop)]
pub struct Sights {
    pub(crate) items: Vec<Sight>,
}

impl Model for Sights {
    ghost use Rattle.std.specs.Prelude.{◌-◌, vec_capacity, vec_len};
    ghost use Rattle.soup_watch.specs.Seeing.{NeverFalls, SightsFields};

    ghost Value = { SightsFields };

    ghost view = { λ s. record { sights = s.items.items; spare = vec_capacity s.items - vec_len s.items } };

    ghost invariant = { λ s. NeverFalls s.items.items };
}

impl Sights {
    /// None yet. It takes no memory.
    pub fn new(alloc: Global) -> Sights
        ensures { result.sights ≡ [] }
    {
        Sights {
            items: Vec::new(alloc),
        }
    }

    /// Makes room for `more` sights, so that they can be added without memory.
    pub fn reserve(&mut self, more: u64) -> Result<(), OutOfMemory>
        ensures same { self.new.sights ≡ self.old.sights }
        ensures ok { OnOk result (more ≤ self.new.spare) }
        ensures room { self.old.spare ≤ self.new.spare }
    {
        self.items.reserve(more as usize)
    }

    /// Adds a sight that is of no earlier quantum than the last one.
    pub fn add(&mut self, sight: Sight)
        requires room { 0 < self.old.spare }
        requires order { IfSome (last_of self.old.sights) (λ last. last.quanta ≤ sight.quanta) }
        ensures sights { self.new.sights ≡ self.old.sights ++ sight ∷ [] }
        ensures last { last_of self.new.sights ≡ Some sight }
        ensures order { NeverFalls self.new.sights }
        ensures room { self.old.spare ≡ self.new.spare + 1 }
    {
        self.items.push_reserved(sight);
    }
}
