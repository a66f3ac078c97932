//! The slicer queue.

ghost use Rattle.std.specs.Prelude.{◌≡◌, ◌==◌, ◌+◌, ◌<◌, ◌≤◌, [], ◌∷◌, ◌++◌, length, filter, not, position, slice_get, OnOk, OnErr};
ghost use Rattle.tierra_model.specs.Counting.{times_in};
ghost use Rattle.tierra_model.specs.Queue.{rotation};
ghost use Rattle.tierra_model.specs.World.{first_of};

use std::alloc::Global;
use std::collections::VecDeque;
use std::marker::Model;
use tierra_model::OutOfMemory;

/// The circular queue of the living. The creature at the front runs the next quantum, then it goes to the back.
#[derive(Drop)]
pub struct Slicer {
    ids: VecDeque<u64>,
}

impl Model for Slicer {
    ghost use Rattle.std.specs.Prelude.{◌-◌, ◌≤◌, ℕ};
    ghost use Rattle.std.specs.VecDeque.{deque_len, deque_capacity};
    ghost use Rattle.tierra_model.specs.Counting.{times_in};
    ghost use Rattle.slicer_queue.specs.Slicer.{SlicerFields};

    ghost Value = { SlicerFields };

    ghost view = { λ s. record { ids = s.ids.items; spare = deque_capacity s.ids - deque_len s.ids } };

    // Nobody stands in it twice.
    ghost invariant = { λ s. (id : ℕ) → times_in s.ids.items id ≤ 1 };
}

impl Slicer {
    /// An empty queue. It takes no memory.
    pub fn new(alloc: Global) -> Slicer
        ensures { result.ids ≡ [] }
    {
        Slicer {
            ids: VecDeque::new(alloc),
        }
    }

    /// Makes room for `more` creatures, so that they can enter without memory.
    pub fn reserve(&mut self, more: u32) -> Result<(), OutOfMemory>
        ensures ids { self.new.ids ≡ self.old.ids }
        ensures ok { OnOk result (more ≤ self.new.spare) }
        ensures err { OnErr result (self.old.spare < more) }
        ensures room { self.old.spare ≤ self.new.spare }
    {
        self.ids.reserve(more as usize)
    }

    /// Puts a creature at the back.
    #[tactic(auto, using(crate::proofs::Once::once_push))]
    pub fn enter(&mut self, id: u64)
        requires absent { times_in self.old.ids id ≡ 0 }
        requires room { 0 < self.old.spare }
        ensures ids { self.new.ids ≡ self.old.ids ++ id ∷ [] }
        ensures room { self.old.spare ≡ self.new.spare + 1 }
    {
        self.ids.push_back_reserved(id);
    }

    /// Whose quantum is next.
    pub fn front(&self) -> u64
        requires { 0 < length self.now.ids }
        ensures { result ≡ first_of self.now.ids }
    {
        self.ids[0]
    }

    /// Who runs after `k` more quanta, if nobody enters or leaves; the front has place 0.
    pub fn place(&self, k: u32) -> Option<u64>
        ensures { result ≡ slice_get self.now.ids k }
    {
        self.ids.get(k as usize).copied()
    }

    /// Sends the creature at the front to the back.
    pub fn rotate(&mut self)
        requires { 0 < length self.old.ids }
        ensures ids { self.new.ids ≡ rotation self.old.ids }
        ensures room { self.new.spare ≡ self.old.spare }
    {
        self.ids.rotate_left(1);
    }

    /// Takes a creature out; its room is then free again.
    pub fn remove(&mut self, id: u64)
        requires { 0 < times_in self.old.ids id }
        ensures ids { self.new.ids ≡ filter (λ x. not (x == id)) self.old.ids }
        ensures room { self.new.spare ≡ self.old.spare + 1 }
    {
        match place_of(&self.ids, id) {
            Some(place) => {
                self.ids.remove(place);
            }
            None => unreachable!(),
        }
    }
}

// Where the creature stands.
fn place_of(ids: &VecDeque<u64>, id: u64) -> Option<usize>
    ensures { result ≡ position (λ x. x == id) ids.now.items }
{
    ids.iter().position(|x| *x == id)
}

#[cfg(test)]
mod tests {
    use super::*;
    use std::test::Fail;

    #[test]
    fn turns_go_round(rt: HostRuntime) -> Result<(), Fail> {
        let mut slicer = Slicer::new(rt.alloc());
        slicer.reserve(3)?;
        slicer.enter(1);
        slicer.enter(2);
        slicer.enter(3);
        assert_eq!(rt; slicer.front(), 1);
        assert_eq!(rt; slicer.place(0), Some(1));
        assert_eq!(rt; slicer.place(2), Some(3));
        assert_eq!(rt; slicer.place(3), None);
        slicer.rotate();
        assert_eq!(rt; slicer.front(), 2);
        slicer.remove(3);
        slicer.enter(4);
        assert_eq!(rt;
            [slicer.place(0), slicer.place(1), slicer.place(2)],
            [Some(2), Some(1), Some(4)]
        );
        slicer.remove(2);
        assert_eq!(rt; slicer.front(), 1);
        Ok(())
    }
}
