//! The yard as a quantum that runs alone sees it.

ghost use Rattle.std.specs.Prelude.{◌≡◌, ◌+◌, ◌++◌, ◌<◌, ◌≤◌, ◌^◌, ◌∷◌, [], IfOk, length, remove, slice_index_or};
ghost use Rattle.tierra_model.specs.Queue.{error_move, good_move};
ghost use Rattle.tierra_model.specs.Yard.{is_standing_of, with_standing};

use crate::yard::{move_down, move_up, show};
use std::marker::Model;
use tierra_model::{Creature, OutOfMemory, Standing};

/// The yard of a job until something in it changes, and a copy of it from then on. The room for the copy is there from
/// the beginning, so no change takes memory.
#[derive(Drop)]
pub(crate) struct Standings<'a> {
    shown: &'a [Standing],
    own: Vec<Standing>,
    is_own: bool,
}

impl<'a> Model for Standings<'a> {
    ghost use Rattle.std.specs.Prelude.{◌-◌, ◌≤◌, if◌then◌else◌, length, vec_capacity, vec_len};
    ghost use Rattle.quantum_run.specs.Shelves.{YardFields};

    ghost Value = { YardFields };

    ghost view = { λ y. record {
      items = if y.is_own then y.own.items else y.shown.now;
      room = vec_capacity y.own - (if y.is_own then vec_len y.own else length y.shown.now);
    } };

    ghost invariant = { λ y. length y.shown.now ≤ vec_capacity y.own };
}

impl<'a> Standings<'a> {
    /// The yard of a job, with room for `more` more standings. The copy goes into `own`, whose contents do not matter.
    pub(crate) fn begin(
        shown: &'a [Standing],
        own: Vec<Standing>,
        more: u32,
    ) -> Result<Standings<'a>, OutOfMemory>
        requires few { length shown.now < 2 ^ 30 }
        ensures items { IfOk result (λ y. y.items ≡ shown.now) }
        ensures room { IfOk result (λ y. more ≤ y.room) }
    {
        let mut own = own;
        own.clear();
        own.reserve(shown.len() + more as usize)?;
        Ok(Standings {
            shown,
            own,
            is_own: false,
        })
    }

    /// The room of the copy.
    pub(crate) fn into_own(self) -> Vec<Standing> {
        self.own
    }

    /// The standings, from the top of the queue.
    pub(crate) fn items(&self) -> &[Standing]
        ensures { result.now ≡ self.now.items }
    {
        if self.is_own { &self.own } else { self.shown }
    }

    /// Updates the creature's standing to its record.
    pub(crate) fn show(&mut self, creature: &Creature)
        ensures items { self.new.items ≡ with_standing creature.now self.old.items }
        ensures room { self.old.room ≤ self.new.room }
    {
        make_own(&mut self.own, &mut self.is_own, self.shown);
        show(&mut self.own, creature);
    }

    /// The creature changes places with the one above it, unless there is none or it has more errors.
    pub(crate) fn move_up(&mut self, creature: &Creature)
        ensures items { self.new.items ≡ error_move (is_standing_of creature.now) (λ x. x.errors) self.old.items }
        ensures room { self.old.room ≤ self.new.room }
    {
        make_own(&mut self.own, &mut self.is_own, self.shown);
        move_up(&mut self.own, creature);
    }

    /// The creature changes places with the one below it, unless there is none or the creature has more errors than it.
    pub(crate) fn move_down(&mut self, creature: &Creature)
        ensures items { self.new.items ≡ good_move (is_standing_of creature.now) (λ x. x.errors) self.old.items }
        ensures room { self.old.room ≤ self.new.room }
    {
        make_own(&mut self.own, &mut self.is_own, self.shown);
        move_down(&mut self.own, creature);
    }

    /// A standing comes in at the bottom.
    pub(crate) fn push(&mut self, standing: Standing)
        requires { 0 < self.old.room }
        ensures items { self.new.items ≡ self.old.items ++ standing ∷ [] }
        ensures room { self.old.room ≤ self.new.room + 1 }
    {
        make_own(&mut self.own, &mut self.is_own, self.shown);
        self.own.push_reserved(standing);
    }

    /// The standing at the place goes out.
    pub(crate) fn remove(&mut self, place: u32) -> Standing
        requires { place < length self.old.items }
        ensures value { result ≡ slice_index_or self.old.items place result }
        ensures items { self.new.items ≡ remove self.old.items place }
        ensures room { self.old.room ≤ self.new.room }
    {
        make_own(&mut self.own, &mut self.is_own, self.shown);
        self.own.remove(place as usize)
    }
}

ghost use Rattle.std.specs.Prelude.{if◌then◌else◌, true, vec_capacity, vec_len};

// Makes the copy, if it was not made before.
fn make_own(own: &mut Vec<Standing>, is_own: &mut bool, shown: &[Standing])
    requires { length shown.now ≤ vec_capacity own.old }
    ensures items { own.new.items ≡ (if is_own.old then own.old.items else shown.now) }
    ensures len { vec_len own.new ≡ (if is_own.old then vec_len own.old else length shown.now) }
    ensures room { vec_capacity own.old ≤ vec_capacity own.new }
    ensures made { is_own.new ≡ true }
{
    if !*is_own {
        own.clear();
        let copied: Result<_, _> = own.extend_from_slice(shown);
        copied.unwrap();
        *is_own = true;
    }
}
