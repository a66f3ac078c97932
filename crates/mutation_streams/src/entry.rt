//! What chance does in a quantum, as a list of what is due.

ghost use Rattle.std.specs.Prelude.{◌≡◌, ◌==◌, [], IfOk, None, find};
ghost use Rattle.mutation_streams.specs.Draws.{draws_of};
ghost use Rattle.mutation_streams.specs.Entries.{copy_bit_due, due_at, entry_of, flaw_due, is_any};

use crate::Draws;
use std::alloc::Global;
use std::marker::Model;
use tierra_model::{OutOfMemory, Settings};

/// What chance does at one instruction of a quantum.
#[derive(Clone, Copy, Debug)]
pub(crate) struct Chance {
    pub(crate) instruction: u32,
    pub(crate) flaw: i32,
    pub(crate) copy_bit: Option<u8>,
}

impl Chance {
    // Whether it does anything.
    fn is_any(&self) -> bool
        ensures { result ≡ is_any self.now }
    {
        self.flaw != 0 || self.copy_bit.is_some()
    }
}

// The flip in the soup, and what is due at instructions, in order.
#[derive(Debug, Drop)]
struct Due {
    back: Option<(u32, u8)>,
    chances: Vec<Chance>,
}

/// What chance does in a quantum, in its first instructions. It is one word where nothing is due.
#[derive(Debug, Drop)]
pub struct TapeEntry {
    due: Option<Box<Due>>,
}

impl Model for TapeEntry {
    ghost use Rattle.mutation_streams.specs.Entries.{EntryFields, listed};

    ghost Value = { EntryFields };

    ghost view = { λ e. listed e.due };
}

impl TapeEntry {
    /// The entry of quantum `q`, for its first `reach` instructions.
    pub fn of(
        alloc: Global,
        settings: &Settings,
        q: u64,
        reach: u32,
    ) -> Result<TapeEntry, OutOfMemory>
        ensures { IfOk result (λ e. e ≡ entry_of (draws_of settings.now q) reach) }
    {
        let mut draws = Draws::new(settings, q);
        let back = draws.back();
        let mut chances = Vec::new(alloc);
        for instruction in 0..reach {
            let chance = draws.chance(instruction);
            if chance.is_any() {
                chances.push(chance)?;
            }
        }
        if back.is_none() && chances.is_empty() {
            return Ok(TapeEntry::nothing());
        }
        let due = Box::new(alloc, Due { back, chances })?;
        Ok(TapeEntry { due: Some(due) })
    }

    /// The entry of a quantum in which nothing is due.
    pub(crate) fn nothing() -> TapeEntry
        ensures { result ≡ record { back = None; due = [] } }
    {
        TapeEntry { due: None }
    }

    /// Takes the entry out; one in which nothing is due stays.
    pub(crate) fn take(&mut self) -> TapeEntry
        ensures { result ≡ self.old }
    {
        TapeEntry {
            due: self.due.take(),
        }
    }

    /// The cell and the bit that are flipped in the soup, if any.
    #[inline]
    pub(crate) fn back(&self) -> Option<(u32, u8)>
        ensures { result ≡ self.now.back }
    {
        match &self.due {
            None => None,
            Some(due) => due.back,
        }
    }

    /// The flaw of an instruction.
    #[inline]
    pub(crate) fn flaw(&self, i: u32) -> i32
        ensures { result ≡ flaw_due (due_at self.now i) }
    {
        match self.chance(i) {
            None => 0,
            Some(chance) => chance.flaw,
        }
    }

    /// The bit that the copy by an instruction flips, if any.
    #[inline]
    pub(crate) fn copy_bit(&self, i: u32) -> Option<u8>
        ensures { result ≡ copy_bit_due (due_at self.now i) }
    {
        match self.chance(i) {
            None => None,
            Some(chance) => chance.copy_bit,
        }
    }

    // What is due at an instruction.
    #[inline]
    fn chance(&self, i: u32) -> Option<Chance>
        ensures { result ≡ due_at self.now i }
    {
        match &self.due {
            None => None,
            Some(due) => look_up(due, i),
        }
    }
}

// What is due at an instruction. It is called only in a quantum in which something is due.
#[cold]
#[inline(never)]
fn look_up(due: &Due, i: u32) -> Option<Chance>
    ensures { result ≡ find (λ c. c.instruction == i) due.now.chances.items }
{
    due.chances
        .iter()
        .copied()
        .find(|chance| chance.instruction == i)
}
