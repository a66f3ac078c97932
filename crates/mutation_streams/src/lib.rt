//! What a quantum draws: flips in the soup, flaws of instructions and flips in copies. The words are those of
//! `ChaCha8Rng`, from the stream whose number is the quantum.
#![tactic(auto)]

mod block;
mod entry;
mod reading;
mod tape;

ghost use Rattle.std.specs.Prelude.{◌≡◌, ◌+◌, ◌*◌, ◌<◌, [], ◌∷◌};
ghost use Rattle.tierra_model.specs.Draw.{back_flip, copy_bit, flaw, word};
ghost use Rattle.mutation_streams.specs.Draws.{draws_of};
ghost use Rattle.mutation_streams.specs.Entries.{chance_of, entry_of};

pub use crate::block::TapeBlock;
use crate::entry::Chance;
pub use crate::entry::TapeEntry;
use crate::reading::Reading;
pub use crate::tape::{NoTape, Tape};
use std::marker::Model;
use tierra_model::Settings;

/// The draws of one quantum. A rate R is due at a word that R divides, and at none where R is 0.
///
/// The words are found by number. If they are asked for in order, the stream is read on, and each block of it is made
/// only once. Where an entry tells what is due in the first `reach` instructions, no word is made for these.
#[derive(Debug, Drop)]
pub struct Draws {
    seed: [u8; 32],
    quantum: u64,
    soup_size: u32,
    back_rate: u32,
    copy_rate: u32,
    flaw_rate: u32,
    reading: Option<Reading>,
    reach: u32,
    entry: TapeEntry,
}

impl Model for Draws {
    ghost use Rattle.std.specs.Prelude.{◌≡◌, ◌<◌, IfSome};
    ghost use Rattle.rand_chacha.specs.ChaCha.{key_of};
    ghost use Rattle.mutation_streams.specs.Draws.{DrawFields};
    ghost use Rattle.mutation_streams.specs.Entries.{entry_of};

    ghost Value = { DrawFields };

    ghost view = { λ d. record {
      seed = d.seed;
      quantum = d.quantum;
      soup_size = d.soup_size;
      back_rate = d.back_rate;
      copy_rate = d.copy_rate;
      flaw_rate = d.flaw_rate;
    } };

    ghost invariant = { λ d. (0 < d.soup_size)
        × IfSome d.reading (λ r. (r.key ≡ key_of d.seed) × (r.stream ≡ d.quantum))
        × (0 < d.reach → d.entry ≡ entry_of (record {
          seed = d.seed;
          quantum = d.quantum;
          soup_size = d.soup_size;
          back_rate = d.back_rate;
          copy_rate = d.copy_rate;
          flaw_rate = d.flaw_rate;
        }) d.reach) };
}

impl Draws {
    /// Computes no word yet.
    #[inline]
    pub fn new(settings: &Settings, q: u64) -> Draws
        ensures { result ≡ draws_of settings.now q }
    {
        Draws {
            seed: settings.seed,
            quantum: q,
            soup_size: settings.soup_size,
            back_rate: settings.back_rate,
            copy_rate: settings.copy_rate,
            flaw_rate: settings.flaw_rate,
            reading: None,
            reach: 0,
            entry: TapeEntry::nothing(),
        }
    }

    /// The same draws, from the quantum's entry.
    #[inline]
    pub fn of_entry(settings: &Settings, q: u64, reach: u32, entry: TapeEntry) -> Draws
        requires { entry ≡ entry_of (draws_of settings.now q) reach }
        ensures { result ≡ draws_of settings.now q }
    {
        Draws {
            reach,
            entry,
            ..Draws::new(settings, q)
        }
    }

    /// The cell and the bit that are flipped in the soup before the slice, if any.
    #[inline]
    pub fn back(&mut self) -> Option<(u32, u8)>
        ensures flip { result ≡ back_flip self.old.back_rate (word self.old.seed self.old.quantum) self.old.soup_size }
        ensures same { self.new ≡ self.old }
    {
        if self.back_rate == 0 {
            return None;
        }
        if self.reach > 0 {
            return self.entry.back();
        }
        let [due, cell, bit] = self.first_words();
        if due % self.back_rate != 0 {
            return None;
        }
        Some((cell % self.soup_size, (bit % 5) as u8))
    }

    /// The flaw of instruction `i` of the quantum: 1, -1, or 0 for none.
    #[inline(always)]
    pub fn flaw(&mut self, i: u32) -> i32
        ensures flaw { result ≡ flaw self.old.flaw_rate (word self.old.seed self.old.quantum) i }
        ensures same { self.new ≡ self.old }
    {
        if self.flaw_rate == 0 {
            return 0;
        }
        self.drawn_flaw(i)
    }

    // The flaw, where there may be some. (It is not put into the code of each caller, as the test of the rate is.)
    #[inline(never)]
    #[tactic(auto, using(crate::proofs::Found::flaw_found))]
    fn drawn_flaw(&mut self, i: u32) -> i32
        requires rate { 0 < self.old.flaw_rate }
        ensures flaw { result ≡ flaw self.old.flaw_rate (word self.old.seed self.old.quantum) i }
        ensures same { self.new ≡ self.old }
    {
        if i < self.reach {
            return self.entry.flaw(i);
        }
        let [due, sign, _, _] = self.words_of(i);
        if due % self.flaw_rate != 0 {
            return 0;
        }
        if sign % 2 == 0 { 1 } else { -1 }
    }

    /// The bit that a copy by instruction `i` of the quantum flips, if any.
    #[inline]
    #[tactic(auto, using(crate::proofs::Found::copy_bit_found))]
    pub fn copy_bit(&mut self, i: u32) -> Option<u8>
        ensures bit { result ≡ copy_bit self.old.copy_rate (word self.old.seed self.old.quantum) i }
        ensures same { self.new ≡ self.old }
    {
        if self.copy_rate == 0 {
            return None;
        }
        if i < self.reach {
            return self.entry.copy_bit(i);
        }
        let [_, _, due, bit] = self.words_of(i);
        if due % self.copy_rate != 0 {
            return None;
        }
        Some((bit % 5) as u8)
    }

    /// What chance does at instruction `i`.
    pub(crate) fn chance(&mut self, i: u32) -> Chance
        ensures chance { result ≡ chance_of self.old i }
        ensures same { self.new ≡ self.old }
    {
        Chance {
            instruction: i,
            flaw: self.flaw(i),
            copy_bit: self.copy_bit(i),
        }
    }

    // Words 0 to 2.
    #[tactic(auto, unfolding(tierra_model::specs::Draw::word))]
    #[inline(never)]
    fn first_words(&mut self) -> [u32; 3]
        ensures words { let w = word self.old.seed self.old.quantum in result ≡ w 0 ∷ w 1 ∷ w 2 ∷ [] }
        ensures same { self.new ≡ self.old }
    {
        match &self.reading {
            Some(reading) => reading.first(),
            None => {
                let reading = Reading::start(&self.seed, self.quantum);
                let words = reading.first();
                self.reading = Some(reading);
                words
            }
        }
    }

    // Words 3 + 4 i to 6 + 4 i.
    #[tactic(auto, unfolding(tierra_model::specs::Draw::word))]
    #[inline(always)]
    fn words_of(&mut self, i: u32) -> [u32; 4]
        ensures words { let w = word self.old.seed self.old.quantum in
            result ≡ w (3 + 4 * i) ∷ w (4 + 4 * i) ∷ w (5 + 4 * i) ∷ w (6 + 4 * i) ∷ [] }
        ensures same { self.new ≡ self.old }
    {
        match &mut self.reading {
            Some(reading) => reading.words_of(i),
            None => {
                let mut reading = Reading::start(&self.seed, self.quantum);
                let words = reading.words_of(i);
                self.reading = Some(reading);
                words
            }
        }
    }
}
