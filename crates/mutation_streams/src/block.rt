//! The entries of a run of quanta.

ghost use Rattle.std.specs.Prelude.{◌≡◌, ◌↔◌, ◌+◌, ◌<◌, ◌≤◌, ◌^◌, IfOk, IfSome, IsNone, IsSome, IsTrue};
ghost use Rattle.mutation_streams.specs.Draws.{draws_of};
ghost use Rattle.mutation_streams.specs.Entries.{HasEntry, entry_of};

use crate::{Draws, TapeEntry};
use std::alloc::Global;
use std::marker::Model;
use tierra_model::{OutOfMemory, Settings};

/// The entries of a run of quanta, which are taken in order.
#[derive(Debug, Drop)]
pub struct TapeBlock {
    seed: [u8; 32],
    soup_size: u32,
    back_rate: u32,
    copy_rate: u32,
    flaw_rate: u32,
    reach: u32,
    // the quantum of the first entry
    begin: u64,
    // the first quantum whose entry was not passed yet
    next: u64,
    entries: Vec<TapeEntry>,
}

impl Model for TapeBlock {
    ghost use Rattle.std.specs.Prelude.{◌+◌, length};
    ghost use Rattle.mutation_streams.specs.Entries.{BlockFields, IsBlock};

    ghost Value = { BlockFields };

    ghost view = { λ b. record {
      next = record {
        seed = b.seed;
        quantum = b.next;
        soup_size = b.soup_size;
        back_rate = b.back_rate;
        copy_rate = b.copy_rate;
        flaw_rate = b.flaw_rate;
      };
      reach = b.reach;
      end = b.begin + length b.entries.items;
    } };

    ghost invariant = { λ b. IsBlock (record {
      seed = b.seed;
      quantum = b.next;
      soup_size = b.soup_size;
      back_rate = b.back_rate;
      copy_rate = b.copy_rate;
      flaw_rate = b.flaw_rate;
    }) b.begin b.reach b.entries.items };
}

impl TapeBlock {
    /// Writes the entries of `count` quanta from `first` on, each for the first `reach` instructions.
    pub fn write(
        alloc: Global,
        settings: &Settings,
        first: u64,
        count: u32,
        reach: u32,
    ) -> Result<TapeBlock, OutOfMemory>
        requires { first + count < 2 ^ 64 }
        ensures { IfOk result (λ b. b
            ≡ record { next = draws_of settings.now first; reach = reach; end = first + count }) }
    {
        let mut entries = Vec::with_capacity(alloc, count as usize)?;
        for k in 0..count {
            entries.push(TapeEntry::of(alloc, settings, first + u64::from(k), reach)?)?;
        }
        Ok(TapeBlock {
            seed: settings.seed,
            soup_size: settings.soup_size,
            back_rate: settings.back_rate,
            copy_rate: settings.copy_rate,
            flaw_rate: settings.flaw_rate,
            reach,
            begin: first,
            next: first,
            entries,
        })
    }

    /// The first quantum whose entry is still there.
    pub fn first(&self) -> u64
        ensures { result ≡ self.now.next.quantum }
    {
        self.next
    }

    /// The quantum after the last entry.
    pub fn end(&self) -> u64
        ensures { result ≡ self.now.end }
    {
        self.begin + self.entries.len() as u64
    }

    /// The draws of quantum `q`, if the block was written for these settings and the quantum's entry is still there. The
    /// entries up to that one are then gone.
    #[inline]
    pub fn draws(&mut self, settings: &Settings, q: u64) -> Option<Draws>
        ensures draws { IfSome result (λ d. d ≡ draws_of settings.now q) }
        ensures there { IsSome result ↔ HasEntry self.old settings.now q }
        ensures taken { IsSome result → self.new ≡ record self.old {
          next = record self.old.next { quantum = q + 1 };
        } }
        ensures kept { IsNone result → self.new ≡ self.old }
    {
        let reach = self.reach;
        let entry = self.take(settings, q)?;
        Some(Draws::of_entry(settings, q, reach, entry))
    }

    // The entry of quantum `q`.
    fn take(&mut self, settings: &Settings, q: u64) -> Option<TapeEntry>
        ensures entry { IfSome result (λ e. e ≡ entry_of (draws_of settings.now q) self.old.reach) }
        ensures there { IsSome result ↔ HasEntry self.old settings.now q }
        ensures taken { IsSome result → self.new ≡ record self.old {
          next = record self.old.next { quantum = q + 1 };
        } }
        ensures kept { IsNone result → self.new ≡ self.old }
    {
        if !self.is_of(settings) || q < self.next || self.end() <= q {
            return None;
        }
        self.next = q + 1;
        let entry = &mut self.entries[(q - self.begin) as usize];
        Some(entry.take())
    }

    // Whether the block was written for these settings.
    fn is_of(&self, settings: &Settings) -> bool
        ensures { IsTrue result ↔ (draws_of settings.now self.now.next.quantum ≡ self.now.next) }
    {
        self.seed == settings.seed
            && self.soup_size == settings.soup_size
            && self.back_rate == settings.back_rate
            && self.copy_rate == settings.copy_rate
            && self.flaw_rate == settings.flaw_rate
    }
}
