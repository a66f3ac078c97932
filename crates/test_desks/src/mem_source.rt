//! A source in memory, which fails at listed calls.
ghost use Rattle.std.specs.Prelude.{◌≡◌, ◌+◌, ◌<◌, ◌≤◌, ◌↔◌, Contains, length, min};
ghost use Rattle.test_desks.specs.MemSource.{source_of};
ghost use Rattle.desk_io.specs.Source.{HasNoReadFault, IfGot, IsReadCall};

use crate::listed::is_next_listed;
use desk_io::{Piece, Source};
use std::marker::Model;

/// A source that gives its bytes in small pieces, and fails at the calls that it is told to.
#[derive(Drop)]
pub struct MemSource {
    bytes: Vec<u8>,
    at: usize,
    cut: usize,
    fails: Vec<u64>,
    calls: u64,
    faults: u64,
}

impl Model for MemSource {
    ghost use Rattle.std.specs.Prelude.{◌<◌, ◌≤◌, length, drop};
    ghost use Rattle.test_desks.specs.MemSource.{MemSourceState};

    ghost Value = { MemSourceState };

    ghost view = { λ s. record {
      left = drop s.at s.bytes.items;
      cut = s.cut;
      fails = s.fails.items;
      calls = s.calls;
      faults = s.faults;
    } };

    ghost invariant = { λ s. (s.at ≤ length s.bytes.items) × (0 < s.cut) };
}

impl MemSource {
    /// Gives the bytes, at most `cut` of them in a call. The calls whose numbers are in `fails` fail;
    /// the first call is number 1.
    pub fn new(bytes: Vec<u8>, cut: usize, fails: Vec<u64>) -> MemSource
        requires { 0 < cut }
        ensures { result
            ≡ record { left = bytes.items; cut = cut; fails = fails.items; calls = 0; faults = 0 } }
    {
        MemSource {
            bytes,
            at: 0,
            cut,
            fails,
            calls: 0,
            faults: 0,
        }
    }

    /// How many reads there were.
    pub fn calls(&self) -> u64
        ensures { result ≡ self.now.calls }
    {
        self.calls
    }
}

impl Source for MemSource {
    ghost use Rattle.test_desks.specs.MemSource.{source_of};

    ghost state = { source_of };

    /// Fails only at the calls that are listed; any other call gives as much as it can.
    fn read(&mut self, buf: &mut [u8]) -> Piece
        requires sound { HasNoReadFault (source_of self.old) }
        requires room { 0 < length buf.old }
        ensures call { IsReadCall result buf.new (source_of self.old) (source_of self.new) }
        ensures cause { result ≡ Piece.Failed → self.new.faults ≡ self.old.faults + 1 }
        ensures failed { (result ≡ Piece.Failed) ↔ Contains self.old.fails (self.old.calls + 1) }
        ensures most { IfGot result (λ n. n ≡ min self.old.cut (min (length buf.new) (length self.old.left))) }
        ensures counted { self.new.calls ≡ min (self.old.calls + 1) u64.MAX }
        ensures settings { (self.new.cut ≡ self.old.cut) × (self.new.fails ≡ self.old.fails) }
    {
        let listed = is_next_listed(&self.fails, self.calls);
        self.calls = self.calls.saturating_add(1);
        if listed {
            self.faults += 1;
            return Piece::Failed;
        }
        let count = self.cut.min(buf.len()).min(self.bytes.len() - self.at);
        if count == 0 {
            return Piece::End;
        }
        buf[..count].copy_from_slice(&self.bytes[self.at..self.at + count]);
        self.at += count;
        Piece::Got(count)
    }
}
