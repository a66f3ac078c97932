//! The calls that a desk in memory has had.
use std::marker::Model;

/// Bytes that a call was given. Contracts see them as a list.
#[derive(Drop)]
pub struct Bytes {
    pub items: Vec<u8>,
}

impl Model for Bytes {
    ghost use Rattle.std.specs.Prelude.{ℕ, List};

    ghost Value = { List ℕ };

    ghost view = { λ b. b.items.items };
}

/// A call of a desk, with what it was given.
#[derive(Drop)]
pub enum Call {
    Len,
    Read { at: u64, len: usize },
    Write { at: u64, piece: Bytes },
    /// A write whose end passes 2^62. It fails and writes nothing, so its piece is not kept.
    TooLong { at: u64, len: usize },
    Sync,
    Tell { piece: Bytes },
}

/// A call that was made, and whether it failed.
#[derive(Drop)]
pub struct CallRecord {
    pub call: Call,
    pub failed: bool,
}

impl Call {
    ghost use Rattle.std.specs.Prelude.{◌≡◌};
    ghost use Rattle.test_desks.specs.Calls.{is_tell};

    /// Whether it is a tell, and not a disk call.
    pub fn is_tell(&self) -> bool
        ensures { result ≡ is_tell self.now }
    {
        matches!(self, Call::Tell { .. })
    }
}
