//! A record in the form in which it is written.

ghost use Rattle.std.specs.Prelude.{◌≡◌, ◌++◌, [], ◌∷◌, IfOk, length};

use std::alloc::AllocError;
use std::marker::Model;

/// A record as it is written, with a closed gate after it. Contracts see the bytes of the record alone.
#[derive(Debug, Drop)]
pub struct Room {
    bytes: Vec<u8>,
}

impl Model for Room {
    ghost use Rattle.std.specs.Prelude.{List, ℕ, ◌≡◌, ◌++◌, ◌-◌, [], ◌∷◌, length, take};

    ghost Value = { List ℕ };

    ghost view = { λ r. take (length r.bytes.items - 1) r.bytes.items };

    ghost invariant = { λ r. r.bytes.items ≡ take (length r.bytes.items - 1) r.bytes.items ++ 0 ∷ [] };
}

impl Room {
    /// Room for a record of these bytes.
    pub fn new(bytes: Vec<u8>) -> Result<Room, AllocError>
        ensures { IfOk result (λ room. room ≡ bytes.items) }
    {
        let mut bytes = bytes;
        bytes.push(0)?;
        Ok(Room { bytes })
    }

    // The bytes of the record and the closed gate after it.
    pub(crate) fn bytes(&self) -> &[u8]
        ensures { result.now ≡ self.now ++ 0 ∷ [] }
    {
        &self.bytes
    }

    /// How many bytes the record has.
    pub fn record_len(&self) -> usize
        ensures { result ≡ length self.now }
    {
        self.bytes.len() - 1
    }
}
