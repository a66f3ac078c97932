//! The owner of a checkpoint file.

ghost use Rattle.std.specs.Prelude.{◌≡◌, IfOk, length};
ghost use Rattle.file_journal.specs.Files.{IsTitle};
ghost use Rattle.soup_checkpoint.specs.Hold.{header_for, owner_of};

use bank_format::setup_digest;
use file_journal::Header;
use std::alloc::Global;
use tierra_model::{OutOfMemory, Settings, Setup};

/// The owner of a checkpoint file: the digest of a setup, and its settings.
#[derive(Clone, Copy, Debug, Drop, PartialEq, Eq)]
pub struct Owner {
    pub digest: [u8; 32],
    pub settings: Settings,
}

impl Owner {
    /// The setup as an owner.
    pub fn new(alloc: Global, setup: &Setup) -> Result<Owner, OutOfMemory>
        ensures { IfOk result (λ owner. owner ≡ owner_of setup.now) }
    {
        Ok(Owner {
            digest: setup_digest(alloc, setup)?,
            settings: setup.settings,
        })
    }

    /// The header of the owner's file.
    pub fn header(&self) -> Header
        ensures header { result ≡ header_for self.now }
        ensures title { IsTitle result.title }
        ensures digest { length self.now.digest ≡ 32 }
    {
        Header {
            title: *b"Tierra hold1",
            digest: self.digest,
        }
    }
}
