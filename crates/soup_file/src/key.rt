//! The keys of a soup file.

ghost use Rattle.std.specs.Prelude.{◌≡◌, ◌⊎◌, ◌++◌, IfOk};
ghost use Rattle.soup_file.specs.Keys.{file_fault, full_name, name_of, table_of};

use crate::fault::FileFault;
use std::alloc::Global;
use tierra_model::{OutOfMemory, Text};

/// A key that a soup file may have.
#[derive(Clone, Copy, Drop)]
pub(crate) enum Key {
    SoupSize,
    SliceSize,
    SliceBySize,
    SliceNum,
    SliceDen,
    SearchLimit,
    MinTemplate,
    MinCell,
    MaxCell,
    MalMult,
    FillPercent,
    MovePercent,
    SaveAt,
    BackRate,
    CopyRate,
    FlawRate,
    Seed,
    DistEvery,
    DistPercent,
    Creature,
    /// The place of a creature.
    At,
    /// The listing of a creature.
    Code,
}

impl Key {
    /// The name of the key in its table.
    #[tactic(auto, unfolding(crate::specs::Keys::name_of))]
    pub(crate) fn name(self) -> &'static str
        ensures { result.now ≡ name_of self }
    {
        match self {
            Key::SoupSize => "soup_size",
            Key::SliceSize => "slice_size",
            Key::SliceBySize => "slice_by_size",
            Key::SliceNum => "slice_num",
            Key::SliceDen => "slice_den",
            Key::SearchLimit => "search_limit",
            Key::MinTemplate => "min_template",
            Key::MinCell => "min_cell",
            Key::MaxCell => "max_cell",
            Key::MalMult => "mal_mult",
            Key::FillPercent => "fill_percent",
            Key::MovePercent => "move_percent",
            Key::SaveAt => "save_at",
            Key::BackRate => "back_rate",
            Key::CopyRate => "copy_rate",
            Key::FlawRate => "flaw_rate",
            Key::Seed => "seed",
            Key::DistEvery => "dist_every",
            Key::DistPercent => "dist_percent",
            Key::Creature => "creature",
            Key::At => "at",
            Key::Code => "code",
        }
    }

    // The prefix of the name in a fault.
    #[tactic(auto, unfolding(crate::specs::Keys::table_of))]
    fn table(self) -> &'static str
        ensures { result.now ≡ table_of self }
    {
        match self {
            Key::At | Key::Code => "creature.",
            _ => "",
        }
    }

    // The name of the key in the file.
    fn full_name(self, alloc: Global) -> Result<Text, OutOfMemory>
        ensures { IfOk result (λ text. text ≡ full_name self) }
    {
        joined(alloc, self.table(), self.name())
    }
}

/// What is wrong at a key.
#[derive(Clone, Copy, Drop)]
pub(crate) enum KeyFault {
    Missing(Key),
    WrongKind(Key),
    OutOfRange(Key),
}

impl KeyFault {
    /// The fault of the file, which names the key.
    pub(crate) fn in_file(self, alloc: Global) -> FileFault
        ensures { (result ≡ FileFault.OutOfMemory) ⊎ (result ≡ file_fault self) }
    {
        match self.named(alloc) {
            Ok(fault) => fault,
            Err(_) => FileFault::OutOfMemory,
        }
    }

    fn named(self, alloc: Global) -> Result<FileFault, OutOfMemory>
        ensures { IfOk result (λ fault. fault ≡ file_fault self) }
    {
        Ok(match self {
            KeyFault::Missing(key) => FileFault::Missing {
                key: key.full_name(alloc)?,
            },
            KeyFault::WrongKind(key) => FileFault::WrongKind {
                key: key.full_name(alloc)?,
            },
            KeyFault::OutOfRange(key) => FileFault::OutOfRange {
                key: key.full_name(alloc)?,
            },
        })
    }
}

/// Two texts, one after the other.
pub(crate) fn joined(alloc: Global, first: &str, second: &str) -> Result<Text, OutOfMemory>
    ensures { IfOk result (λ text. text ≡ first.now ++ second.now) }
{
    let mut items = Vec::new(alloc);
    items.extend_from_slice(first.as_bytes())?;
    items.extend_from_slice(second.as_bytes())?;
    Ok(Text { items })
}
