//! The assembler: the code of a listing.
#![tactic(auto)]

ghost use Rattle.std.specs.Prelude.{◌≡◌, ◌⊎◌, IfOk, IfErr};
ghost use Rattle.tierra_model.specs.Ranges.{IsCode};
ghost use Rattle.tierra_asm.specs.Listing.{listing_of};
ghost use Rattle.tierra_asm.specs.declared.AsmFault.TheVariants.{OutOfMemory};

mod word_reader;

use soup_ops::{by_name, code};
use std::alloc::{AllocFailed, Global};
use tierra_model::{Code, MOST_SIZE};
pub use word_reader::{Word, Words};

/// Why a listing has no code. Lines are counted from 1; one above 4,294,967,295 is given as that number.
#[derive(Clone, Copy, Debug, Drop, PartialEq, Eq)]
pub enum AsmFault {
    /// A word on this line names no instruction.
    UnknownName { line: u32 },
    /// The 20,001st word is on this line.
    TooLong { line: u32 },
    /// The listing has no word.
    Empty,
    /// No memory was left.
    OutOfMemory,
}

impl<T: Drop> From<AllocFailed<T>> for AsmFault {
    ghost from_gives = { λ _ e. e ≡ OutOfMemory };

    fn from(_: AllocFailed<T>) -> AsmFault {
        AsmFault::OutOfMemory
    }
}

/// The code of a listing: the instruction of each word, in order.
///
/// A listing has 1 to 20,000 words, separated as `Words` says, each the lower-case name of an instruction. The
/// first word that is no name, or is one too many, gives the fault.
pub fn assemble(alloc: Global, text: &str) -> Result<Code, AsmFault>
    ensures code { IfOk result (λ code. listing_of text.now ≡ Ok code) }
    ensures fault { IfErr result (λ fault. (fault ≡ AsmFault.OutOfMemory) ⊎ (listing_of text.now ≡ Err fault)) }
    ensures range { IfOk result IsCode }
{
    let mut items = Vec::new(alloc);
    for word in Words::of(text) {
        if items.len() == MOST_SIZE as usize {
            return Err(AsmFault::TooLong { line: word.line });
        }
        let Some(op) = by_name(word.text) else {
            return Err(AsmFault::UnknownName { line: word.line });
        };
        items.push(code(op))?;
    }
    if items.is_empty() {
        return Err(AsmFault::Empty);
    }
    Ok(Code { items })
}
