//! What the words ask for.

ghost use Rattle.std.specs.Prelude.{◌≡◌, IfOk, IsErrOf, codes, map, string_bytes};
ghost use Rattle.soup_words.specs.Orders.{AskToHold, IsInRange, IsOrderOf};

use crate::number::value_of;
use crate::split::split_words;
use crate::table::{action_named, row_of};
use std::alloc::{AllocError, Global};
use tierra_model::OutOfMemory;

/// What the program is to do.
#[derive(Clone, Copy, Debug, Drop, PartialEq, Eq)]
pub enum Action {
    /// Runs a listing.
    Grow,
    /// Runs a soup file.
    Run,
    /// Turns a listing into hexadecimal digits.
    Asm,
    /// Turns hexadecimal digits into a listing.
    Dis,
    /// Tells a genebank.
    Bank,
    /// Plays a schedule.
    Drill,
    /// Tells the state of a world.
    Dump,
    /// Runs a soup file and keeps its world in a checkpoint.
    Hold,
    /// Tells the births and deaths of a run.
    Curve,
    /// Tells what the daughters of a genebank's genotypes cost.
    Probe,
    /// Runs a soup file while others look on.
    Watch,
    /// Runs isles with migration.
    Isles,
}

/// What the words ask for. Options that they leave out, or that the action lacks, have their defaults.
#[derive(Clone, Copy, Debug, Drop, PartialEq, Eq)]
pub struct Order {
    pub action: Action,
    pub quanta: u64,
    pub workers: u32,
    pub number: u64,
    pub every: u64,
    pub looks: u64,
    pub isles: u64,
    pub epochs: u64,
}

/// Why the words give no order.
#[derive(Clone, Copy, Debug, Drop, PartialEq, Eq)]
pub enum WordsFault {
    Refused,
    OutOfMemory,
}

/// The order of the words.
///
/// One word is the action. Options come before or after it, as `--quanta 34` or `--quanta=34`, each at most once.
/// When left out, `--quanta` is 1000, `--workers` 1, `--number` 0, `--every` 1000, `--looks` 10, `--isles` 2 and
/// `--epochs` 2.
pub fn read_words(alloc: Global, words: &Vec<String>) -> Result<Order, WordsFault>
    ensures order { IfOk result (IsOrderOf (map string_bytes words.now.items)) }
    ensures in_range { IfOk result IsInRange }
    ensures refused { IsErrOf result WordsFault.Refused
        → (order : Order) → IsOrderOf (map string_bytes words.now.items) order → ⊥ }
{
    let split = match split_words(alloc, words.as_slice()) {
        Ok(split) => split,
        Err(fault) => return Err(fault),
    };
    let Some(text) = split.action else {
        return Err(WordsFault::Refused);
    };
    let Some(action) = action_named(text) else {
        return Err(WordsFault::Refused);
    };
    let row = row_of(action);
    Ok(Order {
        action,
        quanta: value_of(alloc, row.quanta, split.quanta, 1000)?,
        workers: value_of(alloc, row.workers, split.workers, 1)? as u32,
        number: value_of(alloc, row.number, split.number, 0)?,
        every: value_of(alloc, row.every, split.every, 1000)?,
        looks: value_of(alloc, row.looks, split.looks, 10)?,
        isles: value_of(alloc, row.isles, split.isles, 2)?,
        epochs: value_of(alloc, row.epochs, split.epochs, 2)?,
    })
}

/// The name of the file for the words: `tierra.hold` if they ask for `hold`, and else `tierra.bank`, even if they are
/// refused.
pub fn file_for(alloc: Global, words: &Vec<String>) -> Result<&'static str, OutOfMemory>
    ensures hold { IfOk result (λ name. AskToHold (map string_bytes words.now.items) → name.now ≡ codes "tierra.hold") }
    ensures bank { IfOk result (λ name. (AskToHold (map string_bytes words.now.items) → ⊥)
        → name.now ≡ codes "tierra.bank") }
{
    match read_words(alloc, words) {
        Ok(order) if order.action == Action::Hold => Ok("tierra.hold"),
        Err(WordsFault::OutOfMemory) => Err(AllocError),
        _ => Ok("tierra.bank"),
    }
}
