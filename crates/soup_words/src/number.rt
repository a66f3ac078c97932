//! Numbers in decimal digits.

ghost use Rattle.std.specs.Prelude.{◌≡◌, ◌<◌, ◌≤◌, ◌^◌, IfOk, IsErrOf, MatchOption, ℕ};
ghost use Rattle.std.specs.Fmt.{decimal};
ghost use Rattle.std.specs.Option.{option_copied};
ghost use Rattle.soup_words.specs.Orders.{IsValue};

use crate::order::WordsFault;
use crate::table::Range;
use std::alloc::Global;
use tierra_model::OutOfMemory;

/// The number that an option's text spells, if it is in its range, or the default if there is no text. A text for an
/// option that the action lacks is refused.
pub(crate) fn value_of(
    alloc: Global,
    range: Range,
    text: Option<&str>,
    default: u64,
) -> Result<u64, WordsFault>
    ensures value { IfOk result (IsValue range (option_copied text.entry) default) }
    ensures refused { IsErrOf result WordsFault.Refused
        → (n : ℕ) → IsValue range (option_copied text.entry) default n → ⊥ }
{
    let Some(text) = text else {
        return Ok(default);
    };
    let Some((low, high)) = range else {
        return Err(WordsFault::Refused);
    };
    match number_from(alloc, text) {
        Ok(Some(number)) => within(low, high, number),
        Ok(None) => Err(WordsFault::Refused),
        Err(_) => Err(WordsFault::OutOfMemory),
    }
}

fn within(low: u64, high: u64, number: u64) -> Result<u64, WordsFault>
    ensures value { IfOk result (λ n. (n ≡ number) × (low ≤ n) × (n ≤ high)) }
    ensures refused { IsErrOf result WordsFault.Refused → low ≤ number → number ≤ high → ⊥ }
    ensures memory { IsErrOf result WordsFault.OutOfMemory → ⊥ }
    ensures fits { high < 2 ^ 64 }
{
    if number < low || number > high {
        return Err(WordsFault::Refused);
    }
    Ok(number)
}

/// The number that a text spells, without a sign or a leading zero.
fn number_from(alloc: Global, text: &str) -> Result<Option<u64>, OutOfMemory>
    ensures { IfOk result (λ found. MatchOption found
        ((n : ℕ) → n < 2 ^ 64 → text.now ≡ decimal n → ⊥) (λ n. (n < 2 ^ 64) × (text.now ≡ decimal n))) }
{
    let Ok(number) = text.parse::<u64>() else {
        return Ok(None);
    };
    let spelled = format!(in alloc; "{number}")?;
    if spelled.as_str() == text {
        Ok(Some(number))
    } else {
        Ok(None)
    }
}
