//! Codes as hexadecimal digits.

ghost use Rattle.std.specs.Prelude.{◌≡◌, ◌⊎◌, ◌≤◌, ◌<◌, length, IfOk, IfErr, IfSome, IfNone, OnOk, ◌++◌};
ghost use Rattle.std.specs.Char.{digit_char, digit_value};
ghost use Rattle.tierra_dis.specs.HexText.{hex_of, hex_text, byte_of, digits_of};
ghost use Rattle.tierra_dis.specs.declared.hex_text.HexFault.TheVariants.{OutOfMemory};

use std::alloc::{AllocFailed, Global};
use thiserror::Error;
use tierra_asm::Words;
use tierra_model::{Code, MOST_SIZE, OutOfMemory, Text};

/// Why a hex text has no bytes.
#[derive(Clone, Copy, Debug, Drop, PartialEq, Eq, Error)]
pub enum HexFault {
    /// The word at this place, counted from 1, is the first that is not two hexadecimal digits.
    #[error("word {place}: not two hexadecimal digits")]
    NotHex { place: u32 },
    /// There is a word after the 20,000th.
    #[error("more than 20000 instructions")]
    TooLong,
    /// There is no word.
    #[error("no instructions")]
    Empty,
    /// No memory was left.
    #[error("out of memory")]
    OutOfMemory,
}

impl<T: Drop> From<AllocFailed<T>> for HexFault {
    ghost from_gives = { λ _ e. e ≡ OutOfMemory };

    fn from(_: AllocFailed<T>) -> HexFault {
        HexFault::OutOfMemory
    }
}

/// The bytes of a hex text: its words are separated as in a listing, and each is two hexadecimal digits of either case.
pub fn read_hex(alloc: Global, text: &str) -> Result<Code, HexFault>
    ensures code { IfOk result (λ code. hex_of text.now ≡ Ok code) }
    ensures fault { IfErr result (λ fault. (fault ≡ HexFault.OutOfMemory) ⊎ (hex_of text.now ≡ Err fault)) }
    ensures some { IfOk result (λ code. 1 ≤ length code) }
    ensures most { IfOk result (λ code. length code ≤ MOST_SIZE) }
{
    let mut items = Vec::new(alloc);
    for word in Words::of(text) {
        if items.len() == MOST_SIZE as usize {
            return Err(HexFault::TooLong);
        }
        let Some(byte) = byte_of(word.text.as_bytes()) else {
            return Err(HexFault::NotHex {
                place: items.len() as u32 + 1,
            });
        };
        items.push(byte)?;
    }
    if items.is_empty() {
        return Err(HexFault::Empty);
    }
    Ok(Code { items })
}

/// The line of a code: two lower-case hexadecimal digits for each byte, with one space between.
pub fn hex_line(alloc: Global, code: &[u8]) -> Result<Text, OutOfMemory>
    ensures { IfOk result (λ text. text ≡ hex_text code.now) }
{
    let mut items = Vec::new(alloc);
    for (index, byte) in code.iter().enumerate() {
        if index > 0 {
            items.push(b' ')?;
        }
        push_digits(&mut items, *byte)?;
    }
    items.push(b'\n')?;
    Ok(Text { items })
}

fn push_digits(items: &mut Vec<u8>, byte: u8) -> Result<(), OutOfMemory>
    ensures { OnOk result (items.new.items ≡ items.old.items ++ digits_of byte) }
{
    items.push(digit_char(byte / 16))?;
    items.push(digit_char(byte % 16))?;
    Ok(())
}

// The byte that two hexadecimal digits write.
fn byte_of(word: &[u8]) -> Option<u8>
    ensures { result ≡ byte_of word.now }
{
    match word {
        [high, low] => Some(16 * digit_value(*high)? + digit_value(*low)?),
        _ => None,
    }
}

fn digit_value(byte: u8) -> Option<u8>
    ensures digit { IfSome result (λ value. (value ≡ digit_value byte) × (value < 16)) }
    ensures none { IfNone result (16 ≤ digit_value byte) }
{
    match byte {
        b'0'..=b'9' => Some(byte - b'0'),
        b'a'..=b'f' => Some(byte - b'a' + 10),
        b'A'..=b'F' => Some(byte - b'A' + 10),
        _ => None,
    }
}

fn digit_char(digit: u8) -> u8
    requires { digit < 16 }
    ensures { result ≡ digit_char digit }
{
    if digit < 10 {
        b'0' + digit
    } else {
        b'a' + (digit - 10)
    }
}
