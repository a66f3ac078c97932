//! A key as a line on a terminal can show it.

ghost use Rattle.std.specs.Prelude.{◌≡◌, ◌++◌, ◌<◌, IfOk, OnOk, length};
ghost use Rattle.soup_top.specs.ShownKeys.{begins_control, code_of, ends_control, hex_digit, is_high_control, is_low_control, shown_byte, shown_key};

use std::alloc::Global;
use tierra_model::{OutOfMemory, Text};

/// The key, with each control character as `\u` and four hexadecimal digits.
pub(crate) fn shown_key(alloc: Global, key: &Text) -> Result<Text, OutOfMemory>
    ensures { IfOk result (λ text. text ≡ shown_key key.now) }
{
    let key: &[u8] = &key.items;
    let mut items = Vec::new(alloc);
    for place in 0..key.len() {
        add_byte(&mut items, key, place)?;
    }
    Ok(Text { items })
}

fn add_byte(text: &mut Vec<u8>, key: &[u8], place: usize) -> Result<(), OutOfMemory>
    requires { place < length key.now }
    ensures { OnOk result (text.new.items ≡ text.old.items ++ shown_byte key.now place) }
{
    if begins_control(key, place) {
        return Ok(());
    }
    let byte = key[place];
    if ends_control(key, place) || is_low_control(byte) {
        return add_code(text, byte);
    }
    text.push(byte)?;
    Ok(())
}

// Whether the byte at the place is the first of a control character's two bytes.
fn begins_control(key: &[u8], place: usize) -> bool
    requires { place < length key.now }
    ensures { result ≡ begins_control key.now place }
{
    key[place] == 0xc2 && place + 1 < key.len() && is_high_control(key[place + 1])
}

// Whether the byte at the place is the second of a control character's two bytes.
fn ends_control(key: &[u8], place: usize) -> bool
    requires { place < length key.now }
    ensures { result ≡ ends_control key.now place }
{
    place > 0 && key[place - 1] == 0xc2 && is_high_control(key[place])
}

// Whether the byte is a control character by itself.
fn is_low_control(byte: u8) -> bool
    ensures { result ≡ is_low_control byte }
{
    byte < 0x20 || byte == 0x7f
}

// Whether the byte, after the byte 0xc2, makes a control character of two bytes.
fn is_high_control(byte: u8) -> bool
    ensures { result ≡ is_high_control byte }
{
    0x80 <= byte && byte <= 0x9f
}

fn add_code(text: &mut Vec<u8>, character: u8) -> Result<(), OutOfMemory>
    ensures { OnOk result (text.new.items ≡ text.old.items ++ code_of character) }
{
    text.extend_from_slice(b"\\u00")?;
    text.push(hex_digit(character / 16))?;
    text.push(hex_digit(character % 16))?;
    Ok(())
}

fn hex_digit(digit: u8) -> u8
    requires { digit < 16 }
    ensures { result ≡ hex_digit digit }
{
    if digit < 10 {
        b'0' + digit
    } else {
        b'A' + (digit - 10)
    }
}
