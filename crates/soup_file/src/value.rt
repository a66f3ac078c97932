//! What is read at a key of a table.

ghost use Rattle.std.specs.Prelude.{◌≡◌, ◌⊎◌, ◌≤◌, Err, IfErr, IfOk, None, Ok, OnOk, Some, find, not, option_copied, option_map, string_bytes, string_cmp};
ghost use Rattle.std.specs.List.Sorted.{IsStrictlySortedBy};
ghost use Rattle.std.specs.BTreeMap.{keys};
ghost use Rattle.toml.specs.Data.{get_member};
ghost use Rattle.toml.specs.View.{table_view, view};
ghost use Rattle.soup_file.specs.Keys.{bytes_in, flag_in, in_range, name_of, number_in, names_one_of, read_at, text_in, unknown_key};

use crate::fault::FileFault;
use crate::key::{Key, KeyFault, joined};
use hex::FromHex;
use std::alloc::Global;
use tierra_model::Number;
use toml::{Table, Value};

/// The value at a key.
pub(crate) fn look_up<'a>(table: &'a Table, key: Key) -> Option<&'a Value>
    ensures { option_map (λ v. view v.now) result ≡ get_member (name_of key) (table_view table.now) }
{
    table.get(key.name())
}

/// The number at a key, which must be in its range, or its default if the key is missing.
#[tactic(auto, unfolding(crate::specs::Keys::read_at))]
pub(crate) fn number_at(table: &Table, key: Key, number: Number) -> Result<u32, KeyFault>
    requires { (number.least ≤ number.default) × (number.default ≤ number.greatest) }
    ensures value { result
        ≡ read_at key (number_in key number.least number.greatest) (Ok number.default) (table_view table.now) }
    ensures range { IfOk result (λ n. (number.least ≤ n) × (n ≤ number.greatest)) }
{
    match look_up(table, key) {
        None => Ok(number.default),
        Some(value) => number_in(value, key, number.least, number.greatest),
    }
}

/// The number at a key, which must be there and in its range.
#[tactic(auto, unfolding(crate::specs::Keys::read_at))]
pub(crate) fn required_number_at(
    table: &Table,
    key: Key,
    low: u32,
    high: u32,
) -> Result<u32, KeyFault>
    ensures value { result ≡ read_at key (number_in key low high) (Err (KeyFault.Missing key)) (table_view table.now) }
    ensures range { IfOk result (λ n. (low ≤ n) × (n ≤ high)) }
{
    match look_up(table, key) {
        None => Err(KeyFault::Missing(key)),
        Some(value) => number_in(value, key, low, high),
    }
}

#[tactic(auto, unfolding(crate::specs::Keys::number_in))]
fn number_in(value: &Value, key: Key, low: u32, high: u32) -> Result<u32, KeyFault>
    ensures value { result ≡ number_in key low high (view value.now) }
    ensures range { IfOk result (λ n. (low ≤ n) × (n ≤ high)) }
{
    match value.as_integer() {
        Some(number) => in_range(key, low, high, number),
        None => Err(KeyFault::WrongKind(key)),
    }
}

fn in_range(key: Key, low: u32, high: u32, number: i64) -> Result<u32, KeyFault>
    ensures value { result ≡ in_range key low high number }
    ensures range { IfOk result (λ n. (low ≤ n) × (n ≤ high)) }
{
    if number < i64::from(low) || number > i64::from(high) {
        return Err(KeyFault::OutOfRange(key));
    }
    Ok(number as u32)
}

/// The truth value at a key, or the default.
#[tactic(auto, unfolding(crate::specs::Keys::read_at))]
pub(crate) fn flag_at(table: &Table, key: Key, default: bool) -> Result<bool, KeyFault>
    ensures { result ≡ read_at key (flag_in key) (Ok default) (table_view table.now) }
{
    match look_up(table, key) {
        None => Ok(default),
        Some(value) => value.as_bool().ok_or(KeyFault::WrongKind(key)),
    }
}

/// The 32 bytes whose digits are at a key, or the default.
#[tactic(auto, unfolding(crate::specs::Keys::read_at))]
pub(crate) fn bytes_at(table: &Table, key: Key, default: [u8; 32]) -> Result<[u8; 32], KeyFault>
    ensures { result ≡ read_at key (bytes_in key) (Ok default) (table_view table.now) }
{
    match look_up(table, key) {
        None => Ok(default),
        Some(value) => bytes_in(value, key),
    }
}

#[tactic(auto, unfolding(crate::specs::Keys::bytes_in))]
fn bytes_in(value: &Value, key: Key) -> Result<[u8; 32], KeyFault>
    ensures { result ≡ bytes_in key (view value.now) }
{
    let Some(text) = value.as_str() else {
        return Err(KeyFault::WrongKind(key));
    };
    match <[u8; 32] as FromHex>::from_hex(text) {
        Ok(bytes) => Ok(bytes),
        Err(_) => Err(KeyFault::OutOfRange(key)),
    }
}

/// The text at a key, which must be there.
#[tactic(auto, unfolding(crate::specs::Keys::read_at))]
pub(crate) fn text_at<'a>(table: &'a Table, key: Key) -> Result<&'a str, KeyFault>
    ensures text { IfOk result (λ text.
        read_at key (text_in key) (Err (KeyFault.Missing key)) (table_view table.now) ≡ Ok text.now) }
    ensures fault { IfErr result (λ fault.
        read_at key (text_in key) (Err (KeyFault.Missing key)) (table_view table.now) ≡ Err fault) }
{
    match look_up(table, key) {
        None => Err(KeyFault::Missing(key)),
        Some(value) => value.as_str().ok_or(KeyFault::WrongKind(key)),
    }
}

/// Checks that a table has only known keys. The fault names the least unknown key, with `before` as its prefix.
pub(crate) fn check_keys(
    alloc: Global,
    table: &Table,
    before: &str,
    known: &[Key],
) -> Result<(), FileFault>
    ensures passed { OnOk result (unknown_key before.now known.now (table_view table.now) ≡ None) }
    ensures fault { IfErr result (λ fault. (fault ≡ FileFault.OutOfMemory)
        ⊎ (unknown_key before.now known.now (table_view table.now) ≡ Some fault)) }
{
    match unknown_in(table, known) {
        None => Ok(()),
        Some(name) => Err(FileFault::UnknownKey {
            key: joined(alloc, before, name.as_str())?,
        }),
    }
}

fn unknown_in<'a>(table: &'a Table, known: &[Key]) -> Option<&'a String>
    ensures first { option_copied result
        ≡ find (λ name. not (names_one_of known.now (string_bytes name))) (keys table.now) }
    ensures ordered { IsStrictlySortedBy string_cmp (keys table.now) }
{
    table
        .keys()
        .find(|name| !names_one_of(known, name.as_str()))
}

#[tactic(auto, unfolding(crate::specs::Keys::names_one_of))]
fn names_one_of(keys: &[Key], name: &str) -> bool
    ensures { result ≡ names_one_of keys.now name.now }
{
    keys.iter().any(|key| name == key.name())
}
