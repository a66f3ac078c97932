//! Names of genotypes as texts: the size in at least four digits, and then letters for the rank.

ghost use Rattle.std.specs.Prelude.{◌≡◌, ◌++◌, ◌+◌, ◌-◌, ◌<◌, ◌≤◌, ◌^◌, All, IfOk, None, Ok, OnOk, Some, if◌then◌else◌, length, true};
ghost use Rattle.std.specs.Char.{is_ascii_lowercase};
ghost use Rattle.std.specs.List.{list_all};
ghost use Rattle.std.specs.Str.{all_ascii_digits};
ghost use Rattle.tierra_model.specs.declared.genebank.Name.{Name};
ghost use Rattle.tierra_model.specs.declared.limits.TheConstants.{COUNT_END};
ghost use Rattle.tierra_model.specs.Groups.{IsName};
ghost use Rattle.genotyper.specs.Names.{are_letters, digits_of, is_size, is_word, letters_of, name_in, name_text, rank_of, shorter_words, value_in, word};

use std::alloc::Global;
use thiserror::Error;
use tierra_model::{COUNT_END, MOST_SIZE, Name, OutOfMemory, Text};

/// What is wrong with a text that is no name. The digits are checked before the letters.
#[derive(Clone, Copy, Debug, Drop, PartialEq, Eq, Error)]
pub enum NameFault {
    #[error("the size of a genotype is wrong")]
    BadSize,
    #[error("the letters of a genotype are wrong")]
    BadLetters,
}

/// The text of a name, such as `0080aaa`.
#[tactic(auto, using(crate::proofs::Digits::size_is_written), unfolding(crate::specs::Names::name_text))]
pub fn name_text(alloc: Global, name: &Name) -> Result<Text, OutOfMemory>
    ensures { IfOk result (λ text. text ≡ name_text name.now) }
{
    let size = format!(in alloc; "{:04}", name.size)?;
    let mut items = size.into_bytes();
    push_letters(&mut items, name.rank)?;
    Ok(Text { items })
}

/// Appends the letters of a rank.
fn push_letters(items: &mut Vec<u8>, rank: u64) -> Result<(), OutOfMemory>
    ensures { OnOk result (items.new.items ≡ items.old.items ++ letters_of rank) }
{
    let mut left = rank;
    let mut letters = 3;
    let mut words = 17576;
    while words <= u128::from(left) {
        left -= words as u64;
        letters += 1;
        words *= 26;
    }
    push_word(items, letters, left)
}

/// Appends the word of this many letters that has this rank among all such words.
fn push_word(items: &mut Vec<u8>, letters: u32, rank: u64) -> Result<(), OutOfMemory>
    requires few { letters ≤ 14 }
    requires rank { rank < 26 ^ letters }
    ensures { OnOk result (items.new.items ≡ items.old.items ++ word letters rank) }
{
    let mut left = rank;
    for place in (0..letters).rev() {
        let unit = 26u64.pow(place);
        items.push(b'a' + (left / unit) as u8)?;
        left %= unit;
    }
    Ok(())
}

/// The name that a text spells. It takes no memory.
pub fn parse_name(text: &str) -> Result<Name, NameFault>
    ensures read { result ≡ name_in text.now }
    ensures is_text { IfOk result (λ name. IsName name × (text.now ≡ name_text name)) }
    ensures each { (name : Name) → IsName name → text.now ≡ name_text name → result ≡ Ok name }
{
    read_name(text.as_bytes())
}

#[tactic(auto, using(crate::proofs::Spelling::digits_come_first), unfolding(crate::specs::Names::name_in))]
fn read_name(text: &[u8]) -> Result<Name, NameFault>
    ensures { result ≡ name_in text.now }
{
    let (digits, rest) = text.split_at(digit_count(text));
    let Some(size) = size_in(digits) else {
        return Err(NameFault::BadSize);
    };
    let Some(rank) = rank_in(rest) else {
        return Err(NameFault::BadLetters);
    };
    Ok(Name { size, rank })
}

/// How many digits the bytes begin with.
fn digit_count(bytes: &[u8]) -> usize
    ensures { result ≡ length (digits_of bytes.now) }
{
    bytes.iter().take_while(|b| b.is_ascii_digit()).count()
}

#[tactic(auto, using(crate::proofs::Spelling::sizes))]
fn size_in(digits: &[u8]) -> Option<u32>
    requires { all_ascii_digits digits.now ≡ true }
    ensures { result ≡ (if is_size digits.now then Some (value_in 10 48 digits.now) else None) }
{
    if digits.len() < 4 || digits.len() > 5 {
        return None;
    }
    if digits.len() == 5 && digits[0] == b'0' {
        return None;
    }
    let size = value_in(10, b'0', digits);
    if 1 <= size && size <= u64::from(MOST_SIZE) {
        Some(size as u32)
    } else {
        None
    }
}

#[tactic(auto, using(crate::proofs::Spelling::word_fits))]
fn rank_in(bytes: &[u8]) -> Option<u64>
    ensures { result ≡ (if are_letters bytes.now then Some (rank_of bytes.now) else None) }
{
    if !is_word(bytes) {
        return None;
    }
    let rank = shorter_words(bytes.len() - 3) + value_in(26, b'a', bytes);
    if rank < COUNT_END { Some(rank) } else { None }
}

fn is_word(bytes: &[u8]) -> bool
    ensures { result ≡ is_word bytes.now }
{
    3 <= bytes.len() && bytes.len() <= 13 && are_lowercase(bytes)
}

fn are_lowercase(bytes: &[u8]) -> bool
    ensures { result ≡ list_all is_ascii_lowercase bytes.now }
{
    bytes.iter().all(|b| b.is_ascii_lowercase())
}

/// How many words have at least three letters, but fewer than `more + 3`.
fn shorter_words(more: usize) -> u64
    requires { more ≤ 10 }
    ensures value { result ≡ shorter_words more }
    ensures fits { result < COUNT_END }
{
    let mut all = 0;
    let mut words = 17576;
    for _ in 0..more {
        all += words;
        words *= 26;
    }
    all
}

/// The number that digits of the base write, where `first` is the digit 0.
fn value_in(base: u64, first: u8, digits: &[u8]) -> u64
    requires base { (0 < base) × (first + base ≤ 256) }
    requires digits { All (λ d. (first ≤ d) × (d < first + base)) digits.now }
    requires fits { base ^ length digits.now < 2 ^ 63 }
    ensures value { result ≡ value_in base first digits.now }
    ensures below { result < base ^ length digits.now }
{
    let mut value = 0;
    for digit in digits {
        value = value * base + u64::from(*digit - first);
    }
    value
}
