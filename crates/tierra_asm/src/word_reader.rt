//! The words of a text, in listings and in hex text.

ghost use Rattle.std.specs.Prelude.{◌≡◌, ◌<◌, length, IfNone, IfSome};
ghost use Rattle.std.specs.List.{position_or_len};
ghost use Rattle.tierra_asm.specs.Words.{
  words_from,
  words_of,
  is_line_feed,
  is_separator,
  ends_word,
  IsAtWord,
};

use std::marker::Model;

/// A word of a text, and the number of its line, counted from 1; any line after 4,294,967,295 gets that number.
#[derive(Clone, Copy, Debug)]
pub struct Word<'a> {
    pub line: u32,
    pub text: &'a str,
}

/// The words of a text that are left to read. A `;` begins a comment up to the next line feed or the end; outside of
/// comments, spaces, tabs, carriage returns and line feeds separate the words.
#[derive(Drop)]
pub struct Words<'a> {
    line: u32,
    rest: &'a str,
}

impl<'a> Model for Words<'a> {
    ghost use Rattle.std.specs.Prelude.{List};
    ghost use Rattle.tierra_asm.specs.Words.{PlacedWord, words_from};

    ghost Value = { List PlacedWord };

    ghost view = { λ words. words_from words.line words.rest.now };
}

impl<'a> Words<'a> {
    /// All words of a text.
    pub fn of(text: &'a str) -> Words<'a>
        ensures { result ≡ words_of text.now }
    {
        Words {
            line: 1,
            rest: text,
        }
    }
}

impl<'a> Iterator for Words<'a> {
    type Item = Word<'a>;

    ghost use Rattle.std.specs.Iterator.{YieldsFirstBy, item_count};
    ghost use Rattle.tierra_asm.specs.Words.{PlacedWord};

    ghost next_gives = { YieldsFirstBy (λ word. record { line = word.line; bytes = word.text.now }) (λ words. words) };

    ghost remaining = { item_count (λ words. words) };

    fn next(&mut self) -> Option<Word<'a>> {
        let (line, rest) = next_word(self.line, self.rest);
        let (text, rest) = rest.split_at(word_len(rest.as_bytes()));
        self.line = line;
        self.rest = rest;
        if text.is_empty() {
            return None;
        }
        Some(Word { line, text })
    }
}

// The text from its next word on, and the number of the line there.
fn next_word(mut line: u32, mut rest: &str) -> (u32, &str)
    ensures same { words_from result.0 result.1.now ≡ words_from line rest.entry.now }
    ensures at_word { IsAtWord result.1.now }
{
    while let Some((next_line, next_rest)) = after_blank(line, rest) {
        line = next_line;
        rest = next_rest;
    }
    (line, rest)
}

// The text after the separator, the line feed or the comment at its front, if there is one.
fn after_blank(line: u32, rest: &str) -> Option<(u32, &str)>
    ensures at_word { IfNone result (IsAtWord rest.now) }
    ensures same { IfSome result (λ after. words_from after.0 after.1.now ≡ words_from line rest.now) }
    ensures shorter { IfSome result (λ after. length after.1.now < length rest.now) }
{
    let bytes = rest.as_bytes();
    let first = *bytes.first()?;
    if first == b'\n' {
        Some((line.saturating_add(1), &rest[1..]))
    } else if is_separator(first) {
        Some((line, &rest[1..]))
    } else if first == b';' {
        Some((line, &rest[comment_len(bytes)..]))
    } else {
        None
    }
}

fn is_separator(byte: u8) -> bool
    ensures { result ≡ is_separator byte }
{
    matches!(byte, b' ' | b'\t' | b'\r')
}

// How many bytes come before the first line feed.
fn comment_len(bytes: &[u8]) -> usize
    ensures { result ≡ position_or_len is_line_feed bytes.now }
{
    bytes
        .iter()
        .position(|byte| *byte == b'\n')
        .unwrap_or(bytes.len())
}

// The length of the word at the front, or 0 if there is none.
fn word_len(bytes: &[u8]) -> usize
    ensures { result ≡ position_or_len ends_word bytes.now }
{
    bytes
        .iter()
        .position(|byte| is_separator(*byte) || matches!(byte, b'\n' | b';'))
        .unwrap_or(bytes.len())
}
