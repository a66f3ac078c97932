//! Lists of fields, read from the front of bytes.

ghost use Rattle.std.specs.Prelude.{List, Option, ℕ};
ghost use Rattle.byte_fields.specs.Reading.{Gives, counted_at, eight_at, four_at, list_at};

use crate::reading::{eight_of, four_of};
use crate::stop::Stop;
use std::alloc::Global;

/// What can be read from the front of bytes of the format `M`.
pub trait Field<M>: Sized {
    // the value that bytes begin with, and the bytes after it
    ghost at: { M → List ℕ → Option (Self × List ℕ) };

    fn read(alloc: Global, format: M, bytes: &[u8]) -> Result<(Self, &[u8]), Stop>
        ensures { Gives (λ x. (x.0, x.1.now)) result (at format bytes.now) };
}

/// A field read `count` times.
pub fn list_of<M: Copy + Drop, F: Field<M> + Drop>(
    alloc: Global,
    format: M,
    count: u64,
    bytes: &[u8],
) -> Result<(Vec<F>, &[u8]), Stop>
    ensures { Gives (λ x. (x.0.items, x.1.now)) result (list_at (F.at format) count bytes.now) }
{
    let mut list = Vec::new(alloc);
    let mut rest = bytes;
    for _ in 0..count {
        let (field, after) = F::read(alloc, format, rest)?;
        list.push(field)?;
        rest = after;
    }
    Ok((list, rest))
}

/// A list after its length in four bytes.
#[tactic(auto, unfolding(crate::specs::Reading::counted_at))]
pub fn counted_by_four<M: Copy + Drop, F: Field<M> + Drop>(
    alloc: Global,
    format: M,
    bytes: &[u8],
) -> Result<(Vec<F>, &[u8]), Stop>
    ensures { Gives (λ x. (x.0.items, x.1.now)) result (counted_at four_at (F.at format) bytes.now) }
{
    let (count, rest) = four_of(bytes)?;
    list_of(alloc, format, u64::from(count), rest)
}

/// A list after its length in eight bytes.
#[tactic(auto, unfolding(crate::specs::Reading::counted_at))]
pub fn counted_by_eight<M: Copy + Drop, F: Field<M> + Drop>(
    alloc: Global,
    format: M,
    bytes: &[u8],
) -> Result<(Vec<F>, &[u8]), Stop>
    ensures { Gives (λ x. (x.0.items, x.1.now)) result (counted_at eight_at (F.at format) bytes.now) }
{
    let (count, rest) = eight_of(bytes)?;
    list_of(alloc, format, count, rest)
}
