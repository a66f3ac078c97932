//! Desks in memory, and the calls that they had.

ghost use Rattle.std.specs.Prelude.{IfOk};
ghost use Rattle.desk_io.specs.Desk.{HasNoFault};
ghost use Rattle.test_desks.specs.MemDesk.{state_of};

use std::alloc::{AllocError, Global};
use std::fmt::Write;
use std::test::Fail;
use test_desks::{Call, MemDesk};

/// A desk over a file, whose calls do not fail.
pub fn desk_over(alloc: Global, image: &[u8]) -> Result<MemDesk, Fail>
    ensures { IfOk result (λ desk. HasNoFault (state_of desk)) }
{
    let image = image.to_vec(alloc)?;
    Ok(MemDesk::new(alloc, image, Vec::new(alloc), Vec::new(alloc), None))
}

fn write_call(text: &mut String, call: &Call) -> Result<(), AllocError> {
    match call {
        Call::Len => write!(text, "len "),
        Call::Read { at, len } => write!(text, "read {len} at {at} "),
        Call::Write { at, piece } => write!(text, "write {} at {at} ", piece.items.len()),
        Call::TooLong { .. } => write!(text, "too long "),
        Call::Sync => write!(text, "sync "),
        Call::Tell { .. } => write!(text, "tell "),
    }
}

/// The calls that a desk had, as a text.
pub fn calls_of(alloc: Global, desk: &MemDesk) -> Result<String, Fail> {
    let mut text = String::new(alloc);
    for record in desk.calls() {
        write_call(&mut text, &record.call)?;
    }
    Ok(text)
}
