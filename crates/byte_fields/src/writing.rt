//! Fields appended to bytes. If memory runs out, some of a field's bytes may have been appended.

ghost use Rattle.std.specs.Prelude.{◌≡◌, ◌++◌, ◌<◌, ◌^◌, OnOk, length};
ghost use Rattle.byte_fields.specs.Writing.{IsLongEffort, effort_bytes, eight, four};

use std::alloc::AllocError;
use tierra_model::Effort;

/// A number in four bytes.
pub fn push_four(out: &mut Vec<u8>, number: u32) -> Result<(), AllocError>
    ensures { OnOk result (out.new.items ≡ out.old.items ++ four number) }
{
    out.extend_from_slice(&number.to_be_bytes())
}

/// Two numbers in four bytes each.
pub fn push_fours(out: &mut Vec<u8>, first: u32, second: u32) -> Result<(), AllocError>
    ensures { OnOk result (out.new.items ≡ out.old.items ++ (four first ++ four second)) }
{
    push_four(out, first)?;
    push_four(out, second)
}

/// A number in eight bytes.
pub fn push_eight(out: &mut Vec<u8>, number: u64) -> Result<(), AllocError>
    ensures { OnOk result (out.new.items ≡ out.old.items ++ eight number) }
{
    out.extend_from_slice(&number.to_be_bytes())
}

/// Two numbers in eight bytes each.
pub fn push_eights(out: &mut Vec<u8>, first: u64, second: u64) -> Result<(), AllocError>
    ensures { OnOk result (out.new.items ≡ out.old.items ++ (eight first ++ eight second)) }
{
    push_eight(out, first)?;
    push_eight(out, second)
}

/// Bytes after their number in four bytes.
pub fn push_sized(out: &mut Vec<u8>, bytes: &[u8]) -> Result<(), AllocError>
    requires { length bytes.now < 2 ^ 32 }
    ensures { OnOk result (out.new.items ≡ out.old.items ++ (four (length bytes.now) ++ bytes.now)) }
{
    push_four(out, bytes.len() as u32)?;
    out.extend_from_slice(bytes)
}

/// An effort, or none.
#[tactic(auto, unfolding(crate::specs::Writing::effort_bytes))]
pub fn push_effort(out: &mut Vec<u8>, effort: Option<Effort>) -> Result<(), AllocError>
    ensures bytes { OnOk result (out.new.items ≡ out.old.items ++ effort_bytes effort) }
    ensures long { IsLongEffort effort }
{
    match effort {
        Some(effort) => push_eights(out, effort.ran, effort.moved),
        None => push_eights(out, 0, 0),
    }
}

/// Two efforts.
pub fn push_efforts(
    out: &mut Vec<u8>,
    first: Option<Effort>,
    second: Option<Effort>,
) -> Result<(), AllocError>
    ensures bytes { OnOk result (out.new.items ≡ out.old.items ++ (effort_bytes first ++ effort_bytes second)) }
    ensures long { OnOk result (IsLongEffort first × IsLongEffort second) }
{
    push_effort(out, first)?;
    push_effort(out, second)
}
