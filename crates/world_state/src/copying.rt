//! Copies of a code.

ghost use Rattle.std.specs.Prelude.{◌≡◌, IfOk};

use std::alloc::Global;
use tierra_model::{Code, OutOfMemory};

/// A copy of a code.
pub fn copied(alloc: Global, code: &Code) -> Result<Code, OutOfMemory>
    ensures { IfOk result (λ copy. copy ≡ code.now) }
{
    let items = code.items.to_vec(alloc)?;
    Ok(Code { items })
}
