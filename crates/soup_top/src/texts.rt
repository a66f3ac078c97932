//! What some actions tell of a soup file.

ghost use Rattle.std.specs.Prelude.{◌≡◌, ◌≤◌, IfOk};
ghost use Rattle.tierra_model.specs.declared.limits.TheConstants.{MOST_QUANTA};
ghost use Rattle.tierra_model.specs.Serial.{serial};
ghost use Rattle.report_text.specs.Dump.{dump};
ghost use Rattle.soup_isles.specs.Runs.{isle_worlds};
ghost use Rattle.soup_isles.specs.Text.{isles_text};
ghost use Rattle.soup_words.specs.Orders.{IsInRange};

use report_text::dump;
use serial_slicer::run_serial;
use soup_isles::{isles_text, run_isles};
use soup_words::Order;
use std::alloc::{AllocError, Global};
use std::thread::Threads;
use tierra_model::{OutOfMemory, Setup, Text};

/// The dump of the world after this many quanta.
pub(crate) fn dump_after(alloc: Global, setup: &Setup, quanta: u64) -> Result<Text, OutOfMemory>
    requires { quanta ≤ MOST_QUANTA }
    ensures { IfOk result (λ text. text ≡ dump (serial setup.now quanta)) }
{
    let Ok(world) = run_serial(alloc, setup, quanta) else {
        return Err(AllocError);
    };
    match dump(alloc, &world) {
        Ok(text) => Ok(text),
        Err(_) => Err(AllocError),
    }
}

/// The text of isles at the end of the last epoch.
pub(crate) fn isles_after<R: Threads + Sync>(
    rt: &R,
    alloc: Global,
    setup: &Setup,
    order: Order,
) -> Result<Text, OutOfMemory>
    requires range { IsInRange order }
    ensures { IfOk result (λ text. text ≡ isles_text (isle_worlds setup.now order.isles order.epochs order.quanta)) }
{
    let isles = order.isles as u32;
    let Ok(worlds) = run_isles(
        rt,
        alloc,
        setup,
        isles,
        order.epochs,
        order.quanta,
        order.workers,
    ) else {
        return Err(AllocError);
    };
    match isles_text(alloc, &worlds) {
        Ok(text) => Ok(text),
        Err(_) => Err(AllocError),
    }
}
