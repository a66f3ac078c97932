//! The text of isles.

ghost use Rattle.std.specs.Prelude.{◌≡◌, ◌++◌, ◌<◌, ◌^◌, IfOk, OnOk, length};
ghost use Rattle.soup_isles.specs.Text.{isle_text, isles_text};

use crate::lists::WorldList;
use report_text::report;
use std::alloc::Global;
use tierra_model::{OutOfMemory, Text};

/// The number of each isle and the report of its world, in order.
#[tactic(auto, unfolding(crate::specs::Text::isles_text))]
pub fn isles_text(alloc: Global, worlds: &WorldList) -> Result<Text, OutOfMemory>
    ensures { IfOk result (λ text. text ≡ isles_text worlds.now) }
{
    let mut items = Vec::new(alloc);
    for place in 0..worlds.len() {
        add_isle(alloc, &mut items, worlds, place)?;
    }
    Ok(Text { items })
}

#[tactic(auto, unfolding(crate::specs::Text::isle_text))]
fn add_isle(
    alloc: Global,
    text: &mut Vec<u8>,
    worlds: &WorldList,
    place: usize,
) -> Result<(), OutOfMemory>
    requires place { place < length worlds.now }
    requires few { place < 2 ^ 63 }
    ensures { OnOk result (text.new.items ≡ text.old.items ++ isle_text worlds.now place) }
{
    let head = format!(in alloc; "isle {}\n", place as u64 + 1)?;
    text.extend_from_slice(head.as_bytes())?;
    text.extend_from_slice(&report(alloc, worlds.get(place))?.items)
}
