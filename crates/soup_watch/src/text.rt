//! The text of sights.

ghost use Rattle.std.specs.Prelude.{◌≡◌, ◌++◌, IfOk, OnOk, string_bytes};
ghost use Rattle.std.specs.Fmt.{decimal};
ghost use Rattle.soup_watch.specs.Seeing.{NeverFalls};
ghost use Rattle.soup_watch.specs.Text.{count_line, head_line, sight_text, sights_text};

use crate::sight::{Count, Sight};
use crate::sights::Sights;
use genotyper::name_text;
use std::alloc::Global;
use std::fmt::Write;
use tierra_model::{OutOfMemory, Text};

/// A line for each sight, and after it a line for each of its genotypes.
pub fn sights_text(alloc: Global, sights: &Sights) -> Result<Text, OutOfMemory>
    ensures text { IfOk result (λ text. text ≡ sights_text sights.now.sights) }
    ensures order { NeverFalls sights.now.sights }
{
    let mut items = Vec::new(alloc);
    for sight in sights.items.iter() {
        add_sight(alloc, &mut items, sight)?;
    }
    Ok(Text { items })
}

fn add_sight(alloc: Global, text: &mut Vec<u8>, sight: &Sight) -> Result<(), OutOfMemory>
    ensures { OnOk result (text.new.items ≡ text.old.items ++ sight_text sight.now) }
{
    let mut head = String::new(alloc);
    add_head(&mut head, sight)?;
    text.extend_from_slice(head.as_bytes())?;
    for count in sight.counts.items.iter() {
        add_count(alloc, text, count)?;
    }
    Ok(())
}

// The line of a sight: what is seen of the world as a whole.
fn add_head(text: &mut String, sight: &Sight) -> Result<(), OutOfMemory>
    ensures { OnOk result (string_bytes text.new ≡ string_bytes text.old ++ head_line sight.now) }
{
    add_number(text, "sight quanta ", sight.quanta)?;
    add_number(text, " births ", sight.births)?;
    add_number(text, " deaths ", sight.deaths)?;
    add_number(text, " living ", sight.living)?;
    text.push_str("\n")?;
    Ok(())
}

fn add_number(text: &mut String, label: &str, number: u64) -> Result<(), OutOfMemory>
    ensures { OnOk result (string_bytes text.new ≡ string_bytes text.old ++ (label.now ++ decimal number)) }
{
    write!(text, "{label}{number}")
}

fn add_count(alloc: Global, text: &mut Vec<u8>, count: &Count) -> Result<(), OutOfMemory>
    ensures { OnOk result (text.new.items ≡ text.old.items ++ count_line count.now) }
{
    let end = format!(in alloc; " {} {}\n", count.living, count.total)?;
    text.extend_from_slice(&name_text(alloc, &count.name)?.items)?;
    text.extend_from_slice(end.as_bytes())
}
