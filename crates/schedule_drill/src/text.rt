//! The text of a drill.

ghost use Rattle.std.specs.Prelude.{◌≡◌, ◌≤◌, ◌++◌, IfOk, OnOk, string_bytes};
ghost use Rattle.std.specs.Fmt.{decimal};
ghost use Rattle.commit_book.specs.Book.{world_of};
ghost use Rattle.report_text.specs.Dump.{state_line};
ghost use Rattle.schedule_drill.specs.Text.{drill_text, tally_text};
ghost use Rattle.tierra_model.specs.declared.limits.TheConstants.{MOST_QUANTA};

use crate::drill::{Played, play};
use crate::moves::moves_from;
use crate::tally::Tally;
use report_text::state_line;
use std::alloc::Global;
use std::fmt::Write;
use tierra_model::{OutOfMemory, Setup, Text};

/// Plays the schedule that the number stands for, and tells its tally and the digest of the world that it ends in.
pub fn drill_text(
    alloc: Global,
    setup: Setup,
    quanta: u64,
    number: u64,
) -> Result<Text, OutOfMemory>
    requires quanta { (1 ≤ quanta) × (quanta ≤ MOST_QUANTA) }
    ensures { IfOk result (λ text. text ≡ drill_text setup quanta number) }
{
    let moves = moves_from(alloc, number, quanta)?;
    let played = play(alloc, setup, quanta, &moves)?;
    played_text(alloc, quanta, &played)
}

fn played_text(alloc: Global, quanta: u64, played: &Played) -> Result<Text, OutOfMemory>
    ensures { IfOk result (λ text. text
        ≡ tally_text quanta played.now.tally ++ state_line (world_of played.now.book)) }
{
    let mut items = tally_text(alloc, quanta, &played.tally)?.into_bytes();
    items.extend_from_slice(&state_line(alloc, played.book.world())?.items)?;
    Ok(Text { items })
}

fn tally_text(alloc: Global, quanta: u64, tally: &Tally) -> Result<String, OutOfMemory>
    ensures { IfOk result (λ text. string_bytes text ≡ tally_text quanta tally.now) }
{
    let mut text = String::new(alloc);
    add_line(&mut text, "quanta ", quanta)?;
    add_line(&mut text, "\nfresh ", tally.fresh)?;
    add_line(&mut text, "\nmissing ", tally.missing)?;
    add_line(&mut text, "\nstale ", tally.stale)?;
    add_line(&mut text, "\nkept ", tally.kept)?;
    add_line(&mut text, "\ntwice ", tally.twice)?;
    add_line(&mut text, "\nlate ", tally.late)?;
    add_line(&mut text, "\nfull ", tally.full)?;
    add_line(&mut text, "\nidle ", tally.idle)?;
    text.push_str("\n")?;
    Ok(text)
}

fn add_line(text: &mut String, label: &str, count: u64) -> Result<(), OutOfMemory>
    ensures { OnOk result (string_bytes text.new ≡ string_bytes text.old ++ (label.now ++ decimal count)) }
{
    write!(text, "{label}{count}")
}
