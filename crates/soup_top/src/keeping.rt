//! Takes a run's groups to its bank, and tells the lines of each once the bank has it.

ghost use Rattle.std.specs.Prelude.{◌≡◌, ◌↔◌, ◌<◌, ◌≤◌, IfErr, IfOk, IfSome, IsTrue, MatchOption, Some, length, slice_get};
ghost use Rattle.desk_io.specs.Desk.{Elapses, HasNoFault, KeepsDisk, Tells, TellsText, UsesDisk};
ghost use Rattle.bank_journal.specs.Bank.{Appends, HasBeforeOrAfter, IsAttached};
ghost use Rattle.bank_journal.specs.Steps.{IfTold};
ghost use Rattle.tierra_model.specs.Genebank.{GroupFits};
ghost use Rattle.tierra_model.specs.Groups.{GroupFields};
ghost use Rattle.soup_top.specs.Keeping.{DiffersAt, IsTaking, Takes, group_lines};
ghost use Rattle.soup_top.specs.Stops.{CountsStops, IfDiffers, IfHoldRefused, IfRefused};

use crate::fits::fits;
use crate::stop::RunStop;
use bank_journal::Bank;
use bank_recover::BankFault;
use desk_io::Desk;
use report_text::saved_line;
use std::alloc::Global;
use tierra_model::Group;

// Tells the lines of a group, one tell each.
fn tell_group<D: Desk>(alloc: Global, desk: &mut D, group: &Group) -> Result<(), RunStop>
    requires sound { HasNoFault (D.state desk.old) }
    ensures tells { Tells (D.state desk.old) (D.state desk.new) (group_lines group.now) result }
    ensures refused { IfErr result (λ s. IfRefused s (λ f. ⊥)) }
    ensures of_bank { IfErr result (λ s. IfHoldRefused s (λ f. ⊥)) }
    ensures counts { CountsStops result (D.state desk.new) }
{
    for saved in group.saved.items.iter() {
        let line = saved_line(alloc, saved, group.quantum)?;
        desk.tell(&line.items)?;
    }
    Ok(())
}

// Appends a run's group to the bank.
fn append_group<D: Desk>(desk: &mut D, bank: Bank, group: Group) -> Result<Bank, RunStop>
    requires attached { IsAttached bank (D.state desk.old) }
    ensures appended { IfOk result (Appends bank group (D.state desk.old) (D.state desk.new)) }
    ensures refused { IfErr result (λ s. IfRefused s (λ f. ⊥)) }
    ensures of_bank { IfErr result (λ s. IfHoldRefused s (λ f. ⊥)) }
    ensures moments { UsesDisk (D.state desk.old) (D.state desk.new)
        (IfTold (D.state desk.old) (λ file. HasBeforeOrAfter bank.digest bank.groups group)) }
    ensures counts { CountsStops result (D.state desk.new) }
{
    let mut bank = bank;
    bank.make_room(&group)?;
    Ok(bank.append(desk, group)?)
}

// Whether the bank's group of this number fits the run's, where the bank has one.
fn fits_at(bank: &Bank, number: usize, group: &Group) -> Option<bool>
    ensures { MatchOption result (length bank.now.groups ≤ number) (λ fits. (d : GroupFields)
        × (slice_get bank.now.groups number ≡ Some d)
        × (IsTrue fits ↔ GroupFits d group.now)) }
{
    let kept = bank.groups().get(number)?;
    Some(fits(kept, group))
}

// Checks that the bank's group of this number fits the run's, or appends the run's where the bank has none.
fn keep_group<D: Desk>(
    desk: &mut D,
    bank: Bank,
    number: usize,
    group: Group,
) -> Result<Bank, RunStop>
    requires attached { IsAttached bank (D.state desk.old) }
    requires inside { number ≤ length bank.groups }
    ensures taken { IfOk result (Takes bank number group (D.state desk.old) (D.state desk.new)) }
    ensures differs { IfErr result (λ s. IfDiffers s (λ k. (k ≡ number) × DiffersAt bank.groups number group)) }
    ensures untouched { number < length bank.groups → desk.new ≡ desk.old }
    ensures moments { UsesDisk (D.state desk.old) (D.state desk.new)
        (IfTold (D.state desk.old) (λ file. HasBeforeOrAfter bank.digest bank.groups group)) }
    ensures counts { CountsStops result (D.state desk.new) }
{
    match fits_at(&bank, number, &group) {
        Some(true) => Ok(bank),
        Some(false) => {
            let group = number as u64;
            Err(RunStop::Refused(BankFault::Differs { group }))
        }
        None => append_group(desk, bank, group),
    }
}

/// Takes the run's group of this number to the bank, and then tells its lines.
pub(crate) fn take_group<D: Desk>(
    alloc: Global,
    desk: &mut D,
    bank: Bank,
    number: usize,
    group: Group,
) -> Result<Bank, RunStop>
    requires attached { IsAttached bank (D.state desk.old) }
    requires inside { number ≤ length bank.groups }
    ensures taken { IfOk result (Takes bank number group (D.state desk.old) (D.state desk.new)) }
    ensures differs { IfErr result
        (λ s. IfDiffers s (λ k. (k ≡ number) × DiffersAt bank.groups number group
        × ((D.state desk.new).told ≡ (D.state desk.old).told))) }
    ensures kept { number < length bank.groups → KeepsDisk (D.state desk.old) (D.state desk.new) }
    ensures moments { IfSome (D.state desk.old).reads
        (λ file. Elapses (D.state desk.old) (D.state desk.new)
        (IsTaking bank.digest bank.groups number group (D.state desk.old).told)) }
    ensures told { TellsText (D.state desk.old) (D.state desk.new) (group_lines group) result }
    ensures counts { CountsStops result (D.state desk.new) }
{
    let bank = keep_group(desk, bank, number, group)?;
    tell_group(alloc, desk, &bank.groups()[number])?;
    Ok(bank)
}
