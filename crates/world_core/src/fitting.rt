//! Shows that the numbers of a world fit the types that hold them, only by looking at each of them.

ghost use Rattle.std.specs.Int.{w32};
ghost use Rattle.std.specs.Prelude.{◌<◌, ◌^◌, All, FitsSigned};
ghost use Rattle.tierra_model.specs.Sound.{IsSound};
ghost use Rattle.byte_fields.specs.Writing.{IsLongEffort};
ghost use Rattle.world_state.specs.Restoring.{FitsTypes, HasLongNumbers, HasWords};
ghost use Rattle.world_state.specs.Savings.{savings_of};

use crate::running::Running;
use genotyper::Genotypes;
use tierra_model::{Creature, Effort};
use world_state::Saving;

/// A sound world fits.
pub(crate) fn world_fits(running: &Running)
    requires { IsSound running.now.world }
    ensures { FitsTypes running.now.world }
{
    running.words_fit();
    count_fits(running.reaper_len());
    genotypes_fit(running.genotypes());
    savings_fit(running.genes().savings());
    number_fits(running.kept());
}

// ---- creatures

/// The words of a creature's processor fit.
pub(crate) fn creature_fits(creature: &Creature)
    ensures { HasWords creature.now }
{
    word_fits(creature.ax);
    word_fits(creature.bx);
    word_fits(creature.cx);
    word_fits(creature.dx);
    words_fit(&creature.stack);
    byte_fits(creature.flag);
}

fn words_fit(words: &[i32])
    ensures { All (FitsSigned w32) words.now }
{
    for word in words {
        word_fits(*word);
    }
}

// ---- genotypes and savings

fn genotypes_fit(genotypes: &Genotypes)
    ensures { All HasLongNumbers genotypes.now.genotypes }
{
    for number in 0..genotypes.len() {
        number_fits(genotypes.first_quantum(number));
        effort_fits(genotypes.first_effort(number));
        effort_fits(genotypes.second_effort(number));
    }
}

fn savings_fit(saved: &[Saving])
    ensures { All (λ s. IsLongEffort s.first_effort × IsLongEffort s.second_effort) (savings_of saved.now) }
{
    for saving in saved {
        effort_fits(saving.first_effort);
        effort_fits(saving.second_effort);
    }
}

fn effort_fits(effort: Option<Effort>)
    ensures { IsLongEffort effort }
{
    if let Some(effort) = effort {
        number_fits(effort.ran);
        number_fits(effort.moved);
    }
}

// ---- numbers

fn word_fits(word: i32)
    ensures { FitsSigned w32 word }
{
    let _ = word;
}

fn byte_fits(byte: u8)
    ensures { byte < 2 ^ 8 }
{
    let _ = byte;
}

fn count_fits(count: u32)
    ensures { count < 2 ^ 32 }
{
    let _ = count;
}

fn number_fits(number: u64)
    ensures { number < 2 ^ 64 }
{
    let _ = number;
}
