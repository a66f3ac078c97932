//! Errors, and the instructions that lead to a birth.

ghost use Rattle.std.specs.Prelude.{◌≡◌, ◌<◌, ◌^◌, if◌then◌else◌, IfNone, IfSome};
ghost use Rattle.std.specs.Option.{ForSome};
ghost use Rattle.tierra_model.specs.declared.limits.TheConstants.{COUNT_END};
ghost use Rattle.tierra_model.specs.Step.{mal_act, mal_request, may_divide};
ghost use Rattle.tierra_model.specs.declared.events.Event.TheVariants as event;
ghost use Rattle.tierra_model.specs.Events.{record_after};
ghost use Rattle.cpu_core.specs.Birth.{without_daughter};
ghost use Rattle.cpu_core.specs.Executing.{creature_after};

use divide_rules::{mal_bounds, may_divide};
use tierra_model::{Act, Block, Creature, Settings};

/// Counts an error.
pub fn fail(creature: &mut Creature) -> Act
    requires { creature.old.errors < COUNT_END }
    ensures creature { creature.new ≡ creature_after Act.Erred creature.old }
    ensures act { result ≡ Act.Erred }
{
    creature.err();
    Act::Erred
}

/// Asks for a daughter block of cx cells.
pub fn mal(creature: &mut Creature, settings: &Settings) -> Act
    requires { creature.old.errors < COUNT_END }
    ensures creature { creature.new ≡ creature_after result creature.old }
    ensures act { result ≡ mal_act (mal_request settings.now creature.old.own.size creature.old.cx) }
{
    match mal_bounds(creature.cx, creature.own.size, settings) {
        Some(size) => Act::Mal { size },
        None => fail(creature),
    }
}

/// Asks for the birth of the daughter.
pub fn divide(creature: &mut Creature, settings: &Settings) -> Act
    requires { creature.old.errors < COUNT_END }
    ensures creature { creature.new ≡ creature_after result creature.old }
    ensures act { result
        ≡ (if may_divide settings.now creature.old.daughter creature.old.moved then Act.Divide else Act.Erred) }
{
    if may_divide(creature.daughter, creature.moved, settings) {
        Act::Divide
    } else {
        fail(creature)
    }
}

/// Ends a `mal` for which the block was taken, or, with `None`, one that found no room.
///
/// A daughter block that was held before is given up.
pub fn mal_done(creature: &mut Creature, got: Option<Block>)
    requires errors { creature.old.errors < COUNT_END }
    requires inside { ForSome got (λ block. block.at < 2 ^ 31) }
    ensures taken { IfSome got (λ block. creature.new ≡ record_after (event.Mal block.at block.size) creature.old) }
    ensures none { IfNone got (creature.new ≡ record_after event.Err (without_daughter creature.old)) }
{
    match got {
        Some(block) => creature.take(block),
        None => {
            if creature.daughter.is_some() {
                creature.give_up();
            }
            creature.err();
        }
    }
}

/// Ends a `divide`: the daughter is a creature of its own.
pub fn divide_done(creature: &mut Creature)
    requires { creature.old.bred < COUNT_END }
    ensures { creature.new ≡ record_after (event.Divide creature.old.ran creature.old.moved) creature.old }
{
    creature.bear();
}
