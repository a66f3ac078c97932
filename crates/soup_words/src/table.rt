//! The table of the actions.

ghost use Rattle.std.specs.Prelude.{◌≡◌, None, Some};
ghost use Rattle.soup_words.specs.Table.{action_named, plain_row, row_of, timed_row, to};

use crate::order::Action;
use std::marker::Model;
use tierra_model::{MOST_EPOCHS, MOST_ISLES, MOST_LOOKS, MOST_QUANTA, MOST_WORKERS};

/// The least and the greatest number of an option, if the action has it.
pub(crate) type Range = Option<(u64, u64)>;

/// The name of an action, and the options that it has.
#[derive(Drop)]
pub(crate) struct Row {
    pub(crate) name: &'static str,
    pub(crate) quanta: Range,
    pub(crate) workers: Range,
    pub(crate) number: Range,
    pub(crate) every: Range,
    pub(crate) looks: Range,
    pub(crate) isles: Range,
    pub(crate) epochs: Range,
}

impl Model for Row {
    ghost use Rattle.soup_words.specs.Table.{Row as RowOf};

    ghost Value = { RowOf };

    ghost view = { λ r. record {
      name = r.name.now;
      quanta = r.quanta;
      workers = r.workers;
      number = r.number;
      every = r.every;
      looks = r.looks;
      isles = r.isles;
      epochs = r.epochs;
    } };
}

const ACTIONS: [Action; 12] = [
    Action::Grow,
    Action::Run,
    Action::Asm,
    Action::Dis,
    Action::Bank,
    Action::Drill,
    Action::Dump,
    Action::Hold,
    Action::Curve,
    Action::Probe,
    Action::Watch,
    Action::Isles,
];

/// The row of an action.
#[tactic(auto, unfolding(crate::specs::Table::row_of))]
pub(crate) fn row_of(action: Action) -> Row
    ensures { result ≡ row_of action }
{
    match action {
        Action::Grow => Row {
            workers: to(u64::from(MOST_WORKERS)),
            ..timed("grow")
        },
        Action::Run => Row {
            workers: to(u64::from(MOST_WORKERS)),
            ..timed("run")
        },
        Action::Asm => plain("asm"),
        Action::Dis => plain("dis"),
        Action::Bank => plain("bank"),
        Action::Drill => Row {
            number: Some((0, u64::MAX)),
            ..timed("drill")
        },
        Action::Dump => timed("dump"),
        Action::Hold => Row {
            every: to(MOST_QUANTA),
            ..timed("hold")
        },
        Action::Curve => Row {
            every: to(MOST_QUANTA),
            ..timed("curve")
        },
        Action::Probe => Row {
            workers: to(u64::from(MOST_WORKERS)),
            ..timed("probe")
        },
        Action::Watch => Row {
            workers: to(u64::from(MOST_WORKERS) - 1),
            looks: to(u64::from(MOST_LOOKS)),
            ..timed("watch")
        },
        Action::Isles => Row {
            workers: to(u64::from(MOST_WORKERS)),
            isles: to(u64::from(MOST_ISLES)),
            epochs: to(u64::from(MOST_EPOCHS)),
            ..timed("isles")
        },
    }
}

fn to(most: u64) -> Range
    ensures { result ≡ to most }
{
    Some((1, most))
}

/// An action with no option.
fn plain(name: &'static str) -> Row
    ensures { result ≡ plain_row name.now }
{
    Row {
        name,
        quanta: None,
        workers: None,
        number: None,
        every: None,
        looks: None,
        isles: None,
        epochs: None,
    }
}

/// An action that takes quanta.
fn timed(name: &'static str) -> Row
    ensures { result ≡ timed_row name.now }
{
    Row {
        quanta: to(MOST_QUANTA),
        ..plain(name)
    }
}

/// The action with this name.
#[tactic(auto, unfolding(crate::specs::Table::action_named))]
pub(crate) fn action_named(text: &str) -> Option<Action>
    ensures { result ≡ action_named text.now }
{
    ACTIONS
        .iter()
        .copied()
        .find(|action| text == row_of(*action).name)
}
