//! Lists that definitions compute with: contracts see each as a list.

ghost use Rattle.std.specs.Prelude.{◌==◌, List, ℕ};
ghost use Rattle.std.proofs.Common.{rules};
ghost use Rattle.std.specs.Hash as fed;
ghost use Rattle.std.specs.Cmp.Rules.{comparing, hashing};
ghost use Rattle.std.specs.Cmp.Lexicographic.{pointwise};

use crate::creatures::{Block, Standing};
use crate::events::Event;
use std::hash::{Hash, Hasher};
use std::marker::Model;

/// Bytes; a creature's are the codes of its cells.
#[derive(Debug, Drop)]
pub struct Code {
    pub items: Vec<u8>,
}

impl Model for Code {
    ghost Value = { List ℕ };

    ghost view = { λ c. c.items.items };
}

impl PartialEq for Code {
    ghost eq = { pointwise ◌==◌ };

    ghost laws = { Prim.search (comparing, rules) };

    fn eq(&self, other: &Code) -> bool {
        self.items == other.items
    }
}

impl Eq for Code {
    ghost laws = { Prim.search (comparing, rules) };
}

impl Hash for Code {
    ghost hash_input = { fed.slice fed.u8 };

    ghost respects_eq = { Prim.search (hashing, rules) };

    fn hash<H: Hasher>(&self, state: &mut H) {
        self.items.hash(state);
    }
}

/// A text, as its bytes of UTF-8.
#[derive(Debug, Drop)]
pub struct Text {
    pub items: Vec<u8>,
}

impl Model for Text {
    ghost Value = { List ℕ };

    ghost view = { λ t. t.items.items };
}

impl PartialEq for Text {
    ghost eq = { pointwise ◌==◌ };

    ghost laws = { Prim.search (comparing, rules) };

    fn eq(&self, other: &Text) -> bool {
        self.items == other.items
    }
}

impl Eq for Text {
    ghost laws = { Prim.search (comparing, rules) };
}

/// The free cells as runs, in order, none touching the next.
#[derive(Debug, Drop)]
pub struct FreeList {
    pub items: Vec<Block>,
}

impl Model for FreeList {
    ghost use Rattle.std.specs.Prelude.{List};
    ghost use Rattle.tierra_model.specs.declared.creatures.Block.{Block};

    ghost Value = { List Block };

    ghost view = { λ f. f.items.items };
}

/// The reaper queue, from the top.
#[derive(Debug, Drop)]
pub struct Yard {
    pub items: Vec<Standing>,
}

impl Model for Yard {
    ghost use Rattle.std.specs.Prelude.{List};
    ghost use Rattle.tierra_model.specs.declared.creatures.Standing.{Standing};

    ghost Value = { List Standing };

    ghost view = { λ y. y.items.items };
}

/// Events in the order in which they happened.
#[derive(Debug, Drop)]
pub struct EventList {
    pub items: Vec<Event>,
}

impl Model for EventList {
    ghost use Rattle.std.specs.Prelude.{List};
    ghost use Rattle.tierra_model.specs.declared.events.Event.{Event};

    ghost Value = { List Event };

    ghost view = { λ e. e.items.items };
}
