//! What the genebank keeps.

use crate::creatures::Effort;
use crate::lists::Code;
use std::marker::Model;

/// The name of a genotype: its code's length, and its rank among the genotypes of that length.
#[derive(Clone, Copy, Drop, PartialEq, Eq, Debug)]
pub struct Name {
    pub size: u32,
    pub rank: u64,
}

/// The form of a group: one of form One has no efforts.
#[derive(Clone, Copy, Drop, PartialEq, Eq, Debug)]
pub enum Form {
    One,
    Two,
}

/// A genotype as it was saved. The parent is the genotype of its first individual's mother, or none if that individual
/// was inoculated. `first` is what the earliest first daughter of a mother of this genotype cost her, and `second` what
/// the earliest second daughter did, as known when the genotype was saved.
#[derive(Debug, Drop)]
pub struct Saved {
    pub name: Name,
    pub parent: Option<Name>,
    pub first: Option<Effort>,
    pub second: Option<Effort>,
    pub code: Code,
}

/// Saved genotypes, in the order of saving.
#[derive(Debug, Drop)]
pub struct SavedList {
    pub items: Vec<Saved>,
}

impl Model for SavedList {
    ghost use Rattle.std.specs.Prelude.{List};
    ghost use Rattle.tierra_model.specs.declared.genebank.Saved.{Saved};

    ghost Value = { List Saved };

    ghost view = { λ s. s.items.items };
}

/// All genotypes that one quantum saved. The type ensures that each is in the ranges of the genebank's file.
#[derive(Debug, Drop)]
pub struct Group {
    pub quantum: u64,
    pub form: Form,
    pub saved: SavedList,
}

impl Model for Group {
    ghost use Rattle.tierra_model.specs.Groups.{GroupFields, IsGroup};

    ghost Value = { GroupFields };

    ghost view = { λ g. record { quantum = g.quantum; form = g.form; saved = g.saved } };

    ghost invariant = { λ g. IsGroup (record { quantum = g.quantum; form = g.form; saved = g.saved }) };
}

/// Groups, by rising quantum.
#[derive(Debug, Drop)]
pub struct Groups {
    pub items: Vec<Group>,
}

impl Model for Groups {
    ghost use Rattle.std.specs.Prelude.{List};
    ghost use Rattle.tierra_model.specs.Groups.{GroupFields};

    ghost Value = { List GroupFields };

    ghost view = { λ g. g.items.items };
}
