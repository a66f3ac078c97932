//! A world of four cells, in which two creatures live.

use tierra_model::{Block, Creature, Now, Standing};

pub const FIRST_BLOCK: Block = Block { at: 0, size: 2 };

const SECOND_BLOCK: Block = Block { at: 3, size: 1 };

/// The blocks of the first 100 cells that neither creature has.
pub const FREE: [Block; 2] = [Block { at: 2, size: 1 }, Block { at: 4, size: 96 }];

/// The second creature stands above the first.
pub const YARD: [Standing; 2] = [
    Standing {
        id: 2,
        errors: 0,
        own: SECOND_BLOCK,
        daughter: None,
    },
    Standing {
        id: 1,
        errors: 0,
        own: FIRST_BLOCK,
        daughter: None,
    },
];

/// A creature that was just born.
pub fn newborn(id: u64, own: Block) -> Creature
    ensures { result ≡ newborn id own 0 }
{
    Creature {
        id,
        own,
        daughter: None,
        moved: 0,
        ax: 0,
        bx: 0,
        cx: 0,
        dx: 0,
        ip: own.at,
        stack: [0; 10],
        sp: 0,
        flag: 0,
        errors: 0,
        genotype: 0,
        ran: 0,
        bred: 0,
    }
}

ghost use Rattle.std.specs.Prelude.{◌≡◌};
ghost use Rattle.tierra_model.specs.Living.{newborn};

/// The world, with the creature at its front.
#[derive(Drop)]
pub struct Small {
    front: Creature,
    ghost first: { front ≡ newborn 1 (record { at = 0; size = 2 }) 0 },
}

impl Small {
    /// The small world before any change.
    pub fn new() -> Small {
        Small {
            front: newborn(1, FIRST_BLOCK),
        }
    }
}

impl Now for Small {
    ghost use Rattle.std.specs.Prelude.{◌∷◌, []};
    ghost use Rattle.tierra_model.specs.Living.{newborn};
    ghost use Rattle.tierra_model.proofs.Examples.{hundred};

    ghost world = { λ _. record {
      settings = hundred;
      soup = 9 ∷ 26 ∷ 0 ∷ 1 ∷ [];
      living = newborn 1 (record { at = 0; size = 2 }) 0 ∷ newborn 2 (record { at = 3; size = 1 }) 0 ∷ [];
      slicer = 1 ∷ 2 ∷ [];
      reaper = 2 ∷ 1 ∷ [];
      genotypes = [];
      saved = [];
      births = 0;
      deaths = 0;
      next_birth = 3;
      quanta = 0;
    } };

    fn cell(&self, at: u32) -> u8 {
        [9, 26, 0, 1][at as usize]
    }

    fn front(&self) -> &Creature {
        &self.front
    }

    fn free_len(&self) -> u32 {
        2
    }

    fn free_at(&self, place: u32) -> Block {
        FREE[place as usize]
    }

    fn yard_len(&self) -> u32 {
        2
    }

    fn standing(&self, place: u32) -> Standing {
        YARD[place as usize]
    }
}
