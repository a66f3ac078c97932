//! A soup of 100 cells in which one creature runs.

ghost use Rattle.std.specs.Prelude.{◌≡◌, ◌<◌, IfOk, length, slice_index, IsTrue, EachIndex, ◌↔◌};

use std::alloc::{AllocError, Global};
use std::marker::Model;
use tierra_model::{Block, Creature, View};

#[derive(Drop)]
pub struct Flat {
    cells: Vec<u8>,
    own: Block,
    daughter: Option<Block>,
}

impl Model for Flat {
    ghost use Rattle.std.specs.Prelude.{◌≡◌, List, Option, vec_len, ℕ};
    ghost use Rattle.tierra_model.specs.declared.creatures.Block.{Block};

    // the cells, and the blocks that may be written
    ghost Value = { List ℕ × Block × Option Block };

    ghost view = { λ v. (v.cells.items, v.own, v.daughter) };

    ghost invariant = { λ v. vec_len v.cells ≡ 100 };
}

impl Flat {
    /// A soup of nop_0, in which the creature may write.
    pub fn new(alloc: Global, creature: &Creature) -> Result<Flat, AllocError>
        ensures own { IfOk result (λ v. v.1 ≡ creature.now.own) }
        ensures daughter { IfOk result (λ v. v.2 ≡ creature.now.daughter) }
    {
        Ok(Flat {
            cells: vec![in alloc; 0; 100]?,
            own: creature.own,
            daughter: creature.daughter,
        })
    }

    /// Puts the codes into the cells from `at` on.
    pub fn lay(&mut self, at: usize, codes: &[u8])
        ensures own { self.new.1 ≡ self.old.1 }
        ensures daughter { self.new.2 ≡ self.old.2 }
    {
        let mut at = at;
        for code in codes {
            self.put(at, *code);
            at = at.wrapping_add(1);
        }
    }

    fn put(&mut self, at: usize, code: u8)
        ensures own { self.new.1 ≡ self.old.1 }
        ensures daughter { self.new.2 ≡ self.old.2 }
    {
        self.cells[at % 100] = code;
    }

    /// What a cell holds.
    pub fn cell(&self, at: usize) -> u8 {
        self.cells[at % 100]
    }

    /// Whether each cell holds the code of an instruction.
    pub fn is_code(&self) -> bool
        ensures codes { IsTrue result ↔ EachIndex self.now.0 (λ p. slice_index self.now.0 p < 32) }
        ensures size { length self.now.0 ≡ 100 }
    {
        self.cells.iter().all(|cell| *cell < 32)
    }
}

impl View for Flat {
    ghost use Rattle.std.specs.Prelude.{◌||◌, length, slice_index, slice_set};
    ghost use Rattle.std.proofs.Common.{arith, get_or-set_other, length-set, refl};
    ghost use Rattle.std.proofs.lemmas.Grind.{get_or-set_at};
    ghost use Rattle.std.proofs.lemmas.Bool.Decides.{nat_tests};
    ghost use Rattle.tierra_model.specs.Blocks.{is_in, is_in_daughter};

    ghost size = { λ v. length v.0 };

    ghost cells = { λ v p. slice_index v.0 p };

    ghost writable = { λ v p. is_in v.1 p || is_in_daughter v.2 p };

    ghost looked = { λ v p. v };

    ghost written = { λ v p x. (slice_set v.0 p x, v.1, v.2) };

    ghost look_keeps_size = { λ v p. refl };

    ghost look_keeps_cells = { λ v p q. refl };

    ghost look_keeps_writable = { λ v p q. refl };

    ghost write_keeps_size = { λ v p x _ _ _. length-set v.0 p x };

    ghost write_sets_cell = { λ v p x q here _ _ there. Prim.grind
        (arith, nat_tests, get_or-set_at, get_or-set_other) };

    ghost write_keeps_writable = { λ v p x q _ _ _. refl };

    fn size(&self) -> u32 {
        self.cells.len() as u32
    }

    fn get(&mut self, at: u32) -> u8 {
        self.cells[at as usize]
    }

    fn may_write(&self, at: u32) -> bool {
        self.own.contains(at) || self.daughter.is_some_and(|block| block.contains(at))
    }

    fn set(&mut self, at: u32, value: u8) {
        self.cells[at as usize] = value;
    }
}
