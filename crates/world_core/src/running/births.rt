//! Blocks for daughters, and births.

ghost use Rattle.std.specs.Prelude.{All, ◌≡◌, ◌+◌, ◌<◌, ◌≤◌, ◌^◌, IfSome, OnOk, length, slice_range};
ghost use Rattle.tierra_model.specs.declared.events.Event.TheVariants as event;
ghost use Rattle.tierra_model.specs.Events.{apply_event};
ghost use Rattle.tierra_model.specs.Living.{newborn};
ghost use Rattle.tierra_model.specs.Replay.{CanHappen};
ghost use Rattle.tierra_model.specs.World.{front};
ghost use Rattle.tierra_model.specs.Serial.{overwrite};
ghost use Rattle.world_core.specs.Starting.{CanInoculate, inoculated};
ghost use Rattle.world_core.specs.Running.{IsRunning, KeepsReady};

use crate::running::Running;
use soup_cells::Soup;
use tierra_model::{Block, Code, Creature, Effort, OutOfMemory};

impl Running {
    /// Puts a creature's code into the soup, and the creature into the world.
    pub(crate) fn inoculate(&mut self, at: u32, code: Code) -> Result<(), OutOfMemory>
        requires can { CanInoculate self.old.world at code }
        requires births { 0 < self.old.births }
        requires blocks { 0 < self.old.blocks }
        ensures { OnOk result (self.new.world ≡ inoculated self.old.world at code) }
    {
        write_code(&mut self.soup, at, &code)?;
        let block = Block {
            at,
            size: code.items.len() as u32,
        };
        self.blocks.take(block);
        let save_at = u64::from(self.settings.save_at);
        let genotype = self.genes.note_birth(code, None, 0, save_at);
        self.population
            .enter(newborn(self.next_birth, block, genotype));
        self.census.born(genotype);
        self.next_birth += 1;
        Ok(())
    }

    /// It takes a daughter block.
    pub fn mal(&mut self, block: Block)
        requires within { IsRunning self.old.world }
        requires can { CanHappen self.old.world (event.Mal block.at block.size) }
        requires room { 0 < self.old.blocks }
        ensures world { self.new.world ≡ apply_event self.old.world (event.Mal block.at block.size) }
        ensures ready { KeepsReady self.old self.new }
        ensures births { self.new.births ≡ self.old.births }
        ensures blocks { self.old.blocks ≤ self.new.blocks + 1 }
    {
        let mut creature = *self.population.front();
        creature.take(block);
        self.blocks.take(block);
        self.population.put(&creature);
    }

    /// It gives up its daughter block.
    pub fn give_up(&mut self)
        requires within { IsRunning self.old.world }
        requires can { CanHappen self.old.world event.GiveUp }
        requires room { 0 < self.old.blocks }
        ensures world { self.new.world ≡ apply_event self.old.world event.GiveUp }
        ensures ready { KeepsReady self.old self.new }
        ensures births { self.new.births ≡ self.old.births }
        ensures blocks { self.old.blocks ≤ self.new.blocks + 1 }
    {
        let mut creature = *self.population.front();
        let block = creature.daughter.unwrap();
        creature.give_up();
        self.blocks.give_back(block);
        self.population.put(&creature);
    }

    /// Its daughter is born, at the cost of `ran` and `moved`; `code` is what the daughter block holds.
    pub fn divide(&mut self, ran: u64, moved: u64, code: Code)
        requires within { IsRunning self.old.world }
        requires can { CanHappen self.old.world (event.Divide ran moved) }
        requires code { IfSome (front self.old.world).daughter (λ b. code
            ≡ slice_range self.old.world.soup b.at (b.at + b.size)) }
        requires room { 0 < self.old.births }
        ensures world { self.new.world ≡ apply_event self.old.world (event.Divide ran moved) }
        ensures ready { KeepsReady self.old self.new }
        ensures births { self.old.births ≤ self.new.births + 1 }
        ensures blocks { self.new.blocks ≡ self.old.blocks }
    {
        let mut mother = *self.population.front();
        let block = mother.daughter.unwrap();
        self.genes
            .note_effort(mother.genotype, mother.bred + 1, Effort { ran, moved });
        let q = self.quanta + 1;
        let save_at = u64::from(self.settings.save_at);
        let genotype = self
            .genes
            .note_birth(code, Some(mother.genotype), q, save_at);
        self.population
            .enter(newborn(self.next_birth, block, genotype));
        self.census.born(genotype);
        mother.bear();
        self.population.put(&mother);
        self.births += 1;
        self.next_birth += 1;
    }
}

// Puts a code into the soup.
fn write_code(soup: &mut Soup, at: u32, code: &Code) -> Result<(), OutOfMemory>
    requires lies { at + length code.now ≤ length soup.old.cells }
    requires small { length soup.old.cells < 2 ^ 32 }
    requires codes { All (λ v. v < 32) code.now }
    ensures { OnOk result (soup.new.cells ≡ overwrite soup.old.cells at code.now) }
{
    for (i, value) in code.items.iter().enumerate() {
        let place = at + i as u32;
        soup.ready(place)?;
        soup.set(place, *value);
    }
    Ok(())
}

// A creature that begins its life.
fn newborn(id: u64, own: Block, genotype: u64) -> Creature
    ensures { result ≡ newborn id own genotype }
{
    Creature {
        id,
        own,
        daughter: None,
        moved: 0,
        ax: 0,
        bx: 0,
        cx: 0,
        dx: 0,
        ip: own.at,
        stack: [0; 10],
        sp: 0,
        flag: 0,
        errors: 0,
        genotype,
        ran: 0,
        bred: 0,
    }
}
