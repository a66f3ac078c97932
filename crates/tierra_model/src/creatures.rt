//! Creatures and their blocks.

ghost use Rattle.std.specs.Prelude.{◌≡◌, ◌<◌, ◌^◌};
ghost use Rattle.tierra_model.specs.declared.limits.TheConstants.{COUNT_END};
ghost use Rattle.tierra_model.specs.declared.events.Event.TheVariants as event;
ghost use Rattle.tierra_model.specs.Blocks.{is_in};
ghost use Rattle.tierra_model.specs.Events.{record_after};

/// A row of cells, from the cell `at` on.
#[derive(Clone, Copy, Drop, PartialEq, Eq, Debug)]
pub struct Block {
    pub at: u32,
    pub size: u32,
}

impl Block {
    /// Whether the cell is one of the block's.
    #[inline]
    pub fn contains(self, at: u32) -> bool
        ensures { result ≡ is_in self at }
    {
        self.at <= at && at - self.at < self.size
    }
}

/// A living creature: its blocks, its processor and its counts.
#[derive(Clone, Copy, Drop, PartialEq, Eq, Debug)]
pub struct Creature {
    /// Its birth number.
    pub id: u64,
    pub own: Block,
    pub daughter: Option<Block>,
    /// How many copies went into the daughter block.
    pub moved: u64,
    pub ax: i32,
    pub bx: i32,
    pub cx: i32,
    pub dx: i32,
    pub ip: u32,
    pub stack: [i32; 10],
    pub sp: u32,
    /// 1 after an instruction that erred, and 0 after any other.
    pub flag: u8,
    pub errors: u64,
    /// The number of its genotype.
    pub genotype: u64,
    /// How many instructions it ran since its birth or its last daughter.
    pub ran: u64,
    /// How many daughters it had.
    pub bred: u64,
}

// What the events of its own quantum do to its record.
impl Creature {
    /// It errs.
    pub fn err(&mut self)
        requires { self.old.errors < COUNT_END }
        ensures { self.new ≡ record_after event.Err self.old }
    {
        self.flag = 1;
        self.errors += 1;
    }

    /// It gives up its daughter block.
    pub fn give_up(&mut self)
        ensures { self.new ≡ record_after event.GiveUp self.old }
    {
        self.daughter = None;
        self.moved = 0;
    }

    /// It takes a daughter block.
    pub fn take(&mut self, block: Block)
        requires { block.at < 2 ^ 31 }
        ensures { self.new ≡ record_after (event.Mal block.at block.size) self.old }
    {
        self.daughter = Some(block);
        self.moved = 0;
        self.ax = block.at as i32;
    }

    /// Its daughter is born.
    pub fn bear(&mut self)
        requires { self.old.bred < COUNT_END }
        ensures { self.new ≡ record_after (event.Divide self.old.ran self.old.moved) self.old }
    {
        self.daughter = None;
        self.moved = 0;
        self.ran = 0;
        self.bred += 1;
    }
}

/// What a daughter cost her mother: the instructions that she ran and the cells that she copied.
#[derive(Clone, Copy, Drop, PartialEq, Eq, Debug)]
pub struct Effort {
    pub ran: u64,
    pub moved: u64,
}

/// What the reaper queue shows of a creature.
#[derive(Clone, Copy, Drop, PartialEq, Eq, Debug)]
pub struct Standing {
    pub id: u64,
    pub errors: u64,
    pub own: Block,
    pub daughter: Option<Block>,
}
