//! What an instruction asks for, and what happens in a quantum.

/// What is left to do after an instruction changed its creature's record.
#[derive(Clone, Copy, Drop, PartialEq, Eq, Debug)]
pub enum Act {
    Plain,
    Wrote { at: u32, value: u8 },
    Erred,
    Mal { size: u32 },
    Divide,
}

/// A change of the world in a quantum.
#[derive(Clone, Copy, Drop, PartialEq, Eq, Debug)]
pub enum Event {
    /// A cell is set.
    Write { at: u32, value: u8 },
    /// An error is counted, and moves the creature up in the reaper queue.
    Err,
    /// A good move down in the reaper queue.
    Good,
    /// The daughter block is given up.
    GiveUp,
    /// A daughter block is taken.
    Mal { at: u32, size: u32 },
    /// The creature at a place of the reaper queue dies; place 0 is the top.
    Reap { place: u32 },
    /// The daughter is born; `ran` and `moved` are what she cost her mother.
    Divide { ran: u64, moved: u64 },
}
