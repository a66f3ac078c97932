//! One birth or death.

/// A birth or a death, with the quantum in which it happened and the creature's birth number.
#[derive(Clone, Copy, Debug, Drop, PartialEq, Eq)]
pub enum Record {
    Birth { quantum: u64, id: u64 },
    Death { quantum: u64, id: u64 },
}

impl Record {
    ghost use Rattle.std.specs.Prelude.{◌≡◌};
    ghost use Rattle.run_log.specs.Records.{quantum_of};

    /// The quantum in which it happened.
    pub fn quantum(&self) -> u64
        ensures { result ≡ quantum_of self.now }
    {
        match self {
            Record::Birth { quantum, .. } => *quantum,
            Record::Death { quantum, .. } => *quantum,
        }
    }
}
