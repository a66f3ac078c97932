//! What the lock reads of the value that it guards.

ghost use Rattle.std.specs.Prelude.{◌≡◌, ℕ, List};

/// A value that counts what was committed to it, in all and by each caller. Callers have the numbers from 1 to 64.
pub trait Kept {
    ghost use Rattle.tierra_model.specs.Setups.{SetupFields};

    // A setup, and a number beside it. No turn changes them.
    ghost setup: { Self → SetupFields × ℕ };

    ghost committed: { Self → ℕ };

    // 64 numbers: number c, counted from 1, is how many entries are by caller c.
    ghost entries: { Self → List ℕ };

    fn committed(&self) -> u64
        ensures { result ≡ committed self.now };
}
