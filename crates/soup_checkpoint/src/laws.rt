//! What holds of checkpoint files, whoever reads them.

ghost use Rattle.std.specs.Prelude.{◌≡◌, ◌<◌, All, List, ℕ, Option, Result};
ghost use Rattle.tierra_model.specs.Setups.{SetupFields};
ghost use Rattle.soup_checkpoint.specs.Hold.{HoldSays};
ghost use Rattle.soup_checkpoint.specs.declared.faults.HoldFault.{HoldFault};

/// An image says at most one thing.
pub fn one_hold()
    ensures { (image : List ℕ) (setup : SetupFields) (a b : Result (Option (List ℕ)) HoldFault)
        → HoldSays image setup a → HoldSays image setup b → a ≡ b }
{}

/// Every image says something: the law above is that it says at most one thing, and this one that it says at least one.
pub fn always_says()
    ensures { (image : List ℕ) (setup : SetupFields) → All (λ b. b < 256) image
        → (r : Result (Option (List ℕ)) HoldFault) × HoldSays image setup r }
{}
