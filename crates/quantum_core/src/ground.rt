//! What a quantum runs on.

ghost use Rattle.std.specs.Prelude.{◌≡◌, ◌+◌, ◌<◌, ◌≤◌, ℕ, IsSome, None, OnErr, OnOk, Option, Some, false, length, true};
ghost use Rattle.tierra_model.specs.declared.limits.TheConstants.{MOST_SIZE};
ghost use Rattle.tierra_model.specs.declared.events.Event.TheVariants as event;
ghost use Rattle.tierra_model.specs.Draw.{word};
ghost use Rattle.tierra_model.specs.Quantum.{Machine, flip, mal, victim};
ghost use Rattle.tierra_model.specs.Queue.{number_of_others};
ghost use Rattle.tierra_model.specs.Room.{room_for};
ghost use Rattle.mutation_streams.specs.Draws.{draws_of};
ghost use Rattle.quantum_core.specs.Acts.{IsLeft, step_in};
ghost use Rattle.quantum_core.specs.Frame.{Frame};

use mutation_streams::Draws;
use std::sync::ledger::Ledger;
use step_count::Steps;
use tierra_model::{Act, Block, Creature, OutOfMemory, Settings};

/// A world, or a scene that stands for one, in the middle of a quantum. The methods do what the operations of a machine
/// of the definitions do.
pub trait Ground {
    ghost State: { Type 0 };

    /// The machine whose operations these are.
    ghost machine: { Machine State };

    ghost state: { Self → State };

    /// The settings, the number of the quantum that runs, and which world is lent to the ground, if one is.
    ghost frame: { Self → Frame };

    /// There is room for this much more: an instruction takes 4, a background flip 1, a death nothing.
    ghost Ready: { Self → ℕ → Type 0 };

    /// What holds if memory was refused. For a ground that takes all its memory beforehand it is false.
    ghost Refusal: { Type 0 };

    /// The record of the creature that runs.
    fn front(&self) -> &Creature
        requires { Ready self.now 0 }
        ensures { result.now ≡ Machine.front machine (state self.now) };

    /// Where a daughter block of the size is to go, if there is room.
    fn room_for(&self, size: u32) -> Option<u32>
        requires ready { Ready self.now 0 }
        requires one { 1 ≤ size }
        requires few { size ≤ MOST_SIZE }
        ensures { result ≡ room_for (frame self.now).settings (Machine.owned machine (state self.now)) size };

    /// How many creatures are in the reaper queue.
    fn reaper_len(&self) -> u32
        requires { Ready self.now 0 }
        ensures { result ≡ length (Machine.reaper machine (state self.now)) };

    /// How many creatures other than the one that runs are in the reaper queue.
    fn others(&self) -> u32
        requires { Ready self.now 0 }
        ensures { let x = state self.now in
            result ≡ number_of_others (Machine.front machine x).id (Machine.reaper machine x) };

    /// The place in the reaper queue of the first creature other than the one that runs.
    fn victim(&mut self) -> Option<u32>
        requires { Ready self.old 0 }
        ensures victim { result ≡ victim machine (frame self.old).settings (state self.old) }
        ensures state { state self.new ≡ state self.old }
        ensures frame { frame self.new ≡ frame self.old }
        ensures ready { (n : ℕ) → Ready self.old n → Ready self.new n };

    // ---- what is asked

    /// Notes that the free cells are asked for.
    fn ask_free(&mut self)
        requires { Ready self.old 0 }
        ensures state { state self.new ≡ Machine.ask_free machine (state self.old) }
        ensures front { Machine.front machine (state self.new) ≡ Machine.front machine (state self.old) }
        ensures frame { frame self.new ≡ frame self.old }
        ensures ready { (n : ℕ) → Ready self.old n → Ready self.new n };

    /// Notes that the reaper queue is asked for.
    fn ask_reaper(&mut self)
        requires { Ready self.old 0 }
        ensures state { state self.new ≡ Machine.ask_reaper machine (state self.old) }
        ensures front { Machine.front machine (state self.new) ≡ Machine.front machine (state self.old) }
        ensures frame { frame self.new ≡ frame self.old }
        ensures ready { (n : ℕ) → Ready self.old n → Ready self.new n };

    // ---- what happens

    /// The background flip of a cell's bit.
    fn flip(&mut self, at: u32, bit: u8)
        requires ready { Ready self.old 1 }
        requires inside { at < (frame self.old).settings.soup_size }
        requires bit { bit < 5 }
        ensures state { state self.new ≡ flip machine (frame self.old).settings (Some (at, bit)) (state self.old) }
        ensures frame { frame self.new ≡ frame self.old }
        ensures ready { (n : ℕ) → Ready self.old (n + 1) → Ready self.new n };

    /// The step of instruction `i`: a write and an error are done, a `mal` and a divide are left. It ticks once.
    fn step<L: Ledger>(
        &mut self,
        draws: &mut Draws,
        i: u32,
        settings: &Settings,
        steps: &mut Steps<L>,
    ) -> Act
        requires ready { Ready self.old 1 }
        requires settings { settings.now ≡ (frame self.old).settings }
        requires draws { draws.old ≡ draws_of settings.now (frame self.old).quantum }
        ensures step { let draw = word settings.now.seed (frame self.old).quantum in
            step_in machine settings.now draw i (state self.old) ≡ (state self.new, result) }
        ensures draws { draws.new ≡ draws.old }
        ensures left { IsLeft (Machine.front machine (state self.new)) result }
        ensures frame { frame self.new ≡ frame self.old }
        ensures ready { (n : ℕ) → Ready self.old (n + 1) → Ready self.new n }
        ensures ticks { steps.new ≡ steps.old + 1 };

    /// The creature that runs errs.
    fn err(&mut self)
        requires { Ready self.old 1 }
        ensures state { state self.new ≡ Machine.apply machine (state self.old) event.Err }
        ensures frame { frame self.new ≡ frame self.old }
        ensures ready { (n : ℕ) → Ready self.old (n + 1) → Ready self.new n };

    /// It makes a good move in the reaper queue.
    fn good(&mut self)
        requires { Ready self.old 1 }
        ensures state { state self.new ≡ Machine.apply machine (state self.old) event.Good }
        ensures front { Machine.front machine (state self.new) ≡ Machine.front machine (state self.old) }
        ensures frame { frame self.new ≡ frame self.old }
        ensures ready { (n : ℕ) → Ready self.old (n + 1) → Ready self.new n };

    /// It gives up its daughter block.
    fn give_up(&mut self) -> Result<(), OutOfMemory>
        requires ready { Ready self.old 1 }
        requires held { IsSome (Machine.front machine (state self.old)).daughter }
        ensures state { OnOk result (state self.new ≡ Machine.apply machine (state self.old) event.GiveUp) }
        ensures none { OnOk result ((Machine.front machine (state self.new)).daughter ≡ None) }
        ensures frame { OnOk result (frame self.new ≡ frame self.old) }
        ensures ready { OnOk result ((n : ℕ) → Ready self.old (n + 1) → Ready self.new n) }
        ensures err { OnErr result Refusal };

    /// It takes a daughter block.
    fn take(&mut self, block: Block) -> Result<(), OutOfMemory>
        requires ready { Ready self.old 1 }
        requires none { (Machine.front machine (state self.old)).daughter ≡ None }
        requires one { 1 ≤ block.size }
        requires few { block.size ≤ MOST_SIZE }
        requires room { room_for (frame self.old).settings (Machine.owned machine (state self.old)) block.size
            ≡ Some block.at }
        ensures state { OnOk result (state self.new
            ≡ Machine.apply machine (state self.old) (event.Mal block.at block.size)) }
        ensures frame { OnOk result (frame self.new ≡ frame self.old) }
        ensures ready { OnOk result ((n : ℕ) → Ready self.old (n + 1) → Ready self.new n) }
        ensures err { OnErr result Refusal };

    /// A `mal` of this size is done if it gives up the daughter block and gets the very same block again, and if this
    /// ground can tell. Otherwise nothing is done.
    fn take_again(&mut self, size: u32) -> bool
        requires ready { Ready self.old 3 }
        requires one { 1 ≤ size }
        ensures done { result ≡ true → state self.new ≡ mal machine (frame self.old).settings size (state self.old) }
        ensures not { result ≡ false → state self.new ≡ state self.old }
        ensures frame { frame self.new ≡ frame self.old }
        ensures left { result ≡ true → (n : ℕ) → Ready self.old (n + 3) → Ready self.new n }
        ensures ready { result ≡ false → (n : ℕ) → Ready self.old n → Ready self.new n };

    /// The first creature of the reaper queue other than the one that runs, which stands at the place, dies.
    fn reap(&mut self, place: u32) -> Result<(), OutOfMemory>
        requires ready { Ready self.old 0 }
        requires victim { victim machine (frame self.old).settings (state self.old) ≡ Some place }
        ensures state { OnOk result (state self.new ≡ Machine.apply machine (state self.old) (event.Reap place)) }
        ensures front { OnOk result (Machine.front machine (state self.new) ≡ Machine.front machine (state self.old)) }
        ensures frame { OnOk result (frame self.new ≡ frame self.old) }
        ensures ready { OnOk result ((n : ℕ) → Ready self.old n → Ready self.new n) }
        ensures err { OnErr result Refusal };

    /// Its daughter is born.
    fn bear(&mut self) -> Result<(), OutOfMemory>
        requires ready { Ready self.old 2 }
        requires held { IsSome (Machine.front machine (state self.old)).daughter }
        requires ran { 1 ≤ (Machine.front machine (state self.old)).ran }
        ensures state { let mother = Machine.front machine (state self.old) in
            OnOk result (state self.new
            ≡ Machine.apply machine (state self.old) (event.Divide mother.ran mother.moved)) }
        ensures frame { OnOk result (frame self.new ≡ frame self.old) }
        ensures ready { OnOk result ((n : ℕ) → Ready self.old (n + 2) → Ready self.new n) }
        ensures err { OnErr result Refusal };

    /// A ground with room for more has room for less.
    ghost ready_fewer: { (g : Self) (m n : ℕ) → m ≤ n → Ready g n → Ready g m };
}
