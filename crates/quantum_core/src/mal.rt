//! Room for a daughter, and the deaths that make it.

ghost use Rattle.std.specs.Prelude.{◌≡◌, ◌+◌, ◌≤◌, ℕ, None, OnErr, OnOk, Some};
ghost use Rattle.tierra_model.specs.declared.limits.TheConstants.{MOST_SIZE};
ghost use Rattle.tierra_model.specs.Quantum.{Machine, give_up, make_room, mal, reap, take_block};
ghost use Rattle.tierra_model.specs.Queue.{number_of_others};
ghost use Rattle.tierra_model.specs.Room.{room_for};

use crate::ground::Ground;
use tierra_model::{Block, OutOfMemory};

/// A `mal` whose request passed: the daughter block is given up, others die until there is room, and a block is
/// taken.
pub(crate) fn mal<G: Ground>(ground: &mut G, size: u32) -> Result<(), OutOfMemory>
    requires ready { G.Ready ground.old 3 }
    requires one { 1 ≤ size }
    requires few { size ≤ MOST_SIZE }
    ensures state { OnOk result (G.state ground.new
        ≡ mal G.machine (G.frame ground.old).settings size (G.state ground.old)) }
    ensures frame { OnOk result (G.frame ground.new ≡ G.frame ground.old) }
    ensures ready { OnOk result ((n : ℕ) → G.Ready ground.old (n + 3) → G.Ready ground.new n) }
    ensures err { OnErr result G.Refusal }
{
    if ground.take_again(size) {
        return Ok(());
    }
    ground.ask_free();
    give_up(ground)?;
    make_room(ground, size)
}

// The daughter block is given up, if one is held.
fn give_up<G: Ground>(ground: &mut G) -> Result<(), OutOfMemory>
    requires { G.Ready ground.old 1 }
    ensures state { OnOk result (G.state ground.new
        ≡ give_up G.machine (G.frame ground.old).settings (G.state ground.old)) }
    ensures none { OnOk result ((Machine.front G.machine (G.state ground.new)).daughter ≡ None) }
    ensures frame { OnOk result (G.frame ground.new ≡ G.frame ground.old) }
    ensures ready { OnOk result ((n : ℕ) → G.Ready ground.old (n + 1) → G.Ready ground.new n) }
    ensures err { OnErr result G.Refusal }
{
    if ground.front().daughter.is_some() {
        return ground.give_up();
    }
    Ok(())
}

// Others die until there is room, and the block is taken; if nobody else is left and there is no room, the caller errs.
fn make_room<G: Ground>(ground: &mut G, size: u32) -> Result<(), OutOfMemory>
    requires ready { G.Ready ground.old 2 }
    requires none { (Machine.front G.machine (G.state ground.old)).daughter ≡ None }
    requires one { 1 ≤ size }
    requires few { size ≤ MOST_SIZE }
    ensures state { let x = G.state ground.old in
        let others = number_of_others (Machine.front G.machine x).id (Machine.reaper G.machine x) in
        OnOk result (G.state ground.new ≡ make_room G.machine (G.frame ground.old).settings size others x) }
    ensures frame { OnOk result (G.frame ground.new ≡ G.frame ground.old) }
    ensures ready { OnOk result ((n : ℕ) → G.Ready ground.old (n + 2) → G.Ready ground.new n) }
    ensures err { OnErr result G.Refusal }
{
    let others = ground.others();
    for _dead in 0..others {
        if let Some(at) = ground.room_for(size) {
            return take_block(ground, Block { at, size });
        }
        reap_first(ground)?;
    }
    match ground.room_for(size) {
        Some(at) => take_block(ground, Block { at, size }),
        None => {
            ground.ask_reaper();
            ground.err();
            Ok(())
        }
    }
}

// The block is taken, and the caller makes its good move.
fn take_block<G: Ground>(ground: &mut G, block: Block) -> Result<(), OutOfMemory>
    requires ready { G.Ready ground.old 2 }
    requires none { (Machine.front G.machine (G.state ground.old)).daughter ≡ None }
    requires one { 1 ≤ block.size }
    requires few { block.size ≤ MOST_SIZE }
    requires room { room_for (G.frame ground.old).settings (Machine.owned G.machine (G.state ground.old)) block.size
        ≡ Some block.at }
    ensures state { OnOk result (G.state ground.new
        ≡ take_block G.machine (G.frame ground.old).settings block.size block.at (G.state ground.old)) }
    ensures frame { OnOk result (G.frame ground.new ≡ G.frame ground.old) }
    ensures ready { OnOk result ((n : ℕ) → G.Ready ground.old (n + 2) → G.Ready ground.new n) }
    ensures err { OnErr result G.Refusal }
{
    ground.take(block)?;
    ground.good();
    Ok(())
}

// The first creature of the reaper queue other than the caller dies, if there is one.
fn reap_first<G: Ground>(ground: &mut G) -> Result<(), OutOfMemory>
    requires { G.Ready ground.old 0 }
    ensures state { OnOk result (G.state ground.new
        ≡ reap G.machine (G.frame ground.old).settings (G.state ground.old)) }
    ensures front { OnOk result (Machine.front G.machine (G.state ground.new)
        ≡ Machine.front G.machine (G.state ground.old)) }
    ensures frame { OnOk result (G.frame ground.new ≡ G.frame ground.old) }
    ensures ready { OnOk result ((n : ℕ) → G.Ready ground.old n → G.Ready ground.new n) }
    ensures err { OnErr result G.Refusal }
{
    ground.ask_reaper();
    match ground.victim() {
        Some(place) => ground.reap(place),
        None => Ok(()),
    }
}
