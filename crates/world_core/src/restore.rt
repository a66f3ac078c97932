//! A world made again from its bytes.

ghost use Rattle.std.specs.Prelude.{◌≡◌, Err, IfNone, IfOk, IfSome, OnOk};
ghost use Rattle.tierra_model.specs.Sound.{IsSound};
ghost use Rattle.tierra_model.specs.World as worlds;
ghost use Rattle.world_state.specs.Restoring.{AreBytesOf, AreOfNoWorld};
ghost use Rattle.byte_fields.specs.declared.stop.Stop.TheVariants.{Malformed};

use crate::building::world_from;
use crate::world::World;
use std::alloc::{AllocError, Global};
use tierra_model::{OutOfMemory, Settings};
use world_state::{Draft, Stop, draft_of};

impl World {
    /// The sound world with these settings that has these state bytes, if there is one.
    pub fn restore(
        alloc: Global,
        settings: &Settings,
        bytes: &[u8],
    ) -> Result<Option<World>, OutOfMemory>
        ensures some { IfOk result (λ o. IfSome o (λ w. AreBytesOf settings.now bytes.now w.world)) }
        ensures none { IfOk result (λ o. IfNone o (AreOfNoWorld settings.now bytes.now)) }
    {
        match restored(alloc, settings, bytes) {
            Ok(world) => Ok(Some(world)),
            Err(Stop::Malformed) => Ok(None),
            Err(Stop::NoMemory) => Err(AllocError),
        }
    }
}

// The world that was read is written again, so that bytes are accepted only as a world writes them.
fn restored(alloc: Global, settings: &Settings, bytes: &[u8]) -> Result<World, Stop>
    ensures some { IfOk result (λ w. AreBytesOf settings.now bytes.now w.world) }
    ensures none { result ≡ Err Malformed → AreOfNoWorld settings.now bytes.now }
{
    let draft = sound_draft(alloc, settings, bytes)?;
    let world = world_from(alloc, draft)?;
    tells(alloc, &world, bytes)?;
    Ok(world)
}

// The world that the bytes spell, if they spell one that is sound.
fn sound_draft(alloc: Global, settings: &Settings, bytes: &[u8]) -> Result<Draft, Stop>
    ensures settings { IfOk result (λ d. d.settings ≡ settings.now) }
    ensures sound { IfOk result IsSound }
    ensures told { IfOk result (λ d. (w : worlds.World) → AreBytesOf settings.now bytes.now w → d ≡ w) }
    ensures none { result ≡ Err Malformed → AreOfNoWorld settings.now bytes.now }
{
    let draft = draft_of(alloc, settings, bytes)?;
    if draft.is_sound(alloc)? {
        Ok(draft)
    } else {
        Err(Stop::Malformed)
    }
}

// Ok if the bytes are those of the world.
fn tells(alloc: Global, world: &World, bytes: &[u8]) -> Result<(), Stop>
    ensures same { OnOk result (AreBytesOf world.now.world.settings bytes.now world.now.world) }
    ensures other { result ≡ Err Malformed → AreBytesOf world.now.world.settings bytes.now world.now.world → ⊥ }
{
    let code = world.state_bytes(alloc)?;
    if code.items.as_slice() == bytes {
        Ok(())
    } else {
        Err(Stop::Malformed)
    }
}
