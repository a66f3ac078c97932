//! What a checkpoint file holds, from its bytes.

ghost use Rattle.std.specs.Prelude.{◌≢◌, ◌<◌, ◌≤◌, List, ℕ, Err, Ok, IfErr, IfOk, IfSome, OnOk, length, slice_index};
ghost use Rattle.file_journal.specs.Files.{IsFresh, behind_header};
ghost use Rattle.soup_checkpoint.specs.Frames.{AreRead};
ghost use Rattle.soup_checkpoint.specs.Hold.{IsOwned, Says, title};
ghost use Rattle.soup_checkpoint.specs.Shelf.{IfHoldRefused, IsAtRest, IsOfFile, IsWorldOf, held_of};

use crate::faults::{HoldFault, ShelfFault};
use crate::frames::{Frames, after, piece, read_frames};
use crate::owner::Owner;
use file_journal::{HEADER_LEN, is_titled};
use std::alloc::Global;
use world_core::World;

/// The world that a file holds, if any, and the place of the closed gate after its frames.
#[derive(Drop)]
pub struct Held {
    pub world: Option<World>,
    pub gate: usize,
}

// Refuses a file that is not this owner's.
fn check_owner(image: &[u8], owner: &Owner) -> Result<(), HoldFault>
    requires long { 45 ≤ length image.now }
    requires not_fresh { IsFresh title image.now → ⊥ }
    ensures owned { OnOk result (IsOwned image.now owner.now.digest) }
    ensures refused { IfErr result (λ f. Says image.now owner.now (Err f) × IsOfFile f) }
{
    let header = owner.header();
    if !is_titled(&header.title, image) {
        return Err(HoldFault::NotAHold);
    }
    let wanted: &[u8] = &owner.digest;
    if piece(image, 12, 32) != wanted {
        return Err(HoldFault::Foreign);
    }
    Ok(())
}

// The frames of a file of this owner.
fn frames_in(image: &[u8], owner: &Owner) -> Result<Frames, HoldFault>
    requires long { 45 ≤ length image.now }
    requires owned { IsOwned image.now owner.now.digest }
    ensures read { IfOk result (λ f. (states : List (List ℕ)) × AreRead (behind_header image.now) f states) }
    ensures closed { IfOk result (λ f. slice_index (behind_header image.now) f.gate ≢ 1) }
    ensures refused { IfErr result (λ f. Says image.now owner.now (Err f) × IsOfFile f) }
{
    let _ = owner;
    match read_frames(after(image, HEADER_LEN - 1)) {
        Ok(frames) => Ok(frames),
        Err(frame) => Err(HoldFault::Damaged { frame }),
    }
}

// The world of the last frame.
fn world_in(
    alloc: Global,
    image: &[u8],
    owner: &Owner,
    frames: Frames,
) -> Result<Option<World>, ShelfFault>
    requires long { 45 ≤ length image.now }
    requires owned { IsOwned image.now owner.now.digest }
    requires read { (states : List (List ℕ)) × AreRead (behind_header image.now) frames states }
    requires closed { slice_index (behind_header image.now) frames.gate ≢ 1 }
    ensures held { IfOk result (λ o. Says image.now owner.now (Ok (held_of o))) }
    ensures world { IfOk result (λ o. IfSome o (IsWorldOf owner.now)) }
    ensures refused { IfErr result (λ e. IfHoldRefused e (λ f. Says image.now owner.now (Err f) × IsOfFile f)) }
    ensures no_disk { IfErr result (λ e. e ≢ ShelfFault.DiskFault) }
{
    let Some(span) = frames.last else {
        return Ok(None);
    };
    let state = piece(after(image, HEADER_LEN - 1), span.at, span.len);
    match World::restore(alloc, &owner.settings, state)? {
        Some(world) => Ok(Some(world)),
        None => Err(ShelfFault::Refused(HoldFault::Damaged {
            frame: frames.count - 1,
        })),
    }
}

/// What a file that is not fresh holds.
pub fn recover(alloc: Global, image: &[u8], owner: &Owner) -> Result<Held, ShelfFault>
    requires long { 45 ≤ length image.now }
    requires not_fresh { IsFresh title image.now → ⊥ }
    ensures held { IfOk result (λ h. Says image.now owner.now (Ok (held_of h.world))) }
    ensures world { IfOk result (λ h. IfSome h.world (IsWorldOf owner.now)) }
    ensures at_rest { IfOk result (λ h. IsAtRest owner.now h.gate image.now) }
    ensures inside { IfOk result (λ h. h.gate < length image.now) }
    ensures refused { IfErr result (λ e. IfHoldRefused e (λ f. Says image.now owner.now (Err f) × IsOfFile f)) }
    ensures no_disk { IfErr result (λ e. e ≢ ShelfFault.DiskFault) }
{
    check_owner(image, owner)?;
    let frames = frames_in(image, owner)?;
    let world = world_in(alloc, image, owner, frames)?;
    Ok(Held {
        world,
        gate: HEADER_LEN - 1 + frames.gate,
    })
}
