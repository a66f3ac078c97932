//! Frames: states with their lengths and digests, one after the other.

ghost use Rattle.std.specs.Prelude.{◌≡◌, ◌+◌, ◌<◌, ◌≤◌, ◌^◌, ◌↔◌, ◌++◌, ◌≢◌, ◌∷◌, [], List, ℕ, IfErr, IfNone, IfOk, IfSome, IsTrue, drop, length, slice_index, take};
ghost use Rattle.std.specs.Int.{to_be_bytes, w32};
ghost use Rattle.sha2.specs.Sha256.{sha256};
ghost use Rattle.soup_checkpoint.specs.Frames.{AreRead, BeginsWithFrame, BreaksAfter, NoFrame, spelling};

use sha2::{Digest, Sha256};
use std::alloc::{AllocError, Global};

/// A state has fewer bytes than this.
const LIMIT: usize = 1 << 31;

/// How many bytes a frame has besides its state: the length and the digest.
const FRAME_LEN: usize = 36;

/// An open gate. A gate of any other value is closed.
const OPEN: u8 = 1;

/// A frame's bytes.
#[tactic(auto, unfolding(crate::specs::Frames::spelling))]
pub fn frame_of(alloc: Global, state: &[u8]) -> Result<Vec<u8>, AllocError>
    requires { length state.now < 2 ^ 31 }
    ensures { IfOk result (λ bytes. bytes.items ≡ spelling state.now) }
{
    let mut bytes = Vec::new(alloc);
    bytes.extend_from_slice(&(state.len() as u32).to_be_bytes())?;
    bytes.extend_from_slice(state)?;
    bytes.extend_from_slice(Sha256::digest(state).as_slice())?;
    Ok(bytes)
}

// The length that the bytes begin with.
fn length_in(bytes: &[u8]) -> u32
    requires { 4 ≤ length bytes.now }
    ensures { to_be_bytes w32 result ≡ take 4 bytes.now }
{
    u32::from_be_bytes([bytes[0], bytes[1], bytes[2], bytes[3]])
}

/// The `len` bytes at a place.
pub fn piece(bytes: &[u8], at: usize, len: usize) -> &[u8]
    requires { at + len ≤ length bytes.now }
    ensures { result.now ≡ take len (drop at bytes.now) }
{
    &bytes[at..at + len]
}

fn is_digest_of(state: &[u8], digest: &[u8]) -> bool
    ensures { IsTrue result ↔ (digest.now ≡ sha256 state.now) }
{
    digest == Sha256::digest(state).as_slice()
}

// The length of the state in the frame at the start of the bytes, if there is such a frame and a next gate after it.
fn state_len(bytes: &[u8]) -> Option<usize>
    ensures found { IfSome result (λ n. BeginsWithFrame bytes.now n) }
    ensures none { IfNone result (NoFrame bytes.now) }
{
    if bytes.len() <= FRAME_LEN {
        return None;
    }
    let len = length_in(bytes) as usize;
    if len >= LIMIT || bytes.len() - FRAME_LEN <= len {
        return None;
    }
    let state = piece(bytes, 4, len);
    if !is_digest_of(state, piece(bytes, 4 + len, 32)) {
        return None;
    }
    Some(len)
}

/// The place of a state.
#[derive(Clone, Copy, Debug, Drop, PartialEq, Eq)]
pub struct Span {
    pub at: usize,
    pub len: usize,
}

/// Frames that were read: how many, the state of the last one, and the gate after it.
#[derive(Clone, Copy, Debug, Drop, PartialEq, Eq)]
pub struct Frames {
    pub count: u64,
    pub last: Option<Span>,
    pub gate: usize,
}

/// The bytes from a place on.
pub fn after(bytes: &[u8], len: usize) -> &[u8]
    requires { len ≤ length bytes.now }
    ensures { result.now ≡ drop len bytes.now }
{
    &bytes[len..]
}

// Reads one more frame, after the open gate.
fn next_frame(bytes: &[u8], frames: Frames) -> Option<Frames>
    requires inside { frames.gate < length bytes.now }
    requires count { frames.count ≤ frames.gate }
    ensures more { (states : List (List ℕ)) → AreRead bytes.now frames states → slice_index bytes.now frames.gate ≡ 1
        → IfSome result (λ f. (state : List ℕ) × AreRead bytes.now f (states ++ state ∷ [])) }
    ensures broken { (states : List (List ℕ)) → AreRead bytes.now frames states → slice_index bytes.now frames.gate ≡ 1
        → IfNone result (BreaksAfter bytes.now states) }
    ensures further { IfSome result (λ f. (frames.gate < f.gate) × (f.gate < length bytes.now)) }
    ensures one_more { IfSome result (λ f. f.count ≡ frames.count + 1) }
{
    let at = frames.gate + 1;
    let len = state_len(after(bytes, at))?;
    Some(Frames {
        count: frames.count + 1,
        last: Some(Span { at: at + 4, len }),
        gate: at + FRAME_LEN + len,
    })
}

/// Reads the frames after open gates, from the gate of frame 0 on. The error is the number of the first frame that is
/// not whole, or not as it was written.
pub fn read_frames(bytes: &[u8]) -> Result<Frames, u64>
    requires { 0 < length bytes.now }
    ensures read { IfOk result (λ f. (states : List (List ℕ)) × AreRead bytes.now f states) }
    ensures closed { IfOk result (λ f. slice_index bytes.now f.gate ≢ 1) }
    ensures broken { IfErr result (λ k. (states : List (List ℕ)) × BreaksAfter bytes.now states × (length states ≡ k)) }
{
    let mut frames = Frames {
        count: 0,
        last: None,
        gate: 0,
    };
    while bytes[frames.gate] == OPEN {
        let Some(more) = next_frame(bytes, frames) else {
            return Err(frames.count);
        };
        frames = more;
    }
    Ok(frames)
}
