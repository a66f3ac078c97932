//! Fields read from the front of bytes.

ghost use Rattle.byte_fields.specs.Reading.{Gives, byte_at, effort_at, efforts_at, eight_at, eights_at, four_at, fours_at, piece_at, sized_at};

use crate::stop::Stop;
use tierra_model::Effort;

/// A number in four bytes.
pub fn four_of(bytes: &[u8]) -> Result<(u32, &[u8]), Stop>
    ensures { Gives (λ x. (x.0, x.1.now)) result (four_at bytes.now) }
{
    if bytes.len() < 4 {
        return Err(Stop::Malformed);
    }
    let (front, rest) = bytes.split_at(4);
    let number = u32::from_be_bytes([front[0], front[1], front[2], front[3]]);
    Ok((number, rest))
}

/// A number in eight bytes.
pub fn eight_of(bytes: &[u8]) -> Result<(u64, &[u8]), Stop>
    ensures { Gives (λ x. (x.0, x.1.now)) result (eight_at bytes.now) }
{
    if bytes.len() < 8 {
        return Err(Stop::Malformed);
    }
    let (front, rest) = bytes.split_at(8);
    let number = u64::from_be_bytes([
        front[0], front[1], front[2], front[3], front[4], front[5], front[6], front[7],
    ]);
    Ok((number, rest))
}

/// The first `size` bytes.
pub fn piece_of(size: usize, bytes: &[u8]) -> Result<(&[u8], &[u8]), Stop>
    ensures { Gives (λ x. (x.0.now, x.1.now)) result (piece_at size bytes.now) }
{
    if bytes.len() < size {
        return Err(Stop::Malformed);
    }
    Ok(bytes.split_at(size))
}

/// A byte.
#[tactic(auto, unfolding(crate::specs::Reading::byte_at))]
pub fn byte_of(bytes: &[u8]) -> Result<(u8, &[u8]), Stop>
    ensures { Gives (λ x. (x.0, x.1.now)) result (byte_at bytes.now) }
{
    let (piece, rest) = piece_of(1, bytes)?;
    Ok((piece[0], rest))
}

/// Two numbers of four bytes.
#[tactic(auto, unfolding(crate::specs::Reading::fours_at))]
pub fn fours_of(bytes: &[u8]) -> Result<(u32, u32, &[u8]), Stop>
    ensures { Gives (λ x. ((x.0, x.1), x.2.now)) result (fours_at bytes.now) }
{
    let (first, rest) = four_of(bytes)?;
    let (second, rest) = four_of(rest)?;
    Ok((first, second, rest))
}

/// Two numbers of eight bytes.
#[tactic(auto, unfolding(crate::specs::Reading::eights_at))]
pub fn eights_of(bytes: &[u8]) -> Result<(u64, u64, &[u8]), Stop>
    ensures { Gives (λ x. ((x.0, x.1), x.2.now)) result (eights_at bytes.now) }
{
    let (first, rest) = eight_of(bytes)?;
    let (second, rest) = eight_of(rest)?;
    Ok((first, second, rest))
}

/// The bytes after their number in four bytes.
#[tactic(auto, unfolding(crate::specs::Reading::sized_at))]
pub fn sized_of(bytes: &[u8]) -> Result<(&[u8], &[u8]), Stop>
    ensures { Gives (λ x. (x.0.now, x.1.now)) result (sized_at bytes.now) }
{
    let (size, rest) = four_of(bytes)?;
    piece_of(size as usize, rest)
}

// An effort, or none.
#[tactic(auto, unfolding(crate::specs::Reading::effort_at))]
fn effort_of(bytes: &[u8]) -> Result<(Option<Effort>, &[u8]), Stop>
    ensures { Gives (λ x. (x.0, x.1.now)) result (effort_at bytes.now) }
{
    let (ran, moved, rest) = eights_of(bytes)?;
    match (ran, moved) {
        (0, 0) => Ok((None, rest)),
        (0, _) => Err(Stop::Malformed),
        _ => Ok((Some(Effort { ran, moved }), rest)),
    }
}

/// Two efforts.
#[tactic(auto, unfolding(crate::specs::Reading::efforts_at))]
pub fn efforts_of(bytes: &[u8]) -> Result<(Option<Effort>, Option<Effort>, &[u8]), Stop>
    ensures { Gives (λ x. ((x.0, x.1), x.2.now)) result (efforts_at bytes.now) }
{
    let (first, rest) = effort_of(bytes)?;
    let (second, rest) = effort_of(rest)?;
    Ok((first, second, rest))
}
