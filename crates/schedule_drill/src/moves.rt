//! The moves of a schedule.

ghost use Rattle.std.specs.Prelude.{◌≡◌, ◌<◌, All, IfOk};
ghost use Rattle.schedule_drill.specs.Moves.{IsOfHand, hand_of, move_of, moves_from, seed_of};

use rand_chacha::ChaCha8Rng;
use rand_core::SeedableRng;
use rand_core::utils::NextWord;
use std::alloc::Global;
use std::marker::Model;
use tierra_model::OutOfMemory;

/// A move of one of the four hands, which are numbered from 1. A hand holds at most one finding.
#[derive(Clone, Copy, Debug, Drop, PartialEq, Eq)]
pub enum Move {
    /// Claims a job and runs it, where the hand is empty.
    Claim { hand: u32 },
    /// Offers the finding that the hand holds.
    Offer { hand: u32 },
    /// Offers a copy of it, and keeps it.
    Repeat { hand: u32 },
    /// Drops it.
    Lose { hand: u32 },
    /// Advances the book by one quantum.
    Advance { hand: u32 },
}

/// The moves of a schedule, in order.
#[derive(Debug, Drop)]
pub struct MoveList {
    pub items: Vec<Move>,
}

impl Model for MoveList {
    ghost use Rattle.std.specs.Prelude.{List};
    ghost use Rattle.schedule_drill.specs.declared.moves.Move.{Move};

    ghost Value = { List Move };

    ghost view = { λ m. m.items.items };
}

/// Moves are made for this many quanta at most.
const MOST_QUANTA: u64 = 100_000;

/// The moves that a number stands for: four for each quantum, each of one of the four hands.
#[tactic(auto, unfolding(tierra_model::specs::Draw::word))]
pub fn moves_from(alloc: Global, number: u64, quanta: u64) -> Result<MoveList, OutOfMemory>
    ensures moves { IfOk result (λ m. m ≡ moves_from number quanta) }
    ensures hands { IfOk result (λ m. All IsOfHand m) }
{
    let mut rng = ChaCha8Rng::from_seed(seed_of(number));
    let mut items = Vec::new(alloc);
    for _place in 0..4 * quanta.min(MOST_QUANTA) {
        items.push(move_of(rng.next_word()))?;
    }
    Ok(MoveList { items })
}

// The number in eight bytes, and 24 bytes of 0.
fn seed_of(number: u64) -> [u8; 32]
    ensures { result ≡ seed_of number }
{
    let mut seed = [0; 32];
    seed[..8].copy_from_slice(&number.to_be_bytes());
    seed
}

// The move of a word.
fn move_of(word: u32) -> Move
    ensures is { result ≡ move_of word }
    ensures hand { IsOfHand result }
{
    let hand = 1 + word / 8 % 4;
    match word % 8 {
        0..=2 => Move::Claim { hand },
        3 | 4 => Move::Offer { hand },
        5 => Move::Repeat { hand },
        6 => Move::Lose { hand },
        _ => Move::Advance { hand },
    }
}

impl Move {
    /// The hand that moves.
    pub fn hand(self) -> u32
        ensures { result ≡ hand_of self }
    {
        match self {
            Move::Claim { hand }
            | Move::Offer { hand }
            | Move::Repeat { hand }
            | Move::Lose { hand }
            | Move::Advance { hand } => hand,
        }
    }
}
