//! The first difference between what a quantum read and a world.

ghost use Rattle.std.specs.Prelude.{All, ◌≡◌, ◌<◌, ◌^◌, IfErr, IfOk, None, Some, length};
ghost use Rattle.tierra_model.specs.Difference.{first_difference, of_cells, of_free, of_front, of_yard};
ghost use Rattle.tierra_model.specs.FreeList.{free_list};
ghost use Rattle.tierra_model.specs.Yard.{yard};

use crate::reads::Reads;
use tierra_model::{Block, Creature, Now, Stale, Standing};

/// Ok if a world agrees with the reads and with the record of the creature that read them; else the first difference,
/// in the order front, body, cells as they were read, free list, yard. It takes no memory.
pub fn agrees<W: Now>(reads: &Reads, front: &Creature, now: &W) -> Result<(), Stale>
    requires { All (λ c. c.0 < length (W.world now.now).soup) reads.now.reads.cells }
    ensures ok { IfOk result (λ _. first_difference reads.now.reads front.now (W.world now.now) ≡ None) }
    ensures stale { IfErr result (λ s. first_difference reads.now.reads front.now (W.world now.now) ≡ Some s) }
{
    match first_stale(reads, front, now) {
        None => Ok(()),
        Some(stale) => Err(stale),
    }
}

#[tactic(auto, unfolding(tierra_model::specs::Difference::first_difference))]
fn first_stale<W: Now>(reads: &Reads, front: &Creature, now: &W) -> Option<Stale>
    requires { All (λ c. c.0 < length (W.world now.now).soup) reads.now.reads.cells }
    ensures { result ≡ first_difference reads.now.reads front.now (W.world now.now) }
{
    if let Some(stale) = of_front(front, now.front()) {
        return Some(stale);
    }
    if let Some(stale) = of_cells(reads.cells(), now) {
        return Some(stale);
    }
    if let Some(stale) = of_free(reads, now) {
        return Some(stale);
    }
    of_yard(reads, now)
}

fn of_front(seen: &Creature, now: &Creature) -> Option<Stale>
    ensures { result ≡ of_front seen.now now.now }
{
    if seen.id != now.id {
        return Some(Stale::Front {
            seen: seen.id,
            now: now.id,
        });
    }
    if seen == now { None } else { Some(Stale::Body) }
}

fn of_cells<W: Now>(cells: &[(u32, u8)], now: &W) -> Option<Stale>
    requires { All (λ c. c.0 < length (W.world now.now).soup) cells.now }
    ensures { result ≡ of_cells cells.now (W.world now.now).soup }
{
    for &(at, seen) in cells {
        let cell = now.cell(at);
        if cell != seen {
            return Some(Stale::Cell {
                at,
                seen,
                now: cell,
            });
        }
    }
    None
}

fn of_free<W: Now>(reads: &Reads, now: &W) -> Option<Stale>
    ensures { result ≡ of_free reads.now.reads.free (free_list (W.world now.now)) }
{
    match reads.free() {
        Some(free) => of_blocks(&free.items, now),
        None => None,
    }
}

fn of_yard<W: Now>(reads: &Reads, now: &W) -> Option<Stale>
    ensures { result ≡ of_yard reads.now.reads.yard (yard (W.world now.now)) }
{
    match reads.yard() {
        Some(yard) => of_standings(&yard.items, now),
        None => None,
    }
}

fn of_blocks<W: Now>(seen: &[Block], now: &W) -> Option<Stale>
    requires { length seen.now < 2 ^ 32 }
    ensures { result ≡ of_free (Some seen.now) (free_list (W.world now.now)) }
{
    let places = (seen.len() as u32).max(now.free_len());
    for place in 0..places {
        let was = seen.get(place as usize).copied();
        let is = if place < now.free_len() {
            Some(now.free_at(place))
        } else {
            None
        };
        if was != is {
            return Some(Stale::Free {
                place,
                seen: was,
                now: is,
            });
        }
    }
    None
}

fn of_standings<W: Now>(seen: &[Standing], now: &W) -> Option<Stale>
    requires { length seen.now < 2 ^ 32 }
    ensures { result ≡ of_yard (Some seen.now) (yard (W.world now.now)) }
{
    let places = (seen.len() as u32).max(now.yard_len());
    for place in 0..places {
        let was = seen.get(place as usize).copied();
        let is = if place < now.yard_len() {
            Some(now.standing(place))
        } else {
            None
        };
        if was != is {
            return Some(Stale::Yard {
                place,
                seen: was,
                now: is,
            });
        }
    }
    None
}
