//! A look at the world that the turn lock guards.

ghost use Rattle.std.specs.Prelude.{◌≡◌, ◌+◌, ◌<◌, ◌≤◌, ◌^◌, ℕ, IfOk};
ghost use Rattle.tierra_model.specs.Serial.{serial};
ghost use Rattle.turn_lock.specs.Seat.{IsSameSeat, own_of};
ghost use Rattle.commit_book.specs.Book.{world_of};
ghost use Rattle.soup_watch.specs.Seeing.{sight_of};

use crate::sight::{Sight, sight_of};
use commit_book::Book;
use std::alloc::Global;
use std::sync::Wait;
use tierra_model::OutOfMemory;
use turn_lock::{Seat, TurnLock};

/// Takes a turn, looks at the world, and gives the book back as it was. The seat has then seen what it looked at, and
/// nothing is committed. The turn ends even where there is no memory for the sight.
pub fn look<R: Wait>(
    rt: &R,
    alloc: Global,
    lock: &TurnLock<Book>,
    seat: Seat,
) -> (Seat, Result<Sight, OutOfMemory>)
    requires lock { seat.lock ≡ lock.now }
    requires room { seat.turns < 2 ^ 40 }
    ensures sight { IfOk result.1 (λ s. s ≡ sight_of (serial lock.now.opening.setup.0 result.0.seen)) }
    ensures quanta { IfOk result.1 (λ s. s.quanta ≡ result.0.seen) }
    ensures seen { seat.seen ≤ result.0.seen }
    ensures seat { IsSameSeat seat result.0 }
    ensures own { (c : ℕ) → own_of result.0 c ≡ own_of seat c }
    ensures turns { result.0.turns ≡ seat.turns + 1 }
{
    let (turn, book) = lock.take(rt, seat);
    let (book, sight) = look_in(alloc, book);
    let seat = lock.give(turn, book);
    (seat, sight)
}

// The book as it was, and what is seen of its world.
fn look_in(alloc: Global, book: Book) -> (Book, Result<Sight, OutOfMemory>)
    ensures book { result.0 ≡ book }
    ensures sight { IfOk result.1 (λ s. s ≡ sight_of (world_of book)) }
    ensures quanta { IfOk result.1 (λ s. s.quanta ≡ book.committed) }
{
    let sight = sight_in(alloc, &book);
    (book, sight)
}

// What is seen of the book's world.
fn sight_in(alloc: Global, book: &Book) -> Result<Sight, OutOfMemory>
    ensures sight { IfOk result (λ s. s ≡ sight_of (world_of book.now)) }
    ensures quanta { IfOk result (λ s. s.quanta ≡ book.now.committed) }
{
    // The next three are asked for their contracts alone.
    let _soup_size = book.setup().settings.soup_size;
    let _committed = book.committed();
    let _quanta = book.quanta();
    sight_of(alloc, book.world())
}
