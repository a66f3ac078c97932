//! Groups of the genebank on their way from the book to the hand.

ghost use Rattle.std.specs.Prelude.{◌≡◌, ◌≤◌, IfOk, drop, length, max};
ghost use Rattle.tierra_model.specs.declared.limits.TheConstants.{MOST_QUANTA};
ghost use Rattle.tierra_model.specs.Setups.{IsSetup};
ghost use Rattle.crew.specs.Hand.{AreNext, HandsBy, HasGroupsOf, IsFresh, IsUnhalted, OnGo, run_bank};

use crate::hand::{Hand, Next};
use commit_book::Book;
use std::alloc::Global;
use tierra_model::{Groups, OutOfMemory};

// Does nothing: its contract is what the type of a book keeps of its run.
fn is_run(book: &Book)
    ensures setup { IsSetup book.now.setup }
    ensures committed { book.now.committed ≤ book.now.quanta }
    ensures few { book.now.quanta ≤ MOST_QUANTA }
{
    let _settings = &book.setup().settings;
    let _committed = book.committed();
    let _quanta = book.quanta();
}

// The groups of the book's world from place `done` on.
pub(crate) fn new_groups(alloc: Global, book: &Book, done: u64) -> Result<Groups, OutOfMemory>
    ensures groups { IfOk result (λ g. g ≡ drop done (run_bank book.now.setup book.now.committed)) }
    ensures next { IfOk result (AreNext book.now.setup book.now.quanta done) }
{
    is_run(book);
    book.groups_from(alloc, done)
}

/// Groups that a hand lacks.
#[derive(Drop)]
pub(crate) struct Fresh {
    pub groups: Groups,
    /// How many genotypes are saved by then.
    pub saved: u64,
}

// The groups of the book's world from place `done` on, or none if it has saved no more than `kept` genotypes.
pub(crate) fn fresh_groups(
    alloc: Global,
    book: &Book,
    done: u64,
    kept: u64,
) -> Result<Fresh, OutOfMemory>
    requires { HasGroupsOf book.now.setup book.now.quanta kept done }
    ensures { IfOk result (IsFresh book.now done) }
{
    is_run(book);
    let saved = book.world().kept();
    if saved <= kept {
        let groups = Groups {
            items: Vec::new(alloc),
        };
        return Ok(Fresh { groups, saved });
    }
    let groups = new_groups(alloc, book, done)?;
    Ok(Fresh { groups, saved })
}

// Hands over all groups of the book's world from the hand's place on.
pub(crate) fn hand_all<H: Hand>(
    alloc: Global,
    book: &Book,
    hand: &mut H,
) -> Result<Next, OutOfMemory>
    requires hand { IsUnhalted (book.now.setup, book.now.quanta) (H.setup hand.old) (H.quanta hand.old)
        (H.done hand.old) (H.halts hand.old) (H.can_put hand.old) }
    ensures setup { H.setup hand.new ≡ H.setup hand.old }
    ensures quanta { H.quanta hand.new ≡ H.quanta hand.old }
    ensures halts { HandsBy result (H.halts hand.new) }
    ensures groups { IfOk result (λ next. OnGo next
        (H.done hand.new ≡ max (H.done hand.old) (length (run_bank book.now.setup book.now.committed)))) }
    ensures can { IfOk result (λ next. OnGo next (H.can_put hand.new)) }
    ensures later { H.goes_to hand.old hand.new }
{
    let groups = new_groups(alloc, book, hand.done())?;
    Ok(hand.put(groups))
}
