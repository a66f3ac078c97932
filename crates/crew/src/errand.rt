//! What a worker does between its jobs.

ghost use Rattle.std.specs.Prelude.{◌≡◌, ℕ, IfOk};
ghost use Rattle.tierra_model.specs.Setups.{SetupFields};
ghost use Rattle.commit_book.specs.Book.{BookFields};
ghost use Rattle.crew.specs.declared.hand.Next.{Next};
ghost use Rattle.crew.specs.declared.hand.Next.TheVariants as next;
ghost use Rattle.crew.specs.Hand.{OnGo};

use crate::hand::Next;
use commit_book::Book;
use std::alloc::Global;
use tierra_model::OutOfMemory;

/// What came of an errand after a turn.
#[derive(Clone, Copy, Debug, Drop)]
pub(crate) struct ErrandEnd {
    pub next: Next,
    /// Whether there was memory for its load. If not, it was not run.
    pub is_loaded: bool,
}

/// What a worker does besides its jobs. While it has the book it takes a load out of it. With that it runs the errand
/// once it gave the book back.
pub(crate) trait Errand {
    type Load;

    /// It may be run beside a book of this run.
    ghost is_ready: { SetupFields × ℕ → Self → Type 0 };

    /// The load is what it takes out of this book.
    ghost is_load: { BookFields → Self → Self.Load → Type 0 };

    /// It went from the first to the second, and answered so.
    ghost went: { Next → Self → Self → Type 0 };

    /// Nothing of the run's first so many quanta is left for it to do.
    ghost has_done: { ℕ → Self → Type 0 };

    fn load(&self, alloc: Global, book: &Book) -> Result<Self::Load, OutOfMemory>
        requires { is_ready (book.now.setup, book.now.quanta) self.now }
        ensures { IfOk result (is_load book.now self.now) };

    fn run(&mut self, load: Self::Load) -> Next
        requires { (b : BookFields) × is_ready (b.setup, b.quanta) self.old × is_load b self.old load }
        ensures went { went result self.old self.new }
        ensures ready { (b : BookFields) → is_ready (b.setup, b.quanta) self.old
            → OnGo result (is_ready (b.setup, b.quanta) self.new) }
        ensures done { (b : BookFields) → is_ready (b.setup, b.quanta) self.old → is_load b self.old load
            → OnGo result (has_done b.committed self.new) };

    /// Where it is not run, it stays.
    ghost stays: { (run : SetupFields × ℕ) (errand : Self) → is_ready run errand → went next.Go errand errand };

    /// Two steps make one.
    ghost goes_on: { (answer : Next) (old mid new : Self) → went next.Go old mid → went answer mid new
        → went answer old new };
}

/// The errand of a worker that has none.
#[derive(Clone, Copy, Debug, Drop)]
pub(crate) struct NoErrand;

impl Errand for NoErrand {
    ghost use Rattle.std.specs.Prelude.{refl};

    type Load = ();

    ghost is_ready = { λ run errand. Unit {0} };

    ghost is_load = { λ book errand load. Unit {0} };

    ghost went = { λ answer old new. answer ≡ next.Go };

    ghost has_done = { λ n errand. Unit {0} };

    fn load(&self, _alloc: Global, _book: &Book) -> Result<(), OutOfMemory> {
        Ok(())
    }

    fn run(&mut self, _load: ()) -> Next {
        Next::Go
    }

    ghost stays = { λ run errand ready. refl };

    ghost goes_on = { λ answer old mid new first second. second };
}
