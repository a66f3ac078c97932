//! The errand of worker 1, who hands new groups over between its turns.

ghost use Rattle.std.specs.Prelude.{◌≡◌};
ghost use Rattle.crew.specs.Hand.{HasGroups, HasGroupsOf, IsFresh, IsUnhalted, WasLed};

use crate::errand::Errand;
use crate::hand::{Hand, Next};
use crate::handing::{Fresh, fresh_groups};
use commit_book::Book;
use std::alloc::Global;
use tierra_model::OutOfMemory;

/// Hands over the groups that the book has and the hand has not.
#[derive(Drop)]
pub(crate) struct Handover<'h, H> {
    pub hand: &'h mut H,
    /// The hand has those of all quanta by which this many genotypes are saved.
    pub kept: u64,
}

impl<H: Hand> Errand for Handover<'_, H> {
    ghost use Rattle.std.proofs.Common.{refl, ◌∙◌};

    type Load = Fresh;

    ghost is_ready = { λ run e. IsUnhalted run (H.setup e.hand.now) (H.quanta e.hand.now) (H.done e.hand.now)
        (H.halts e.hand.now) (H.can_put e.hand.now)
        × HasGroupsOf (H.setup e.hand.now) (H.quanta e.hand.now) e.kept (H.done e.hand.now) };

    ghost is_load = { λ book e fresh. IsFresh book (H.done e.hand.now) fresh };

    ghost went = { λ answer a b. (b.hand.ghost_name ≡ a.hand.ghost_name)
        × WasLed answer (H.setup a.hand.now) (H.setup b.hand.now) (H.quanta a.hand.now) (H.quanta b.hand.now)
        (H.done b.hand.now) (H.halts b.hand.now) (H.can_put b.hand.now) (H.goes_to a.hand.now b.hand.now) };

    // No group of theirs waits.
    ghost has_done = { λ n e. HasGroups (H.setup e.hand.now) n (H.done e.hand.now) };

    fn load(&self, alloc: Global, book: &Book) -> Result<Fresh, OutOfMemory> {
        fresh_groups(alloc, book, self.hand.done(), self.kept)
    }

    fn run(&mut self, load: Fresh) -> Next {
        let Fresh { groups, saved } = load;
        self.kept = saved;
        self.hand.put(groups)
    }

    ghost stays = { λ run e ready. (
      refl,
      record {
        setup = refl;
        quanta = refl;
        halts = ready.0.unhalted;
        within = λ unhalted. ready.0.within;
        can = λ unhalted. ready.0.can;
        later = H.stays e.hand.now;
      },
    ) };

    ghost goes_on = { λ answer a b c p q. (
      q.0 ∙ p.0,
      record {
        setup = q.1.setup ∙ p.1.setup;
        quanta = q.1.quanta ∙ p.1.quanta;
        halts = q.1.halts;
        within = q.1.within;
        can = q.1.can;
        later = H.goes_on _ _ _ p.1.later q.1.later;
      },
    ) };
}
