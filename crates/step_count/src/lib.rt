//! A counter of executed instructions that takes no bytes when the program runs: contracts alone see the count.
#![tactic(auto)]

ghost use Rattle.std.specs.Prelude.{◌≡◌, ℕ, ◌+◌, ◌<◌};

use std::marker::Model;
use std::sync::ledger::{Blank, Book, Ledger, Share};

/// How many steps were taken. Only `tick` changes it.
#[derive(Drop)]
pub struct Steps<L: Ledger> {
    book: Book<L>,
    share: Share<L>,
}

impl<L: Ledger> Model for Steps<L> {
    ghost Value = { ℕ };

    ghost view = { λ s. s.book.total };

    ghost invariant = { λ s. 0 < s.share.parts };
}

impl<L: Ledger> Steps<L> {
    /// A counter that stands at 0, over a ledger that no other counter has.
    pub fn start(blank: Blank) -> Steps<L>
        requires name { blank.name ≡ L.name }
        requires parts { blank.parts ≡ L.parts }
        requires some { 0 < L.parts }
        ensures { result ≡ 0 }
    {
        let (book, share) = blank.open::<L>();
        Steps { book, share }
    }

    /// Counts one more step.
    pub fn tick(&mut self)
        ensures { self.new ≡ self.old + 1 }
    {
        self.book.add(&mut self.share, 1);
    }
}

#[cfg(test)]
mod tests {
    use super::*;
    use std::marker::Brand;
    use std::mem::size_of;

    fn tick_thrice<L: Ledger>(steps: &mut Steps<L>)
        ensures { steps.new ≡ steps.old + 3 }
    {
        steps.tick();
        steps.tick();
        steps.tick();
    }

    fn bytes_taken<L: Ledger>(blank: Blank) -> usize
        requires name { blank.name ≡ L.name }
        requires parts { blank.parts ≡ L.parts }
        requires some { 0 < L.parts }
    {
        let mut steps = Steps::<L>::start(blank);
        tick_thrice(&mut steps);
        size_of::<Steps<L>>()
    }

    #[test]
    fn takes_no_bytes(rt: HostRuntime) {
        assert_eq!(rt; bytes_taken::<Brand>(Blank::new(1)), 0);
    }
}
