//! Blocks are taken, given back and merged.

use block_alloc::{Blocks, filled_of, fit_in};
use std::test::Fail;
use tierra_model::Block;

#[test]
fn returned_blocks_are_merged(rt: HostRuntime) -> Result<(), Fail> {
    let mut blocks = Blocks::new(rt.alloc(), 100)?;
    blocks.reserve(5)?;
    blocks.take(Block { at: 0, size: 40 });
    blocks.take(Block { at: 40, size: 10 });
    blocks.take(Block { at: 50, size: 40 });
    blocks.give_back(Block { at: 40, size: 10 });
    assert_eq!(rt;
        (blocks.fit(20), blocks.fit(10), blocks.filled()),
        (None, Some(40), 80)
    );
    let copy = blocks.copy()?;
    blocks.give_back(Block { at: 50, size: 40 });
    assert_eq!(rt;
        (blocks.fit(60), copy.free_len(), copy.filled()),
        (Some(40), 2, 80)
    );
    assert_eq!(rt; copy.free_at(1), Block { at: 90, size: 10 });
    Ok(())
}

#[test]
fn runs_are_taken_up_again(rt: HostRuntime) -> Result<(), Fail> {
    let runs = [Block { at: 10, size: 40 }, Block { at: 60, size: 40 }];
    assert_eq!(rt; filled_of(&runs, 100), 20);
    assert_eq!(rt;
        (fit_in(&runs, 100, 40), fit_in(&runs, 100, 41)),
        (Some(10), None)
    );
    let blocks = Blocks::of_runs(rt.alloc(), 100, &runs)?;
    assert_eq!(rt;
        (blocks.filled(), blocks.free_len(), blocks.fit(40)),
        (20, 2, Some(10))
    );
    let mut again = Blocks::full(rt.alloc(), 7);
    assert_eq!(rt;
        (again.filled(), again.free_len(), again.fit(1)),
        (7, 0, None)
    );
    again.reserve(4)?;
    again.refill(100, &runs);
    assert_eq!(rt;
        (again.filled(), again.free_len(), again.fit(40)),
        (20, 2, Some(10))
    );
    Ok(())
}
