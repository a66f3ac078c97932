//! Moves in the reaper queue, worked by hand.

use reaper_queue::Reaper;
use std::test::Fail;

#[test]
fn an_error_moves_up_past_as_few_errors(rt: HostRuntime) -> Result<(), Fail> {
    let mut reaper = Reaper::new(rt.alloc());
    reaper.reserve(2)?;
    reaper.enter_with(7, 1);
    reaper.enter(3);
    let mut other = Reaper::new(rt.alloc());
    other.reserve(2)?;
    other.enter_with(7, 2);
    other.enter(3);
    reaper.error(3);
    other.error(3);
    assert_eq!(rt;
        [reaper.at(0), reaper.at(1), other.at(0), other.at(1)],
        [(3, 1), (7, 1), (7, 2), (3, 1)]
    );
    Ok(())
}

// The three that stand in the queue.
fn three_in(reaper: &Reaper) -> Option<[(u64, u64); 3]> {
    if reaper.len() == 3 {
        Some([reaper.at(0), reaper.at(1), reaper.at(2)])
    } else {
        None
    }
}

// The only one that stands in the queue.
fn one_in(reaper: &Reaper) -> Option<(u64, u64)> {
    if reaper.len() == 1 {
        Some(reaper.at(0))
    } else {
        None
    }
}

#[test]
fn moves_go_past_neighbours(rt: HostRuntime) -> Result<(), Fail> {
    let mut reaper = Reaper::new(rt.alloc());
    reaper.reserve(3)?;
    reaper.enter(1);
    reaper.enter(2);
    reaper.enter(3);
    reaper.good(1);
    let down = three_in(&reaper);
    reaper.error(3);
    let up = three_in(&reaper);
    reaper.good(3);
    let stays = three_in(&reaper);
    let mut copy = reaper.copy()?;
    copy.remove(2);
    copy.remove(1);
    let others = (reaper.first_other(2), copy.first_other(3));
    assert_eq!(rt;
        [down, up, stays, three_in(&reaper)],
        [
            [(2, 0), (1, 0), (3, 0)],
            [(2, 0), (3, 1), (1, 0)],
            [(2, 0), (3, 1), (1, 0)],
            [(2, 0), (3, 1), (1, 0)]
        ]
        .map(Some)
    );
    assert_eq!(rt; (others, one_in(&copy)), ((Some(3), None), Some((3, 1))));
    Ok(())
}
