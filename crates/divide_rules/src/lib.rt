//! When a creature may have the cells that it asks for, and when it may divide.
#![tactic(auto)]

ghost use Rattle.std.specs.Prelude.{◌≡◌};
ghost use Rattle.tierra_model.specs.Step.{mal_request, may_divide};

use tierra_model::{Block, Settings};

/// The number of cells that `mal` is to give to a creature of `size` cells whose register cx is `cx`. `None` is an
/// error of the instruction: the number is below `min_cell`, or above `max_cell` or `mal_mult` times the size.
pub fn mal_bounds(cx: i32, size: u32, settings: &Settings) -> Option<u32>
    ensures { result ≡ mal_request settings.now size cx }
{
    let request = u32::try_from(cx).ok()?;
    let multiple = u64::from(settings.mal_mult) * u64::from(size);
    let most = multiple.min(u64::from(settings.max_cell));
    if settings.min_cell <= request && u64::from(request) <= most {
        Some(request)
    } else {
        None
    }
}

/// Whether `divide` succeeds after `moved` copies into the daughter block: there is one, and the copies are at
/// least `move_percent` of its cells.
pub fn may_divide(daughter: Option<Block>, moved: u64, settings: &Settings) -> bool
    ensures { result ≡ may_divide settings.now daughter moved }
{
    match daughter {
        Some(block) => {
            let wanted = u64::from(settings.move_percent) * u64::from(block.size);
            u128::from(wanted) <= u128::from(moved) * 100
        }
        None => false,
    }
}

#[cfg(test)]
mod tests {
    use super::*;
    use tierra_model::defaults;

    #[test]
    fn mal_gives_what_lies_in_bounds(rt: HostRuntime) {
        let settings = defaults();
        for (cx, size, want) in [
            (11, 80, None),
            (12, 80, Some(12)),
            (240, 80, Some(240)),
            (241, 80, None),
            (20000, 6666, None),
            (20000, 6667, Some(20000)),
            (20001, 6667, None),
            (20000, u32::MAX, Some(20000)),
            (12, 3, None),
            (12, 4, Some(12)),
            (12, 0, None),
            (0, 80, None),
            (-1, 80, None),
            (-12, 80, None),
            (i32::MIN, u32::MAX, None),
            (i32::MAX, u32::MAX, None),
        ] {
            assert_eq!(rt;
                mal_bounds(cx, size, &settings),
                want,
                "cx {cx} size {size}"
            );
        }
    }

    #[test]
    fn divide_wants_enough_copies(rt: HostRuntime) {
        let settings = defaults();
        let daughter = Some(Block { at: 100, size: 80 });
        let largest = Some(Block {
            at: 0,
            size: u32::MAX,
        });
        for (daughter, moved, want) in [
            (daughter, 55, false),
            (daughter, 56, true),
            (None, 80, false),
            (daughter, u64::MAX, true),
            (largest, 3006477106, false),
            (largest, 3006477107, true),
        ] {
            assert_eq!(rt;
                may_divide(daughter, moved, &settings),
                want,
                "{moved} moved"
            );
        }
    }
}
