//! The dumps of two small worlds.

ghost use Rattle.std.specs.Prelude.{◌≡◌, IfOk};

use report_text::dump;
use std::alloc::Global;
use std::test::Fail;
use tierra_model::{Code, EventList, Inoculum, Now, SeedList, Settings, Setup, defaults};
use world_core::World;

/// A creature in the last three of 100 cells. The last row begins at cell 96 and has four cells.
const ONE: &str = "quanta 0
births 0
deaths 0
living 1
filled 3
front 1 ip 97 ax 0 bx 0 cx 0 dx 0 flag 0 errors 0
genotypes 1
kept 0
0003aaa 1 1
creature 1 at 97 size 3 daughter none moved 0 ip 97 ax 0 bx 0 cx 0 dx 0 sp 0 flag 0 errors 0 0003aaa
reaper 1
0000096: 00 1f 00 05
state 924bee840a8c955c8d4259e540903f4ff1f00c6201178079c09920c2a8325a92
";

/// Two creatures. The first has had its turn.
const TWO: &str = "quanta 1
births 0
deaths 0
living 2
filled 5
front 2 ip 97 ax 0 bx 0 cx 0 dx 0 flag 0 errors 0
genotypes 2
kept 0
0002aaa 1 1
0003aaa 1 1
creature 2 at 97 size 3 daughter none moved 0 ip 97 ax 0 bx 0 cx 0 dx 0 sp 0 flag 0 errors 0 0003aaa
creature 1 at 32 size 2 daughter none moved 0 ip 32 ax 0 bx 0 cx 0 dx 0 sp 0 flag 0 errors 0 0002aaa
reaper 1 2
0000032: 09 1a 00 00 00 00 00 00 00 00 00 00 00 00 00 00 00 00 00 00 00 00 00 00 00 00 00 00 00 00 00 00
0000096: 00 1f 00 05
state d024026eef163c663e2be615da3dd28bbae6e3dccfac740aa78229cce4776ce4
";

// The default settings, in a soup of 100 cells.
fn settings() -> Settings
    ensures { result.soup_size ≡ 100 }
{
    let mut settings = defaults();
    settings.soup_size = 100;
    settings
}

fn inoculum(alloc: Global, at: u32, code: &[u8]) -> Result<Inoculum, Fail>
    ensures { IfOk result (λ i. i ≡ record { at = at; code = code.now }) }
{
    let code = Code {
        items: code.to_vec(alloc)?,
    };
    Ok(Inoculum { at, code })
}

fn one_creature(alloc: Global) -> Result<Setup, Fail> {
    let last = inoculum(alloc, 97, &[31, 0, 5])?;
    let creatures = SeedList {
        items: vec![in alloc; last]?,
    };
    Ok(Setup {
        settings: settings(),
        creatures,
    })
}

fn two_creatures(alloc: Global) -> Result<Setup, Fail> {
    let first = inoculum(alloc, 32, &[9, 26])?;
    let last = inoculum(alloc, 97, &[31, 0, 5])?;
    let creatures = SeedList {
        items: vec![in alloc; first, last]?,
    };
    Ok(Setup {
        settings: settings(),
        creatures,
    })
}

/// A quantum in which nothing happens, which fits a sound world.
fn turn(alloc: Global, world: &mut World) -> Result<(), Fail> {
    let _sound = world.settings();
    if world.quanta() == 0 {
        let after = *world.front();
        let events = EventList {
            items: Vec::new(alloc),
        };
        let prepared = world.prepare(alloc, &events, &after)?;
        world.apply(prepared);
    }
    Ok(())
}

#[test]
fn a_start_is_told_whole(rt: HostRuntime) -> Result<(), Fail> {
    let world = World::start(rt.alloc(), &one_creature(rt.alloc())?)?;
    let text = dump(rt.alloc(), &world)?;
    assert_eq!(rt; text.items.as_slice(), ONE.as_bytes());
    Ok(())
}

#[test]
fn turns_and_the_reaper_queue_have_their_own_orders(rt: HostRuntime) -> Result<(), Fail> {
    let mut world = World::start(rt.alloc(), &two_creatures(rt.alloc())?)?;
    turn(rt.alloc(), &mut world)?;
    let text = dump(rt.alloc(), &world)?;
    assert_eq!(rt; text.items.as_slice(), TWO.as_bytes());
    Ok(())
}
