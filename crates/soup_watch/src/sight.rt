//! What is seen of a world.

ghost use Rattle.std.specs.Prelude.{◌≡◌, ◌++◌, ◌∷◌, [], ◌<◌, IfOk, OnOk, filter, length};
ghost use Rattle.soup_watch.specs.Seeing.{count_of, counts_of, lives, sight_of};

use std::alloc::Global;
use std::marker::Model;
use tierra_model::{Name, OutOfMemory};
use world_core::World;

/// How many individuals of a genotype live, and how many ever lived.
#[derive(Clone, Copy, Debug, Drop, PartialEq, Eq)]
pub struct Count {
    pub name: Name,
    pub living: u64,
    pub total: u64,
}

/// Counts, in the order of first birth.
#[derive(Debug, Drop)]
pub struct CountList {
    pub items: Vec<Count>,
}

impl Model for CountList {
    ghost use Rattle.std.specs.Prelude.{List};
    ghost use Rattle.soup_watch.specs.declared.sight.Count.{Count};

    ghost Value = { List Count };

    ghost view = { λ c. c.items.items };
}

/// The counts of a world, and those of each genotype that lives in it.
#[derive(Debug, Drop)]
pub struct Sight {
    pub quanta: u64,
    pub births: u64,
    pub deaths: u64,
    pub living: u64,
    pub counts: CountList,
}

/// What is seen of a world. A genotype with no living creature is left out.
pub fn sight_of(alloc: Global, world: &World) -> Result<Sight, OutOfMemory>
    ensures { IfOk result (λ s. s ≡ sight_of world.now.world) }
{
    Ok(Sight {
        quanta: world.quanta(),
        births: world.births(),
        deaths: world.deaths(),
        living: u64::from(world.living()),
        counts: counts_of(alloc, world)?,
    })
}

fn counts_of(alloc: Global, world: &World) -> Result<CountList, OutOfMemory>
    ensures { IfOk result (λ c. c ≡ counts_of world.now.world) }
{
    let mut items = Vec::new(alloc);
    for number in 0..world.genotypes().len() {
        add_living(&mut items, count_of(world, number))?;
    }
    Ok(CountList { items })
}

// Adds the count of a genotype, if some of its creatures live.
fn add_living(items: &mut Vec<Count>, count: Count) -> Result<(), OutOfMemory>
    ensures { OnOk result (items.new.items ≡ items.old.items ++ filter lives (count ∷ [])) }
{
    if count.living > 0 {
        items.push(count)?;
    }
    Ok(())
}

fn count_of(world: &World, number: u64) -> Count
    requires { number < length world.now.world.genotypes }
    ensures { result ≡ count_of world.now.world number }
{
    Count {
        name: world.genotypes().name_of(number),
        living: world.census().living(number),
        total: world.genotypes().total(number),
    }
}
