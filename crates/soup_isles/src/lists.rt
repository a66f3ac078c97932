//! The setups and the worlds of isles, each at the place of its isle.

ghost use Rattle.std.specs.Prelude.{◌≡◌, ◌<◌, ◌^◌, length};
ghost use Rattle.tierra_model.specs.Setups.{IsSetup};
ghost use Rattle.tierra_model.specs.Sound.{IsSound};
ghost use Rattle.soup_isles.specs.Isles.{setup_at, world_at};

use std::marker::Model;
use tierra_model::Setup;
use world_core::World;

/// Setups, in the order of their isles. The type ensures that each is a setup.
#[derive(Debug, Drop)]
pub struct SetupList {
    pub items: Vec<Setup>,
}

impl Model for SetupList {
    ghost use Rattle.std.specs.Prelude.{All, List};
    ghost use Rattle.tierra_model.specs.Setups.{IsSetup, SetupFields};

    ghost Value = { List SetupFields };

    ghost view = { λ l. l.items.items };

    ghost invariant = { λ l. All IsSetup l.items.items };
}

/// Worlds, in the order of their isles. The type ensures that each is sound.
#[derive(Drop)]
pub struct WorldList {
    pub items: Vec<World>,
}

impl Model for WorldList {
    ghost use Rattle.std.specs.Prelude.{All, List, map};
    ghost use Rattle.tierra_model.specs.Sound.{IsSound};
    ghost use Rattle.tierra_model.specs.World.{World as ModelWorld};

    ghost Value = { List ModelWorld };

    ghost view = { λ l. map (λ w. w.world) l.items.items };

    ghost invariant = { λ l. All IsSound (map (λ w. w.world) l.items.items) };
}

impl SetupList {
    /// How many isles there are.
    pub(crate) fn len(&self) -> usize
        ensures { result ≡ length self.now }
    {
        self.items.len()
    }

    /// The setup of the isle at a place.
    pub(crate) fn get(&self, place: usize) -> &Setup
        requires { place < length self.now }
        ensures setup { result.now ≡ setup_at self.now place }
    {
        &self.items[place]
    }
}

impl WorldList {
    /// How many isles there are.
    pub(crate) fn len(&self) -> usize
        ensures count { result ≡ length self.now }
        ensures few { result < 2 ^ 63 }
    {
        self.items.len()
    }

    /// The world of the isle at a place.
    pub(crate) fn get(&self, place: usize) -> &World
        requires { place < length self.now }
        ensures world { result.now.world ≡ world_at self.now place }
        ensures sound { IsSound result.now.world }
    {
        &self.items[place]
    }
}
