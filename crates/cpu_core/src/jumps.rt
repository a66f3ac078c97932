//! Instructions that jump, or find an address to jump to.

ghost use Rattle.std.specs.Prelude.{◌≡◌, ◌<◌, ◌+◌, ◌%◌, ◌^◌, pos, if◌then◌else◌};
ghost use Rattle.tierra_model.specs.declared.limits.TheConstants.{COUNT_END};
ghost use Rattle.tierra_model.specs.Look.{Passes};
ghost use Rattle.tierra_model.specs.Ring.{address, plus};
ghost use Rattle.tierra_model.specs.Step.{is_zero, pop, push, top_of};
ghost use Rattle.template_search.specs.Places.{IfAt};
ghost use Rattle.cpu_core.specs.Draws.{flaw_of};
ghost use Rattle.cpu_core.specs.Executing.{Executes};
ghost use Rattle.cpu_core.specs.Searching.{search_by, search_outcome};

use crate::birth::fail;
use crate::draws::flaw;
use crate::stack::{pop_value, push_value};
use mutation_streams::Draws;
use ring_math::{add_wrap, addr};
use template_search::{Found, Way, search};
use tierra_model::{Act, Creature, Settings, View};

/// The cell after `ip`.
pub fn next_cell(ip: u32, settings: &Settings) -> u32
    requires { ip < settings.now.soup_size }
    ensures next { result ≡ (ip + 1) % settings.now.soup_size }
    ensures below { result < settings.now.soup_size }
{
    if ip + 1 < settings.soup_size {
        ip + 1
    } else {
        0
    }
}

/// Skips the next instruction where cx is not 0.
pub fn if_cz(creature: &mut Creature, settings: &Settings) -> Act
    requires { creature.old.ip < settings.now.soup_size }
    ensures creature { creature.new ≡ record creature.old {
      ip = (if is_zero creature.old.cx then creature.old.ip
          else (creature.old.ip + 1) % settings.now.soup_size);
    } }
    ensures act { result ≡ Act.Plain }
{
    if creature.cx != 0 {
        creature.ip = next_cell(creature.ip, settings);
    }
    Act::Plain
}

/// Pops an address, and goes there.
pub fn ret(creature: &mut Creature, settings: &Settings) -> Act
    requires { creature.old.sp < 10 }
    ensures creature { creature.new
        ≡ record (pop creature.old) { ip = address (top_of creature.old) settings.now.soup_size } }
    ensures act { result ≡ Act.Plain }
{
    let value = pop_value(creature);
    creature.ip = addr(value, settings.soup_size);
    Act::Plain
}

// What the search of the instruction at `ip` finds.
fn find<V: View>(view: &mut V, ip: u32, way: Way, settings: &Settings) -> Found
    requires size { V.size view.old ≡ settings.now.soup_size }
    requires ip { ip < settings.now.soup_size }
    ensures passes { Passes V.cells V.looked (search_by settings.now ip way) view.old view.new result }
    ensures below { IfAt result (λ p. p < settings.now.soup_size) }
{
    search(view, ip, way, settings.search_limit, settings.min_template)
}

/// Goes to the address that its search finds.
pub fn jump<V: View>(
    creature: &mut Creature,
    view: &mut V,
    ip: u32,
    way: Way,
    settings: &Settings,
) -> Act
    requires size { V.size view.old ≡ settings.now.soup_size }
    requires ip { ip < settings.now.soup_size }
    requires errors { creature.old.errors < COUNT_END }
    ensures { Executes V.cells V.looked V.written (search_outcome settings.now ip way creature.old
        (λ p. record creature.old { ip = p })) view.old view.new creature.new result }
{
    match find(view, ip, way, settings) {
        Found::At(place) => {
            creature.ip = place;
            Act::Plain
        }
        Found::Short => fail(creature),
        Found::NoMatch => fail(creature),
    }
}

/// Pushes the address of the next cell, and goes to the one that its search finds.
pub fn call<V: View>(creature: &mut Creature, view: &mut V, ip: u32, settings: &Settings) -> Act
    requires size { V.size view.old ≡ settings.now.soup_size }
    requires ip { ip < settings.now.soup_size }
    requires next { creature.old.ip < settings.now.soup_size }
    requires sp { creature.old.sp < 10 }
    requires errors { creature.old.errors < COUNT_END }
    ensures { Executes V.cells V.looked V.written (search_outcome settings.now ip Way.Outward creature.old
        (λ p. record (push creature.old (pos creature.old.ip)) { ip = p })) view.old view.new creature.new result }
{
    match find(view, ip, Way::Outward, settings) {
        Found::At(place) => {
            enter(creature, place);
            Act::Plain
        }
        Found::Short => fail(creature),
        Found::NoMatch => fail(creature),
    }
}

/// Puts the address that its search finds into ax, with its flaw added.
pub fn find_address<V: View>(
    creature: &mut Creature,
    view: &mut V,
    ip: u32,
    way: Way,
    draws: &mut Draws,
    i: u32,
    settings: &Settings,
) -> Act
    requires size { V.size view.old ≡ settings.now.soup_size }
    requires ip { ip < settings.now.soup_size }
    requires errors { creature.old.errors < COUNT_END }
    ensures executes { Executes V.cells V.looked V.written (search_outcome settings.now ip way creature.old
        (λ p. record creature.old { ax = plus (pos p) (flaw_of draws.old i) })) view.old view.new creature.new result }
    ensures draws { draws.new ≡ draws.old }
{
    match find(view, ip, way, settings) {
        Found::At(place) => {
            take_address(creature, place, draws, i);
            Act::Plain
        }
        Found::Short => fail(creature),
        Found::NoMatch => fail(creature),
    }
}

// Pushes the address of the next cell, and goes to the place.
fn enter(creature: &mut Creature, place: u32)
    requires next { creature.old.ip < 2 ^ 31 }
    requires sp { creature.old.sp < 10 }
    ensures { creature.new ≡ record (push creature.old (pos creature.old.ip)) { ip = place } }
{
    let next = creature.ip as i32;
    push_value(creature, next);
    creature.ip = place;
}

// Puts the place into ax, with the flaw added.
fn take_address(creature: &mut Creature, place: u32, draws: &mut Draws, i: u32)
    requires { place < 2 ^ 31 }
    ensures creature { creature.new ≡ record creature.old { ax = plus (pos place) (flaw_of draws.old i) } }
    ensures draws { draws.new ≡ draws.old }
{
    creature.ax = add_wrap(place as i32, flaw(draws, i));
}
