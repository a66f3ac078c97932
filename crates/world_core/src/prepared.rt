//! Events with everything their replay needs, so that the replay takes no memory.

ghost use Rattle.std.specs.Prelude.{◌≡◌, ◌+◌, ◌<◌, ◌≤◌, ◌^◌, ◌++◌, ℕ, IfOk, IfSome, OnOk, drop, length, slice_range, true};
ghost use Rattle.tierra_model.specs.declared.events.Event.TheVariants as event;
ghost use Rattle.tierra_model.specs.Counting.{sum_of};
ghost use Rattle.tierra_model.specs.Events.{apply_event};
ghost use Rattle.tierra_model.specs.Replay.{CanAllHappen, CanHappen, EventsFit, after_events, replay};
ghost use Rattle.tierra_model.specs.SceneRun.{births_of};
ghost use Rattle.tierra_model.specs.Sound.{IsSound};
ghost use Rattle.world_core.specs.Prepared.{CanWrite, CanWriteAll, HasRoomFor, IsReady, blocks_of, code_born, codes_born, WritesBelow, code_at, daughter_after, with_writes, written_into};
ghost use Rattle.world_core.specs.Running.{IsRunning, KeepsReady, can_be_set};

use crate::running::Running;
use crate::world::World;
use std::alloc::{AllocError, Global};
use std::collections::VecDeque;
use std::marker::Model;
use tierra_model::{Block, Code, Creature, Event, EventList, OutOfMemory};

/// Events in order, the record that the creature that ran has after them, and the codes of the newborns.
#[derive(Drop)]
pub struct Prepared {
    events: EventList,
    after: Creature,
    codes: VecDeque<Code>,
}

impl Model for Prepared {
    ghost use Rattle.world_core.specs.Prepared.{PreparedFields};

    ghost Value = { PreparedFields };

    ghost view = { λ p. record { events = p.events; after = p.after; codes = p.codes.items } };
}

/// As many events as this are never prepared; a quantum has far fewer.
const TOO_MANY: usize = 1 << 31;

impl World {
    /// Takes all memory that the replay of the events can need.
    pub fn prepare(
        &mut self,
        alloc: Global,
        events: &EventList,
        after: &Creature,
    ) -> Result<Prepared, OutOfMemory>
        requires { EventsFit events.now after.now self.old.world }
        ensures world { self.new.world ≡ self.old.world }
        ensures kept { (p : ℕ) → can_be_set self.old p ≡ true → can_be_set self.new p ≡ true }
        ensures ready { IfOk result (λ p. IsReady p self.new) }
        ensures events { IfOk result (λ p. p.events ≡ events.now) }
        ensures after { IfOk result (λ p. p.after ≡ after.now) }
    {
        let items = events.items.to_vec(alloc)?;
        let codes = make_room(alloc, &mut self.running, &events.items)?;
        Ok(Prepared {
            events: EventList { items },
            after: *after,
            codes,
        })
    }

    /// Does the prepared events, and ends the quantum. It takes no memory.
    pub fn apply(&mut self, prepared: Prepared)
        requires { IsReady prepared self.old }
        ensures { self.new.world ≡ replay prepared.events prepared.after self.old.world }
    {
        let Prepared {
            events,
            after,
            codes,
        } = prepared;
        let running = &mut *self.running;
        do_all(running, &events.items, codes);
        running.put(&after);
        running.turn_end();
    }
}

// ---- what is reserved

fn make_room(
    alloc: Global,
    running: &mut Running,
    events: &[Event],
) -> Result<VecDeque<Code>, OutOfMemory>
    requires sound { IsSound running.old.world }
    requires can { CanAllHappen running.old.world events.now }
    ensures world { running.new.world ≡ running.old.world }
    ensures kept { (p : ℕ) → can_be_set running.old p ≡ true → can_be_set running.new p ≡ true }
    ensures ok { IfOk result (λ codes. HasRoomFor events.now codes.items running.new) }
{
    if events.len() >= TOO_MANY {
        return Err(AllocError);
    }
    make_ready(running, events)?;
    let births = births_in(events);
    let blocks = blocks_in(events);
    running.reserve(births, blocks)?;
    newborn_codes(alloc, running, events)
}

// Makes the cells ready that the events write.
fn make_ready(running: &mut Running, events: &[Event]) -> Result<(), OutOfMemory>
    requires sound { IsSound running.old.world }
    requires can { CanAllHappen running.old.world events.now }
    ensures world { running.new.world ≡ running.old.world }
    ensures kept { (p : ℕ) → can_be_set running.old p ≡ true → can_be_set running.new p ≡ true }
    ensures ok { OnOk result (CanWriteAll running.new events.now) }
{
    for event in events {
        make_cell_ready(running, *event)?;
    }
    Ok(())
}

fn make_cell_ready(running: &mut Running, event: Event) -> Result<(), OutOfMemory>
    requires { WritesBelow (length running.old.world.soup) event }
    ensures world { running.new.world ≡ running.old.world }
    ensures kept { (p : ℕ) → can_be_set running.old p ≡ true → can_be_set running.new p ≡ true }
    ensures ok { OnOk result (CanWrite running.new event) }
{
    match event {
        Event::Write { at, .. } => running.ready(at),
        _ => Ok(()),
    }
}

fn births_in(events: &[Event]) -> u32
    requires { length events.now < 2 ^ 31 }
    ensures { result ≡ sum_of births_of events.now }
{
    let mut births = 0;
    for event in events {
        births += births_of(*event);
    }
    births
}

fn births_of(event: Event) -> u32
    ensures { result ≡ births_of event }
{
    match event {
        Event::Divide { .. } => 1,
        _ => 0,
    }
}

fn blocks_in(events: &[Event]) -> u32
    requires { length events.now < 2 ^ 31 }
    ensures { result ≡ sum_of blocks_of events.now }
{
    let mut blocks = 0;
    for event in events {
        blocks += blocks_of(*event);
    }
    blocks
}

fn blocks_of(event: Event) -> u32
    ensures { result ≡ blocks_of event }
{
    match event {
        Event::GiveUp | Event::Mal { .. } => 1,
        Event::Reap { .. } => 2,
        _ => 0,
    }
}

// The codes of the newborns. No event has happened yet, so the writes before a birth are applied to the code read.
fn newborn_codes(
    alloc: Global,
    running: &Running,
    events: &[Event],
) -> Result<VecDeque<Code>, OutOfMemory>
    requires sound { IsSound running.now.world }
    requires can { CanAllHappen running.now.world events.now }
    ensures { IfOk result (λ codes. codes.items ≡ codes_born running.now.world events.now) }
{
    let mut codes = VecDeque::new(alloc);
    let mut held = running.front().daughter;
    for (i, event) in events.iter().enumerate() {
        push_code(alloc, running, &events[..i], *event, held, &mut codes)?;
        held = daughter_after(*event, held);
    }
    Ok(codes)
}

fn daughter_after(event: Event, held: Option<Block>) -> Option<Block>
    ensures { result ≡ daughter_after event held }
{
    match event {
        Event::Mal { at, size } => Some(Block { at, size }),
        Event::GiveUp | Event::Divide { .. } => None,
        _ => held,
    }
}

// If a creature is born in the event, appends the code that it has after the events before.
fn push_code(
    alloc: Global,
    running: &Running,
    before: &[Event],
    event: Event,
    held: Option<Block>,
    codes: &mut VecDeque<Code>,
) -> Result<(), OutOfMemory>
    requires block { IfSome held (λ b. b.at + b.size ≤ length running.now.world.soup) }
    requires small { length running.now.world.soup < 2 ^ 32 }
    ensures { OnOk result (codes.new.items
        ≡ codes.old.items ++ code_at event held (with_writes before.now running.now.world.soup)) }
{
    if let (Event::Divide { .. }, Some(block)) = (event, held) {
        codes.push_back(code_after(alloc, running, before, block)?)?;
    }
    Ok(())
}

// The code that a block has after the events.
fn code_after(
    alloc: Global,
    running: &Running,
    events: &[Event],
    block: Block,
) -> Result<Code, OutOfMemory>
    requires lies { block.at + block.size ≤ length running.now.world.soup }
    requires small { length running.now.world.soup < 2 ^ 32 }
    ensures { IfOk result (λ code. code
        ≡ slice_range (with_writes events.now running.now.world.soup) block.at (block.at + block.size)) }
{
    let mut code = running.block_code(alloc, block)?;
    for event in events {
        write_into(&mut code, block, *event);
    }
    Ok(code)
}

// Applies the event to a block's code.
fn write_into(code: &mut Code, block: Block, event: Event)
    requires { length code.old ≡ block.size }
    ensures { code.new ≡ written_into block event code.old }
{
    if let Event::Write { at, value } = event {
        if block.contains(at) {
            code.items[(at - block.at) as usize] = value;
        }
    }
}

// ---- what is done

fn do_all(running: &mut Running, events: &[Event], codes: VecDeque<Code>)
    requires sound { IsSound running.old.world }
    requires can { CanAllHappen running.old.world events.now }
    requires room { HasRoomFor events.now codes.items running.old }
    ensures { running.new.world ≡ after_events running.old.world events.now }
{
    let mut codes = codes;
    for event in events {
        do_event(running, *event, &mut codes);
    }
}

fn do_event(running: &mut Running, event: Event, codes: &mut VecDeque<Code>)
    requires running { IsRunning running.old.world }
    requires can { CanHappen running.old.world event }
    requires cell { CanWrite running.old event }
    requires code { codes.old.items
        ≡ code_born running.old.world event ++ drop (length (code_born running.old.world event)) codes.old.items }
    requires births { births_of event ≤ running.old.births }
    requires blocks { blocks_of event ≤ running.old.blocks }
    ensures world { running.new.world ≡ apply_event running.old.world event }
    ensures ready { KeepsReady running.old running.new }
    ensures births { running.old.births ≤ running.new.births + births_of event }
    ensures blocks { running.old.blocks ≤ running.new.blocks + blocks_of event }
    ensures codes { codes.new.items ≡ drop (length (code_born running.old.world event)) codes.old.items }
{
    match event {
        Event::Write { at, value } => running.write(at, value),
        Event::Err => running.err(),
        Event::Good => running.good(),
        Event::GiveUp => running.give_up(),
        Event::Mal { at, size } => running.mal(Block { at, size }),
        Event::Reap { place } => running.reap(place),
        Event::Divide { ran, moved } => divide(running, ran, moved, codes),
    }
}

fn divide(running: &mut Running, ran: u64, moved: u64, codes: &mut VecDeque<Code>)
    requires running { IsRunning running.old.world }
    requires can { CanHappen running.old.world (event.Divide ran moved) }
    requires code { codes.old.items
        ≡ code_born running.old.world (event.Divide ran moved)
        ++ drop (length (code_born running.old.world (event.Divide ran moved))) codes.old.items }
    requires births { 1 ≤ running.old.births }
    ensures world { running.new.world ≡ apply_event running.old.world (event.Divide ran moved) }
    ensures ready { KeepsReady running.old running.new }
    ensures births { running.old.births ≤ running.new.births + 1 }
    ensures blocks { running.new.blocks ≡ running.old.blocks }
    ensures codes { codes.new.items
        ≡ drop (length (code_born running.old.world (event.Divide ran moved))) codes.old.items }
{
    match codes.pop_front() {
        Some(code) => running.divide(ran, moved, code),
        None => unreachable!(),
    }
}
