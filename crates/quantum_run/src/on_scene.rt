//! A quantum that runs in a scene.

ghost use Rattle.std.specs.Prelude.{◌≡◌, ◌<◌, ◌^◌, vec_capacity, vec_len};
ghost use Rattle.tierra_model.specs.declared.limits.TheConstants.{COUNT_END, MOST_SLICE};
ghost use Rattle.quantum_run.specs.OnScene.{events_after, yard_after};

use crate::cells::{Cells, forget};
use crate::free_cells::FreeCells;
use crate::job::Job;
use crate::outcome::Outcome;
use crate::scratch::{Copies, Lists};
use crate::standings::Standings;
use crate::yard::place_of_first_other;
use cpu_core::{divide_done, mal_done};
use mutation_streams::Draws;
use quantum_core::Ground;
use std::marker::Model;
use std::sync::ledger::Ledger;
use step_count::Steps;
use tierra_model::{Act, Block, Creature, Event, OutOfMemory, Settings, Standing, View};

/// The scene of a job, in which its quantum runs, and what the quantum notes.
#[derive(Drop)]
pub(crate) struct OnScene<'a> {
    job: &'a Job,
    front: Creature,
    cells: Cells<'a>,
    events: Vec<Event>,
    free: FreeCells<'a>,
    yard: Standings<'a>,
    free_noted: bool,
    yard_noted: bool,
    newborns: u64,
}

impl<'a> Model for OnScene<'a> {
    ghost use Rattle.std.specs.Prelude.{◌≡◌, ◌-◌, vec_capacity, vec_len};
    ghost use Rattle.quantum_run.specs.OnScene.{SceneFields};

    ghost Value = { SceneFields };

    ghost view = { λ s. record {
      run = record {
        start = s.job.now;
        now = record {
          settings = s.job.now.settings;
          quanta = s.job.now.quanta;
          front = s.front;
          soup = s.cells.now;
          free = s.free.free;
          yard = s.yard.items;
        };
        cells = s.cells.reads.cells;
        free_noted = s.free_noted;
        yard_noted = s.yard_noted;
        events = s.events.items;
        newborns = s.newborns;
      };
      known = s.cells.known;
      own = s.cells.own;
      daughter = s.cells.daughter;
      size = s.free.size;
      events_room = vec_capacity s.events - vec_len s.events;
      yard_room = s.yard.room;
      blocks_room = s.free.spare;
    } };

    ghost invariant = { λ s. s.cells.start ≡ s.job.now.soup };
}

ghost use Rattle.std.specs.Prelude.{◌≤◌, ◌*◌, ◌+◌, IfOk, length};
ghost use Rattle.tierra_model.proofs.Each.{Each};
ghost use Rattle.quantum_run.specs.Marks.{IsUnknown};
ghost use Rattle.tierra_model.specs.SceneRun.{run_in_scene, run_start};
ghost use Rattle.quantum_run.specs.OnScene.{SceneReady};
ghost use Rattle.quantum_run.specs.Outcomes.{IsOutcome};

impl<'a> OnScene<'a> {
    /// The scene before its quantum, with all memory for its instructions, and with no cell known.
    pub(crate) fn new(
        job: &'a Job,
        slice: u32,
        marks: Vec<u8>,
        copies: Copies,
        lists: Lists,
    ) -> Result<OnScene<'a>, OutOfMemory>
        requires few { slice ≤ MOST_SLICE }
        requires size { length marks.items ≡ job.now.settings.soup_size }
        requires fresh { Each IsUnknown marks.items }
        ensures run { IfOk result (λ s. s.run ≡ run_start job.now) }
        ensures ready { IfOk result (λ s. SceneReady s (4 * slice + 1)) }
    {
        let front = *job.front();
        let size = job.settings().soup_size;
        let living = job.standings().len() as u32;
        let more = 4 * slice + 1;
        let yard = Standings::begin(job.standings(), copies.yard, more)?;
        let free = FreeCells::begin(job.free(), size, copies.free, 2 * living + more)?;
        let lists = lists.emptied(size, living + more)?;
        Ok(OnScene {
            job,
            front,
            cells: Cells::begin(job.cells(), marks, lists.reads, front.own, front.daughter),
            events: lists.events,
            free,
            yard,
            free_noted: false,
            yard_noted: false,
            newborns: 0,
        })
    }

    /// After the quantum has run: what it leaves, the marks with no cell known, and the room of the copies.
    pub(crate) fn into_outcome(self) -> (Outcome, Vec<u8>, Copies)
        requires ready { SceneReady self 0 }
        requires run { self.run ≡ run_in_scene self.run.start }
        ensures outcome { IsOutcome self.entry.run.start result.0 }
        ensures marks { Each IsUnknown result.1.items }
    {
        let (reads, mut marks) = self.cells.into_parts();
        forget(&mut marks, reads.cells(), &self.events);
        let outcome = Outcome {
            reads,
            events: self.events,
            after: self.front,
            free_noted: self.free_noted,
            yard_noted: self.yard_noted,
        };
        let copies = Copies {
            free: self.free.into_own(),
            yard: self.yard.into_own(),
        };
        (outcome, marks, copies)
    }
}

impl<'a> Ground for OnScene<'a> {
    ghost use Rattle.tierra_model.specs.SceneRun.{SceneRun, scene_machine};
    ghost use Rattle.std.specs.Prelude.{◌+◌};
    ghost use Rattle.quantum_run.specs.OnScene.{SceneReady};
    ghost use Rattle.quantum_run.specs.ReadyLaws.{fewer};

    ghost State = { SceneRun };

    ghost machine = { scene_machine };

    ghost state = { λ v. v.run };

    ghost frame = { λ v. record {
      settings = v.run.start.settings;
      quantum = v.run.start.quanta + 1;
      lent = 0;
    } };

    ghost Ready = { SceneReady };

    ghost Refusal = { ⊥ };

    ghost ready_fewer = { fewer };

    fn front(&self) -> &Creature {
        &self.front
    }

    fn room_for(&self, size: u32) -> Option<u32> {
        let settings = self.job.settings();
        let filled = u64::from(self.free.filled());
        let most = u64::from(settings.fill_percent) * u64::from(settings.soup_size);
        if (filled + u64::from(size)) * 100 <= most {
            self.free.fit(size)
        } else {
            None
        }
    }

    fn reaper_len(&self) -> u32 {
        self.yard.items().len() as u32
    }

    fn others(&self) -> u32 {
        self.yard.items().len() as u32 - 1
    }

    fn victim(&mut self) -> Option<u32> {
        place_of_first_other(self.yard.items(), self.front.id)
    }

    fn ask_free(&mut self) {
        self.free_noted = true;
    }

    fn ask_reaper(&mut self) {
        self.yard_noted = true;
    }

    fn flip(&mut self, at: u32, bit: u8) {
        let value = flip_bit(self.cells.get(at), bit);
        self.cells.write(at, value);
        self.events.push_reserved(Event::Write { at, value });
    }

    fn step<L: Ledger>(
        &mut self,
        draws: &mut Draws,
        i: u32,
        settings: &Settings,
        steps: &mut Steps<L>,
    ) -> Act {
        let act = cpu_core::step(&mut self.front, &mut self.cells, draws, i, settings, steps);
        do_act(&mut self.events, &mut self.yard, &self.front, act);
        act
    }

    fn err(&mut self) {
        self.front.err();
        self.yard.show(&self.front);
        self.yard.move_up(&self.front);
        self.events.push_reserved(Event::Err);
    }

    fn good(&mut self) {
        self.yard.move_down(&self.front);
        self.events.push_reserved(Event::Good);
    }

    fn give_up(&mut self) -> Result<(), OutOfMemory> {
        let block = self.front.daughter.unwrap();
        self.free.give_back(block);
        self.front.give_up();
        self.cells.set_daughter(None);
        self.yard.show(&self.front);
        self.events.push_reserved(Event::GiveUp);
        Ok(())
    }

    fn take(&mut self, block: Block) -> Result<(), OutOfMemory> {
        self.free.take(block);
        mal_done(&mut self.front, Some(block));
        self.cells.set_daughter(Some(block));
        self.yard.show(&self.front);
        self.events.push_reserved(Event::Mal {
            at: block.at,
            size: block.size,
        });
        Ok(())
    }

    fn take_again(&mut self, _size: u32) -> bool {
        false
    }

    fn reap(&mut self, place: u32) -> Result<(), OutOfMemory> {
        let dead = self.yard.remove(place);
        give_back(&mut self.free, &dead);
        self.events.push_reserved(Event::Reap { place });
        Ok(())
    }

    fn bear(&mut self) -> Result<(), OutOfMemory> {
        let own = self.front.daughter.unwrap();
        self.newborns += 1;
        self.yard.push(Standing {
            id: number_of_newborn(self.newborns),
            errors: 0,
            own,
            daughter: None,
        });
        self.events.push_reserved(Event::Divide {
            ran: self.front.ran,
            moved: self.front.moved,
        });
        divide_done(&mut self.front);
        self.cells.set_daughter(None);
        self.yard.show(&self.front);
        Ok(())
    }
}

ghost use Rattle.std.specs.Prelude.{◌||◌, Some, false, true, ℕ};
ghost use Rattle.tierra_model.specs.Blocks.{is_in, is_in_daughter};
ghost use Rattle.tierra_model.specs.FreeList.{is_in_some, runs_of};
ghost use Rattle.tierra_model.specs.Yard.{stand_in};

// The number that newborn `k` of the quantum has in the yard.
fn number_of_newborn(k: u64) -> u64
    requires { k < COUNT_END }
    ensures { result ≡ stand_in k }
{
    (1 << 63) + k
}

// Gives back the blocks of a creature that died.
fn give_back(free: &mut FreeCells, dead: &Standing)
    requires own { dead.now.own.at + dead.now.own.size ≤ free.old.size }
    requires daughter { (p : ℕ) → is_in_daughter dead.now.daughter p ≡ true → p < free.old.size }
    requires owned { (p : ℕ) → is_in dead.now.own p ≡ true → is_in_some free.old.free p ≡ false }
    requires then { (p : ℕ) → is_in_daughter dead.now.daughter p ≡ true
        → is_in_some (runs_of free.old.size (λ q. is_in_some free.old.free q || is_in dead.now.own q)) p ≡ false }
    requires room { 2 ≤ free.old.spare }
    ensures free { free.new.free ≡ runs_of free.old.size (λ p. is_in_some free.old.free p
        || (is_in dead.now.own p || is_in_daughter dead.now.daughter p)) }
    ensures size { free.new.size ≡ free.old.size }
    ensures room { free.old.spare ≤ free.new.spare + 2 }
{
    free.give_back(dead.own);
    give_back_daughter(free, dead.daughter);
}

fn give_back_daughter(free: &mut FreeCells, daughter: Option<Block>)
    requires runs { free.old.free ≡ runs_of free.old.size (λ p. is_in_some free.old.free p) }
    requires within { (p : ℕ) → is_in_daughter daughter p ≡ true → p < free.old.size }
    requires owned { (p : ℕ) → is_in_daughter daughter p ≡ true → is_in_some free.old.free p ≡ false }
    requires room { 0 < free.old.spare }
    ensures size { free.new.size ≡ free.old.size }
    ensures free { free.new.free ≡ runs_of free.old.size (λ p. is_in_some free.old.free p
        || is_in_daughter daughter p) }
    ensures room { free.old.spare ≤ free.new.spare + 1 }
{
    if let Some(block) = daughter {
        free.give_back(block);
    }
}

// Appends the event of a write or an error; an error also moves the creature up in the yard.
fn do_act(events: &mut Vec<Event>, yard: &mut Standings, front: &Creature, act: Act)
    requires { vec_len events.old < vec_capacity events.old }
    ensures events { events.new.items ≡ events_after act events.old.items }
    ensures yard { yard.new.items ≡ yard_after act front.now yard.old.items }
    ensures events_len { vec_len events.new ≤ vec_len events.old + 1 }
    ensures events_room { vec_capacity events.new ≡ vec_capacity events.old }
    ensures yard_room { yard.old.room ≤ yard.new.room }
{
    match act {
        Act::Wrote { at, value } => events.push_reserved(Event::Write { at, value }),
        Act::Erred => {
            yard.show(front);
            yard.move_up(front);
            events.push_reserved(Event::Err);
        }
        Act::Plain | Act::Mal { .. } | Act::Divide => {}
    }
}

ghost use Rattle.tierra_model.specs.Step.{flip_bit};

// The value with the bit flipped.
fn flip_bit(value: u8, bit: u8) -> u8
    requires value { value < 32 }
    requires bit { bit < 5 }
    ensures flip { result ≡ flip_bit value (Some bit) }
    ensures below { result < 32 }
{
    value ^ (1 << bit)
}
