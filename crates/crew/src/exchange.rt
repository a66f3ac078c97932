//! How the workers of a run meet while one of them runs its quanta.

use crate::shelf::{Duties, Shelf, Task};
use mutation_streams::TapeBlock;
use std::alloc::Global;
use std::sync::{Condvar, Mutex, Wait};
use std::thread;
use tierra_model::OutOfMemory;

/// How often worker 1 looks whether another thread came to run the quanta, before it goes on without.
const MOST_LOOKS: u32 = 20_000;

/// A shelf that several threads share.
#[derive(Drop)]
pub(crate) struct Exchange<P> {
    shelf: Mutex<Shelf<P>>,
    // Told when there may be a task.
    tasks: Condvar,
    // Told when there may be room for a parcel.
    room: Condvar,
}

impl<P: Drop> Exchange<P> {
    /// The meeting place of workers before quantum `at` is run. Somebody makes draws or nobody does.
    pub(crate) fn new(alloc: Global, at: u64, draws: bool) -> Result<Exchange<P>, OutOfMemory> {
        let shelf = Shelf::new(alloc, at, draws)?;
        Ok(Exchange {
            shelf: Mutex::new(shelf),
            tasks: Condvar::new(),
            room: Condvar::new(),
        })
    }

    // ---- by the worker that runs the quanta

    /// Begins to run quanta. Answers false if worker 1 does not wait any more.
    pub(crate) fn begin<R: Wait>(&self, rt: &R) -> bool {
        let mut shelf = self.shelf.lock(rt);
        let is_awaited = shelf.is_coming();
        if is_awaited {
            shelf.begin();
        }
        is_awaited
    }

    /// The run has come to this quantum. Answers whether it is to go on, and with which block of draws, if it is there.
    pub(crate) fn go_on<R: Wait>(&self, rt: &R, at: u64) -> (bool, Option<TapeBlock>) {
        let mut shelf = self.shelf.lock(rt);
        let block = shelf.block_at(at);
        let goes_on = !shelf.is_halted();
        let is_low = shelf.is_low();
        drop(shelf);
        if is_low {
            self.tasks.notify_all();
        }
        (goes_on, block)
    }

    /// Puts a parcel for the hand, once there is room. Answers whether the hand will get it.
    pub(crate) fn put<R: Wait>(&self, rt: &R, parcel: P) -> bool {
        let shelf = self.shelf.lock(rt);
        let mut shelf = self.room.wait_while(rt, shelf, |shelf: &mut Shelf<P>| {
            !shelf.has_room() && !shelf.is_halted()
        });
        let is_put = shelf.put(parcel);
        drop(shelf);
        self.tasks.notify_all();
        is_put
    }

    /// No more quanta are run.
    pub(crate) fn end<R: Wait>(&self, rt: &R) {
        self.shelf.lock(rt).end();
        self.tasks.notify_all();
    }

    // ---- by the others

    /// Waits until another thread runs the quanta. If none comes for long, none is to begin any more.
    pub(crate) fn await_begin<R: Wait>(&self, rt: &R) {
        for _ in 0..MOST_LOOKS {
            if !self.shelf.lock(rt).is_coming() {
                return;
            }
            thread::yield_now();
        }
        let mut shelf = self.shelf.lock(rt);
        if shelf.is_coming() {
            shelf.end();
        }
        drop(shelf);
        self.tasks.notify_all();
    }

    /// Waits for the next task of a worker with these duties.
    pub(crate) fn task<R: Wait>(&self, rt: &R, duties: Duties) -> Task<P> {
        let shelf = self.shelf.lock(rt);
        let mut shelf = self.tasks.wait_while(rt, shelf, |shelf: &mut Shelf<P>| {
            !shelf.has_task(duties)
        });
        let task = shelf.task(duties);
        drop(shelf);
        self.room.notify_one();
        task
    }

    /// Lays down a block of draws.
    pub(crate) fn add<R: Wait>(&self, rt: &R, block: TapeBlock) {
        self.shelf.lock(rt).add(block);
    }

    /// The hand takes no more.
    pub(crate) fn halt<R: Wait>(&self, rt: &R) {
        self.shelf.lock(rt).halt();
        self.room.notify_all();
    }
}
