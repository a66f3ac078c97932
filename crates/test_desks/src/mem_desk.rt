//! A desk in memory, which keeps a record of its calls and can be crashed at any moment.
ghost use Rattle.std.specs.Prelude.{◌≡◌, ◌⊎◌, ◌+◌, ◌<◌, ◌≤◌, ◌↔◌, ◌^◌, [], true, false, List, ℕ, None, Some, length, take, drop, unwrap_or, is_err, IsErr, IsTrue, IfOk, IfSome, OnOk, OnErr};
ghost use Rattle.desk_io.specs.Desk.{spliced, Torn, Follows, NoMore, HasNoFault, IsDiskCall, IsSynced, IsTellCall, Tells, Untouched, UsesDisk, Written};
ghost use Rattle.test_desks.specs.Calls.{written_with, file_with, picked_piece, crash_image};
ghost use Rattle.test_desks.specs.Fits.{IsInside, Fits, IsMoment};
ghost use Rattle.test_desks.specs.Kept.{changes_nothing};
ghost use Rattle.test_desks.specs.MemDesk.{now, file_of, reads_of, images_of, told_of, state_of, TellsFile, IsDiskCallDue, IsTellDue, noted, disk_counted, disk_starved, NotesDiskCall, tell_counted, tell_starved, NotesTell, NotesWrite};

use crate::call::{Bytes, Call, CallRecord};
use crate::listed::is_next_due;
use desk_io::{Desk, DiskFailed, TellFailed};
use std::alloc::{AllocError, Global};
use std::marker::Model;

/// The greatest length of a file.
const MAX_LEN: u64 = 1 << 62;

/// No memory was left.
#[derive(Clone, Copy, Debug, PartialEq, Eq)]
pub struct OutOfMemory;

impl From<AllocError> for OutOfMemory {
    ghost from_gives = { λ _ e. Unit {0} };

    fn from(_: AllocError) -> Self {
        OutOfMemory
    }
}

/// A desk that keeps what it is told, and fails at the calls that it is told to.
#[derive(Drop)]
pub struct MemDesk {
    alloc: Global,
    // The file at the start.
    image: Vec<u8>,
    calls: Vec<CallRecord>,
    // How many of the calls are tells, and how many came before the file was last made durable.
    tells: usize,
    synced: usize,
    // The durable file, unless it is still the image; and what a read gives, unless it is the durable file.
    durable: Option<Bytes>,
    file: Option<Bytes>,
    told: Vec<u8>,
    disk_fails: Vec<u64>,
    tell_fails: Vec<u64>,
    stop: Option<u64>,
    disk_faults: u64,
    tell_faults: u64,
    starved: u64,
}

impl Model for MemDesk {
    ghost use Rattle.std.specs.Prelude.{◌+◌, ◌≤◌, unwrap_or};
    ghost use Rattle.test_desks.specs.Kept.{IsKept};
    ghost use Rattle.test_desks.specs.MemDesk.{MemDeskState, after_calls};

    ghost Value = { MemDeskState };

    ghost view = { λ d. record {
      image = d.image.items;
      calls = d.calls.items;
      disk_fails = d.disk_fails.items;
      tell_fails = d.tell_fails.items;
      stop = d.stop;
      disk_faults = d.disk_faults;
      tell_faults = d.tell_faults;
      starved = d.starved;
    } };

    ghost invariant = { λ d.
        let durable = unwrap_or d.durable d.image.items in
        let moment = after_calls d.image.items d.calls.items in
        IsKept d.calls.items moment durable (unwrap_or d.file durable) d.told.items d.synced d.tells
        × (d.starved ≤ d.disk_faults + d.tell_faults) };
}

// The file with a piece at a place.
fn splice(alloc: Global, file: &[u8], at: usize, piece: &[u8]) -> Result<Vec<u8>, AllocError>
    requires { at ≤ length file.now }
    ensures { IfOk result (λ v. v.items ≡ spliced file.now at piece.now) }
{
    let mut next = file[..at].to_vec(alloc)?;
    next.extend_from_slice(piece)?;
    if piece.len() < file.len() - at {
        next.extend_from_slice(&file[at + piece.len()..])?;
    }
    Ok(next)
}

// The piece as a crash is to leave it.
fn filled(alloc: Global, piece: &[u8], pick: u32) -> Result<Vec<u8>, AllocError>
    ensures { IfOk result (λ v. v.items ≡ picked_piece pick piece.now) }
{
    match pick {
        2 => vec![in alloc; 0xff; piece.len()],
        3 => vec![in alloc; 0x01; piece.len()],
        _ => piece.to_vec(alloc),
    }
}

// The image after a call, as a crash is to leave it.
fn picked(alloc: Global, image: Vec<u8>, pick: u32, call: &Call) -> Result<Vec<u8>, AllocError>
    requires { IsInside (length image.items) call.now }
    ensures { IfOk result (λ v. v.items ≡ written_with (picked_piece pick) image.items call.now) }
{
    match call {
        Call::Write { at, piece } => {
            let piece = filled(alloc, &piece.items, pick)?;
            splice(alloc, &image, *at as usize, &piece)
        }
        _ => Ok(image),
    }
}

// The image after some calls, as a crash is to leave it.
fn crashed(
    alloc: Global,
    durable: &[u8],
    since: &[CallRecord],
    pick: u32,
) -> Result<Vec<u8>, AllocError>
    requires { Fits (length durable.now) since.now }
    ensures { IfOk result (λ v. v.items ≡ file_with (picked_piece pick) durable.now since.now) }
{
    let mut image = durable.to_vec(alloc)?;
    for record in since {
        image = picked(alloc, image, pick, &record.call)?;
    }
    Ok(image)
}

// Moves the newer bytes, if there are any, over the older ones.
fn move_over(newer: &mut Option<Bytes>, older: &mut Option<Bytes>)
    ensures moved { (first : List ℕ)
        → unwrap_or older.new first ≡ unwrap_or newer.old (unwrap_or older.old first) }
    ensures gone { newer.new ≡ None }
{
    if let Some(bytes) = newer.take() {
        *older = Some(bytes);
    }
}

impl MemDesk {
    /// A desk over a durable file. The disk calls and the tells whose numbers are listed fail, where each kind
    /// is counted from 1; so do the call whose number among all is `stop` and those after it.
    pub fn new(
        alloc: Global,
        image: Vec<u8>,
        disk_fails: Vec<u64>,
        tell_fails: Vec<u64>,
        stop: Option<u64>,
    ) -> MemDesk
        ensures { result ≡ record {
          image = image.items;
          calls = [];
          disk_fails = disk_fails.items;
          tell_fails = tell_fails.items;
          stop = stop;
          disk_faults = 0;
          tell_faults = 0;
          starved = 0;
        } }
    {
        MemDesk {
            alloc,
            image,
            calls: Vec::new(alloc),
            tells: 0,
            synced: 0,
            durable: None,
            file: None,
            told: Vec::new(alloc),
            disk_fails,
            tell_fails,
            stop,
            disk_faults: 0,
            tell_faults: 0,
            starved: 0,
        }
    }

    /// The text told so far.
    pub fn told(&self) -> &Vec<u8>
        ensures { result.now.items ≡ told_of self.now }
    {
        &self.told
    }

    /// How many calls found no memory.
    pub fn starved(&self) -> u64
        ensures { result ≡ self.now.starved }
    {
        self.starved
    }

    /// The calls so far, the first one first. A call that found no memory is not among them.
    pub fn calls(&self) -> &Vec<CallRecord>
        ensures { result.now.items ≡ self.now.calls }
    {
        &self.calls
    }

    /// An image that a crash now may leave. Pick 0 is without the writes since the last sync that succeeded,
    /// 1 with them, 2 with their ranges full of the byte 0xff, 3 with their ranges full of the byte 0x01.
    pub fn crash(&self, pick: u32) -> Result<Vec<u8>, OutOfMemory>
        requires { pick < 4 }
        ensures image { IfOk result (λ v. v.items ≡ crash_image pick (now self.now)) }
        ensures leaves { IfOk result (λ v. images_of self.now v.items) }
    {
        Ok(self.image_left(pick)?)
    }

    fn image_left(&self, pick: u32) -> Result<Vec<u8>, AllocError>
        ensures image { IfOk result (λ v. v.items ≡ crash_image pick (now self.now)) }
        ensures sound { IsMoment (now self.now) }
    {
        let durable = self.durable();
        if pick == 0 {
            return durable.to_vec(self.alloc);
        }
        crashed(self.alloc, durable, &self.calls[self.synced..], pick)
    }

    // The file as it was last made durable.
    fn durable(&self) -> &Vec<u8>
        ensures { result.now.items ≡ (now self.now).durable }
    {
        match &self.durable {
            Some(bytes) => &bytes.items,
            None => &self.image,
        }
    }

    // What a read gives.
    fn file(&self) -> &Vec<u8>
        ensures { result.now.items ≡ file_of self.now }
    {
        match &self.file {
            Some(bytes) => &bytes.items,
            None => self.durable(),
        }
    }

    fn is_disk_call_due(&self) -> bool
        ensures { IsTrue result ↔ IsDiskCallDue self.now }
    {
        let calls = self.calls.len();
        is_next_due(&self.disk_fails, calls - self.tells, self.stop, calls)
    }

    fn is_tell_due(&self) -> bool
        ensures { IsTrue result ↔ IsTellDue self.now }
    {
        is_next_due(&self.tell_fails, self.tells, self.stop, self.calls.len())
    }

    // Notes a call that changes nothing.
    fn note(&mut self, call: Call, failed: bool) -> Result<(), AllocError>
        requires { changes_nothing call failed ≡ true }
        ensures ok { OnOk result (self.new ≡ noted self.old call failed) }
        ensures err { OnErr result (self.new ≡ self.old) }
        ensures sound { IsMoment (now self.old) }
    {
        let tell = call.is_tell();
        self.calls.push(CallRecord { call, failed })?;
        if tell {
            self.tells += 1;
        }
        Ok(())
    }

    // Notes a write. From now on a read gives what it wrote, even if the write fails.
    fn note_write(&mut self, at: u64, piece: &[u8], failed: bool) -> Result<(), AllocError>
        requires { IfSome (reads_of self.old) (λ xs. at ≤ length xs) }
        ensures ok { OnOk result (self.new ≡ noted self.old (Call.Write at piece.now) failed) }
        ensures err { OnErr result (self.new ≡ self.old) }
        ensures sound { IsMoment (now self.old) }
    {
        let next = splice(self.alloc, self.file(), at as usize, piece)?;
        let items = piece.to_vec(self.alloc)?;
        let call = Call::Write {
            at,
            piece: Bytes { items },
        };
        self.calls.push(CallRecord { call, failed })?;
        self.file = Some(Bytes { items: next });
        Ok(())
    }

    // Notes a sync. Where it succeeds, what a read gives is durable.
    fn note_sync(&mut self, failed: bool) -> Result<(), AllocError>
        ensures ok { OnOk result (self.new ≡ noted self.old Call.Sync failed) }
        ensures err { OnErr result (self.new ≡ self.old) }
        ensures sound { IsMoment (now self.old) }
    {
        if failed {
            return self.note(Call::Sync, true);
        }
        let call = Call::Sync;
        self.calls.push(CallRecord {
            call,
            failed: false,
        })?;
        self.synced = self.calls.len();
        move_over(&mut self.file, &mut self.durable);
        Ok(())
    }

    // Notes a tell. Where it succeeds, its piece is told.
    fn note_tell(&mut self, piece: &[u8], failed: bool) -> Result<(), AllocError>
        ensures ok { OnOk result (self.new ≡ noted self.old (Call.Tell piece.now) failed) }
        ensures err { OnErr result (self.new ≡ self.old) }
        ensures sound { IsMoment (now self.old) }
    {
        let items = piece.to_vec(self.alloc)?;
        let call = Call::Tell {
            piece: Bytes { items },
        };
        if failed {
            return self.note(call, true);
        }
        self.calls.reserve(1)?;
        self.told.extend_from_slice(piece)?;
        self.calls.push_reserved(CallRecord {
            call,
            failed: false,
        });
        self.tells += 1;
        Ok(())
    }

    // Answers a disk call. One that fails, or found no memory for its record, is counted.
    fn settle_disk(&mut self, noted: Result<(), AllocError>, failed: bool) -> Result<(), DiskFailed>
        requires sound { HasNoFault (state_of self.old) }
        ensures noted { OnOk noted (self.new ≡ disk_counted self.old failed) }
        ensures starved { OnErr noted (self.new ≡ disk_starved self.old) }
        ensures answer { IsErr result ↔ (IsErr noted ⊎ IsTrue failed) }
    {
        if noted.is_err() {
            self.starved += 1;
            self.disk_faults += 1;
            return Err(DiskFailed);
        }
        if failed {
            self.disk_faults += 1;
            return Err(DiskFailed);
        }
        Ok(())
    }

    // Answers a tell. One that fails, or found no memory for its record, is counted.
    fn settle_tell(&mut self, told: Result<(), AllocError>, failed: bool) -> Result<(), TellFailed>
        requires sound { HasNoFault (state_of self.old) }
        ensures noted { OnOk told (self.new ≡ tell_counted self.old failed) }
        ensures starved { OnErr told (self.new ≡ tell_starved self.old) }
        ensures answer { IsErr result ↔ (IsErr told ⊎ IsTrue failed) }
    {
        if told.is_err() {
            self.starved += 1;
            self.tell_faults += 1;
            return Err(TellFailed);
        }
        if failed {
            self.tell_faults += 1;
            return Err(TellFailed);
        }
        Ok(())
    }

    // Makes a disk call that changes nothing.
    fn call_plainly(&mut self, call: Call, failed: bool) -> Result<(), DiskFailed>
        requires sound { HasNoFault (state_of self.old) }
        requires plain { changes_nothing call failed ≡ true }
        ensures file { TellsFile self.old × TellsFile self.new }
        ensures noted { NotesDiskCall self.old call (is_err result) self.new }
        ensures answer { IsErr result ↔ (IsTrue failed ⊎ (self.old.starved < self.new.starved)) }
        ensures untouched { Untouched (state_of self.old) (state_of self.new) }
        ensures uses { UsesDisk (state_of self.old) (state_of self.new) (images_of self.new) }
    {
        let noted = self.note(call, failed);
        self.settle_disk(noted, failed)
    }

    fn call_write(&mut self, at: u64, piece: &[u8], failed: bool) -> Result<(), DiskFailed>
        requires sound { HasNoFault (state_of self.old) }
        requires inside { IfSome (reads_of self.old) (λ xs. at ≤ length xs) }
        ensures file { TellsFile self.old × TellsFile self.new }
        ensures noted { NotesDiskCall self.old (Call.Write at piece.now) (is_err result) self.new }
        ensures answer { IsErr result ↔ (IsTrue failed ⊎ (self.old.starved < self.new.starved)) }
        ensures crash { Follows (Torn at (length piece.now)) (images_of self.old) (images_of self.new) }
        ensures uses { UsesDisk (state_of self.old) (state_of self.new) (images_of self.new) }
    {
        let noted = self.note_write(at, piece, failed);
        self.settle_disk(noted, failed)
    }

    fn call_sync(&mut self, failed: bool) -> Result<(), DiskFailed>
        requires sound { HasNoFault (state_of self.old) }
        ensures file { TellsFile self.old × TellsFile self.new }
        ensures noted { NotesDiskCall self.old Call.Sync (is_err result) self.new }
        ensures answer { IsErr result ↔ (IsTrue failed ⊎ (self.old.starved < self.new.starved)) }
        ensures crash { NoMore (images_of self.old) (images_of self.new) }
        ensures uses { UsesDisk (state_of self.old) (state_of self.new) (images_of self.new) }
    {
        let noted = self.note_sync(failed);
        self.settle_disk(noted, failed)
    }

    fn call_tell(&mut self, piece: &[u8], failed: bool) -> Result<(), TellFailed>
        requires sound { HasNoFault (state_of self.old) }
        ensures noted { NotesTell self.old (Call.Tell piece.now) (is_err result) self.new }
        ensures answer { IsErr result ↔ (IsTrue failed ⊎ (self.old.starved < self.new.starved)) }
        ensures tells { Tells (state_of self.old) (state_of self.new) piece.now result }
    {
        let told = self.note_tell(piece, failed);
        self.settle_tell(told, failed)
    }
}

impl Desk for MemDesk {
    ghost use Rattle.test_desks.specs.MemDesk.{state_of};
    ghost use Rattle.test_desks.specs.MemDeskLaws.{lawful};

    ghost state = { state_of };

    fn len(&mut self) -> Result<u64, DiskFailed>
        requires sound { HasNoFault (state_of self.old) }

        // As every desk does.
        ensures most { IfOk result (λ n. n ≤ 2 ^ 62) }
        ensures value { IfOk result (λ n. IfSome (reads_of self.old) (λ xs. n ≡ length xs)) }
        ensures untouched { Untouched (state_of self.old) (state_of self.new) }
        ensures call { IsDiskCall (state_of self.old) (state_of self.new) result (images_of self.new) }

        // And beyond that.
        ensures failed { IsErr result
            ↔ ((IsDiskCallDue self.old ⊎ (2 ^ 62 < length (file_of self.old)))
            ⊎ (self.old.starved < self.new.starved)) }
        ensures noted { NotesDiskCall self.old Call.Len (is_err result) self.new }
    {
        let len = self.file().len() as u64;
        let failed = self.is_disk_call_due() || len > MAX_LEN;
        self.call_plainly(Call::Len, failed).map(|()| len)
    }

    fn read_at(&mut self, at: u64, buf: &mut [u8]) -> Result<(), DiskFailed>
        requires sound { HasNoFault (state_of self.old) }
        requires inside { IfSome (reads_of self.old) (λ xs. at + length buf.old ≤ length xs) }

        // As every desk does.
        ensures bytes { OnOk result
            (IfSome (reads_of self.old) (λ xs. buf.new ≡ take (length buf.old) (drop at xs))) }
        ensures untouched { Untouched (state_of self.old) (state_of self.new) }
        ensures call { IsDiskCall (state_of self.old) (state_of self.new) result (images_of self.new) }

        // And beyond that.
        ensures failed { IsErr result ↔ (IsDiskCallDue self.old ⊎ (self.old.starved < self.new.starved)) }
        ensures noted { NotesDiskCall self.old (Call.Read at (length buf.old)) (is_err result) self.new }
        ensures unread { OnErr result (buf.new ≡ buf.old) }
    {
        let len = buf.len();
        let failed = self.is_disk_call_due();
        self.call_plainly(Call::Read { at, len }, failed)?;
        let start = at as usize;
        buf.copy_from_slice(&self.file()[start..start + len]);
        Ok(())
    }

    fn write_at(&mut self, at: u64, piece: &[u8]) -> Result<(), DiskFailed>
        requires sound { HasNoFault (state_of self.old) }
        requires inside { IfSome (reads_of self.old) (λ xs. at ≤ length xs) }
        requires some { 0 < length piece.now }

        // As every desk does.
        ensures written { OnOk result (Written (state_of self.old) at piece.now (state_of self.new)) }
        ensures most { OnOk result (at + length piece.now ≤ 2 ^ 62) }
        ensures crash { Follows (Torn at (length piece.now)) (images_of self.old) (images_of self.new) }
        ensures call { IsDiskCall (state_of self.old) (state_of self.new) result (images_of self.new) }

        // And beyond that.
        ensures failed { IsErr result
            ↔ ((IsDiskCallDue self.old ⊎ (2 ^ 62 < at + length piece.now)) ⊎ (self.old.starved < self.new.starved)) }
        ensures noted { NotesWrite self.old at piece.now (is_err result) self.new }
    {
        let len = piece.len();
        if at > MAX_LEN || len as u64 > MAX_LEN - at {
            return self.call_plainly(Call::TooLong { at, len }, true);
        }
        let failed = self.is_disk_call_due();
        self.call_write(at, piece, failed)
    }

    fn sync(&mut self) -> Result<(), DiskFailed>
        requires sound { HasNoFault (state_of self.old) }

        // As every desk does.
        ensures synced { OnOk result (IsSynced (state_of self.old) (state_of self.new)) }
        ensures crash { NoMore (images_of self.old) (images_of self.new) }
        ensures call { IsDiskCall (state_of self.old) (state_of self.new) result (images_of self.new) }

        // And beyond that.
        ensures reads { reads_of self.new ≡ reads_of self.old }
        ensures failed { IsErr result ↔ (IsDiskCallDue self.old ⊎ (self.old.starved < self.new.starved)) }
        ensures noted { NotesDiskCall self.old Call.Sync (is_err result) self.new }
    {
        let failed = self.is_disk_call_due();
        self.call_sync(failed)
    }

    fn tell(&mut self, piece: &[u8]) -> Result<(), TellFailed>
        requires sound { HasNoFault (state_of self.old) }

        // As every desk does; a tell that fails has appended nothing.
        ensures call { IsTellCall (state_of self.old) (state_of self.new) piece.now result }
        ensures untold { OnErr result (told_of self.new ≡ told_of self.old) }

        // And beyond that.
        ensures failed { IsErr result ↔ (IsTellDue self.old ⊎ (self.old.starved < self.new.starved)) }
        ensures noted { NotesTell self.old (Call.Tell piece.now) (is_err result) self.new }
    {
        let failed = self.is_tell_due();
        self.call_tell(piece, failed)
    }

    ghost lawful = { lawful };
}
