//! A desk over a file and an output. It tells nothing of the file, and the printed text where the output tells what it
//! has taken.

ghost use Rattle.std.specs.Prelude.{◌≡◌, ◌≤◌, ◌+◌, IfOk, IsErr, IsOk, OnErr, OnOk, Ok, length, take};
ghost use Rattle.desk_io.specs.Desk.{Appended, AppendedSome};

use crate::disk_file::DiskFile;
use crate::steady::SteadyWrite;
use desk_io::{Desk, DiskFailed, TellFailed};
use std::fs::File;
use std::io;
use std::rt::Files;

/// The desk over a file of the working folder and an output, such as standard output.
#[derive(Drop)]
pub struct FileDesk<'r, R: Files<File = File>, W: SteadyWrite> {
    file: DiskFile<'r, R>,
    pub output: W,
    /// How many disk calls failed, and how many tells.
    pub disk_faults: u64,
    pub tell_faults: u64,
}

impl<'r, R: Files<File = File>, W: SteadyWrite> FileDesk<'r, R, W> {
    /// A desk over the file of this name, which is not opened yet, and on which nothing was told yet.
    pub fn new(rt: &'r R, name: &'static str, output: W) -> FileDesk<'r, R, W>
        ensures output { result.output ≡ output }
        ensures disk { result.disk_faults ≡ 0 }
        ensures tells { result.tell_faults ≡ 0 }
    {
        FileDesk {
            file: DiskFile::new(rt, name),
            output,
            disk_faults: 0,
            tell_faults: 0,
        }
    }
}

// What a disk call answers. One that failed is counted.
fn disk_answer<T>(called: io::Result<T>, faults: &mut u64) -> Result<T, DiskFailed>
    requires room { faults.old ≡ 0 }
    ensures value { IfOk result (λ value. called ≡ Ok value) }
    ensures failed { OnErr result (IsErr called) }
    ensures counted { OnErr result (faults.new ≡ faults.old + 1) }
    ensures steady { OnOk result (faults.new ≡ faults.old) }
{
    match called {
        Ok(value) => Ok(value),
        Err(_) => {
            *faults += 1;
            Err(DiskFailed)
        }
    }
}

// What a tell answers. One that failed is counted.
fn tell_answer(told: io::Result<()>, faults: &mut u64) -> Result<(), TellFailed>
    requires room { faults.old ≡ 0 }
    ensures value { OnOk result (IsOk told) }
    ensures failed { OnErr result (IsErr told) }
    ensures counted { OnErr result (faults.new ≡ faults.old + 1) }
    ensures steady { OnOk result (faults.new ≡ faults.old) }
{
    match told {
        Ok(()) => Ok(()),
        Err(_) => {
            *faults += 1;
            Err(TellFailed)
        }
    }
}

// Writes some of the bytes. A write that a signal interrupted is made again.
fn print_some<W: SteadyWrite>(output: &mut W, bytes: &[u8]) -> io::Result<usize>
    ensures fits { IfOk result (λ count. count ≤ length bytes.now) }
    ensures ok { IfOk result (λ count.
        Appended (W.contents output.old) (take count bytes.now) (W.contents output.new)) }
    ensures err { OnErr result (W.contents output.new ≡ W.contents output.old) }
{
    for _ in 0..u64::MAX {
        match output.write(bytes) {
            Err(fault) if fault.kind() == io::ErrorKind::Interrupted => {}
            answer => return answer,
        }
    }
    Err(io::Error::from(io::ErrorKind::Interrupted))
}

/// Writes the piece, and flushes it. A failure leaves a beginning of the piece written.
pub fn print<W: SteadyWrite>(output: &mut W, piece: &[u8]) -> io::Result<()>
    ensures all { OnOk result (Appended (W.contents output.old) piece.now (W.contents output.new)) }
    ensures partly { AppendedSome (W.contents output.old) piece.now (W.contents output.new) }
{
    let mut at = 0;
    while at < piece.len() {
        let count = print_some(output, &piece[at..])?;
        if count == 0 {
            return Err(io::Error::from(io::ErrorKind::WriteZero));
        }
        at += count;
    }
    output.flush()
}

impl<'r, R: Files<File = File>, W: SteadyWrite> Desk for FileDesk<'r, R, W> {
    ghost use Rattle.file_desk.specs.Printed.{desk_of, lawful};

    ghost state = { λ d. desk_of (W.contents d.output) d.disk_faults d.tell_faults };

    fn len(&mut self) -> Result<u64, DiskFailed> {
        disk_answer(self.file.len(), &mut self.disk_faults)
    }

    fn read_at(&mut self, at: u64, buf: &mut [u8]) -> Result<(), DiskFailed> {
        disk_answer(self.file.read_at(at, buf), &mut self.disk_faults)
    }

    fn write_at(&mut self, at: u64, piece: &[u8]) -> Result<(), DiskFailed> {
        disk_answer(self.file.write_at(at, piece), &mut self.disk_faults)
    }

    fn sync(&mut self) -> Result<(), DiskFailed> {
        disk_answer(self.file.sync(), &mut self.disk_faults)
    }

    fn tell(&mut self, piece: &[u8]) -> Result<(), TellFailed> {
        tell_answer(print(&mut self.output, piece), &mut self.tell_faults)
    }

    ghost lawful = { λ d. lawful (W.contents d.output) d.disk_faults d.tell_faults };
}
