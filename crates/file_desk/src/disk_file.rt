//! A file of the working folder, opened when it is first used. Contracts say nothing of what it holds.

ghost use Rattle.std.specs.Prelude.{◌≤◌, ◌^◌, ◌+◌, IfOk, OnOk, length};

use std::fs::{File, OpenOptions};
use std::io;
use std::os::unix::fs::FileExt;
use std::rt::Files;

/// The greatest length of a file.
const MAX_LEN: u64 = 1 << 62;

/// Before the first sync or write the file is only read, and a missing one counts as empty. The first sync or write
/// creates it where it is missing, and locks it, so that a second run in the folder is kept out.
#[derive(Drop)]
pub struct DiskFile<'r, R: Files<File = File>> {
    rt: &'r R,
    name: &'static str,
    file: Option<File>,
    is_locked: bool,
    // the length that was told last
    told_len: Option<u64>,
}

// Files in place of standard streams that the caller closed. While they are open, the desk's file cannot get the number
// of such a stream, where what is printed would go into it.
fn stand_ins<R: Files<File = File>>(rt: &R) -> [Option<File>; 3] {
    [
        File::open(rt, "/dev/null").ok(),
        File::open(rt, "/dev/null").ok(),
        File::open(rt, "/dev/null").ok(),
    ]
}

// The file to read from, if there is one.
fn found<'f, R: Files<File = File>>(
    rt: &R,
    name: &str,
    file: &'f mut Option<File>,
) -> io::Result<Option<&'f File>> {
    if file.is_none() {
        let _stand_ins = stand_ins(rt);
        match File::open(rt, name) {
            Ok(opened) => *file = Some(opened),
            Err(fault) if fault.kind() == io::ErrorKind::NotFound => {}
            Err(fault) => return Err(fault),
        }
    }
    Ok(file.as_ref())
}

// Opens and locks the file to write to, and creates it where it is missing. An error where another run has locked it.
// An empty file may be new, so its folder is synced before the first write.
fn open_locked<R: Files<File = File>>(rt: &R, name: &str) -> io::Result<File> {
    let mut how = OpenOptions::new();
    how.read(true).write(true).create(true);
    let _stand_ins = stand_ins(rt);
    let opened = how.open(rt, name)?;
    opened.try_lock()?;
    if opened.metadata()?.len() == 0 {
        File::open(rt, ".")?.sync_all()?;
    }
    Ok(opened)
}

// The file to write to, which stays locked.
fn locked<'f, R: Files<File = File>>(
    rt: &R,
    name: &str,
    file: &'f mut Option<File>,
    is_locked: &mut bool,
) -> io::Result<&'f File> {
    if !*is_locked {
        *file = Some(open_locked(rt, name)?);
        *is_locked = true;
    }
    match file {
        Some(file) => Ok(file),
        None => Err(io::Error::from(io::ErrorKind::NotFound)),
    }
}

fn length_of(file: &File) -> io::Result<u64>
    ensures { IfOk result (λ n. n ≤ 2 ^ 62) }
{
    let len = file.metadata()?.len();
    if len > MAX_LEN {
        return Err(io::Error::from(io::ErrorKind::InvalidData));
    }
    Ok(len)
}

// An error where a length was told and the file has another one.
fn has_length(file: &File, told: Option<u64>) -> io::Result<()> {
    match told {
        Some(told) if length_of(file)? != told => {
            Err(io::Error::from(io::ErrorKind::ResourceBusy))
        }
        _ => Ok(()),
    }
}

fn write(file: &File, at: u64, piece: &[u8]) -> io::Result<()>
    ensures { OnOk result (at + length piece.now ≤ 2 ^ 62) }
{
    if at > MAX_LEN || piece.len() as u64 > MAX_LEN - at {
        return Err(io::Error::from(io::ErrorKind::FileTooLarge));
    }
    file.write_all_at(piece, at)
}

impl<'r, R: Files<File = File>> DiskFile<'r, R> {
    /// The file of this name, which is not opened yet.
    pub fn new(rt: &'r R, name: &'static str) -> DiskFile<'r, R> {
        DiskFile {
            rt,
            name,
            file: None,
            is_locked: false,
            told_len: None,
        }
    }

    /// The length in bytes, 0 where there is no file.
    pub fn len(&mut self) -> io::Result<u64>
        ensures { IfOk result (λ n. n ≤ 2 ^ 62) }
    {
        let len = match found(self.rt, self.name, &mut self.file)? {
            Some(file) => length_of(file)?,
            None => 0,
        };
        self.told_len = Some(len);
        Ok(len)
    }

    /// Fills the buffer with the bytes at a place. An error where the file ends earlier. Also an error where the file
    /// is not locked and no longer has the length that was told: then another run appends to it, and what was read may
    /// lack a part.
    pub fn read_at(&mut self, at: u64, buf: &mut [u8]) -> io::Result<()> {
        let Some(file) = found(self.rt, self.name, &mut self.file)? else {
            return Err(io::Error::from(io::ErrorKind::UnexpectedEof));
        };
        file.read_exact_at(buf, at)?;
        if self.is_locked {
            return Ok(());
        }
        has_length(file, self.told_len)
    }

    /// Writes the piece at a place. An error where another run has the file, or the end would pass 2^62.
    pub fn write_at(&mut self, at: u64, piece: &[u8]) -> io::Result<()>
        ensures { OnOk result (at + length piece.now ≤ 2 ^ 62) }
    {
        let file = locked(self.rt, self.name, &mut self.file, &mut self.is_locked)?;
        write(file, at, piece)
    }

    /// Makes what was written durable. An error where another run has the file.
    pub fn sync(&mut self) -> io::Result<()> {
        locked(self.rt, self.name, &mut self.file, &mut self.is_locked)?.sync_all()
    }
}
