//! The desk over a real file, in the folder that the test runs in, and the source over inputs that fail.

ghost use Rattle.std.specs.Prelude.{refl};

use crate::sources::drain;
use desk_io::{Desk, Piece};
use file_desk::{FileDesk, InputSource, SteadyRead, SteadyWrite};
use std::alloc::{AllocError, Global};
use std::io::{Error, ErrorKind, Read, Write};
use std::os::unix::fs::symlink;
use std::test::Fail;
use std::{fs, io};

const BANK: &str = "tierra.bank";

// What an input does at one read.
#[derive(Clone, Copy)]
enum Turn<'a> {
    Gives(&'a [u8]),
    Fails(ErrorKind),
}

// An input that does these turns in order, and then is at its end.
#[derive(Drop)]
struct Turns<'a> {
    turns: &'a [Turn<'a>],
    next: usize,
}

impl Read for Turns<'_> {
    fn read(&mut self, buf: &mut [u8]) -> io::Result<usize> {
        let Some(turn) = self.turns.get(self.next) else {
            return Ok(0);
        };
        self.next += 1;
        match *turn {
            Turn::Gives(piece) => {
                let count = piece.len().min(buf.len());
                buf[..count].copy_from_slice(&piece[..count]);
                Ok(count)
            }
            Turn::Fails(kind) => Err(Error::from(kind)),
        }
    }
}

impl SteadyRead for Turns<'_> {
    ghost steady = { λ a b. refl };
}

// An output with room for so many bytes, of which it takes two at a time, and each second time only once asked again.
#[derive(Drop)]
struct Narrow {
    bytes: Vec<u8>,
    room: usize,
    is_asked: bool,
}

impl Write for Narrow {
    fn write(&mut self, bytes: &[u8]) -> io::Result<usize> {
        self.is_asked = !self.is_asked;
        if self.is_asked {
            return Err(Error::from(ErrorKind::Interrupted));
        }
        let count = bytes.len().min(self.room).min(2);
        self.bytes.extend_from_slice(&bytes[..count])?;
        self.room -= count;
        Ok(count)
    }

    fn flush(&mut self) -> io::Result<()> {
        Ok(())
    }
}

impl SteadyWrite for Narrow {
    ghost steady = { λ a b. refl };
}

// What an input of these turns gives: whether these are its bytes, the answer that ends them, and the faults.
fn drain_turns(alloc: Global, turns: &[Turn<'_>], want: &[u8]) -> Result<(bool, Piece, u64), Fail> {
    let mut source = InputSource::new(Turns { turns, next: 0 });
    let (bytes, last) = drain(alloc, &mut source)?;
    Ok((bytes.as_slice() == want, last, source.faults))
}

#[test]
fn an_input_is_read_to_its_end_or_its_failure(rt: HostRuntime) -> Result<(), Fail> {
    let again = Turn::Fails(ErrorKind::Interrupted);
    let broken = Turn::Fails(ErrorKind::Other);
    let rows: [(&[Turn<'_>], &[u8], Piece, u64); 6] = [
        (&[], b"", Piece::End, 0),
        (
            &[Turn::Gives(b"a"), Turn::Gives(b"bc"), Turn::Gives(b"def")],
            b"abcdef",
            Piece::End,
            0,
        ),
        (
            &[again, Turn::Gives(b"abc"), again, again, Turn::Gives(b"d")],
            b"abcd",
            Piece::End,
            0,
        ),
        (&[Turn::Gives(b"abc"), again], b"abc", Piece::End, 0),
        (
            &[Turn::Gives(b"ab"), broken, Turn::Gives(b"c")],
            b"ab",
            Piece::Failed,
            1,
        ),
        (&[again, broken], b"", Piece::Failed, 1),
    ];
    for (turns, want, last, faults) in rows {
        let seen = drain_turns(rt.alloc(), turns, want)?;
        assert_eq!(rt; seen, (true, last, faults));
    }
    Ok(())
}

// What another run reads of the file: its length, four bytes at place 1, and whether a read past its end fails.
fn read_back(rt: &HostRuntime) -> Result<(u64, [u8; 4], bool), Fail> {
    let mut again = FileDesk::new(rt, BANK, Vec::new(rt.alloc()));
    let len = again.len()?;
    let mut buf = [0; 4];
    again.read_at(1, &mut buf)?;
    let mut past = [0; 4];
    Ok((len, buf, again.read_at(2, &mut past).is_err()))
}

// Writes five bytes. Gives the length before, and what another run reads meanwhile.
fn written(rt: &HostRuntime) -> Result<(u64, (u64, [u8; 4], bool)), Fail> {
    let mut desk = FileDesk::new(rt, BANK, Vec::new(rt.alloc()));
    let none = desk.len()?;
    desk.write_at(0, b"bank")?;
    desk.sync()?;
    desk.write_at(4, b"!")?;
    Ok((none, read_back(rt)?))
}

#[test]
fn a_file_has_what_was_written(rt: HostRuntime) -> Result<(), Fail> {
    let _ = fs::remove_file(&rt, BANK);
    assert_eq!(rt; written(&rt)?, (0, (5, *b"ank!", true)));
    fs::remove_file(&rt, BANK)?;
    Ok(())
}

// A byte for each place, none like its neighbours.
fn pattern(alloc: Global, len: u32) -> Result<Vec<u8>, AllocError> {
    let mut bytes = Vec::new(alloc);
    for at in 0..len {
        bytes.push((at % 251) as u8)?;
    }
    Ok(bytes)
}

// Writes these bytes in a run, and a byte behind them in another, which opens the file anew. Gives whether a third run
// reads the bytes as they were, and the length that it is told.
fn written_on(rt: &HostRuntime, bytes: &[u8]) -> Result<(bool, u64), Fail> {
    let mut first = FileDesk::new(rt, BANK, Vec::new(rt.alloc()));
    if !bytes.is_empty() {
        first.write_at(0, bytes)?;
    }
    first.sync()?;
    drop(first);
    let mut second = FileDesk::new(rt, BANK, Vec::new(rt.alloc()));
    second.sync()?;
    second.write_at(bytes.len() as u64, b"!")?;
    drop(second);
    let mut third = FileDesk::new(rt, BANK, Vec::new(rt.alloc()));
    let len = third.len()?;
    let mut buf = vec![in rt.alloc(); 0; bytes.len()]?;
    third.read_at(0, &mut buf)?;
    Ok((buf.as_slice() == bytes, len))
}

#[test]
fn a_run_keeps_what_an_earlier_one_wrote(rt: HostRuntime) -> Result<(), Fail> {
    let _ = fs::remove_file(&rt, BANK);
    let bytes = pattern(rt.alloc(), 100_000)?;
    assert_eq!(rt; written_on(&rt, bytes.as_slice())?, (true, 100_001));
    fs::remove_file(&rt, BANK)?;
    Ok(())
}

// Whether a look at the file, a write and a sync fail.
fn fail_at(rt: &HostRuntime) -> [bool; 3] {
    let looked = FileDesk::new(rt, BANK, Vec::new(rt.alloc())).len();
    let written = FileDesk::new(rt, BANK, Vec::new(rt.alloc())).write_at(0, b"bank");
    let synced = FileDesk::new(rt, BANK, Vec::new(rt.alloc())).sync();
    [looked.is_err(), written.is_err(), synced.is_err()]
}

// The name leads to itself, so nothing can be opened. That is no missing file.
#[test]
fn a_file_that_cannot_be_opened_is_not_missing(rt: HostRuntime) -> Result<(), Fail> {
    let _ = fs::remove_file(&rt, BANK);
    symlink(&rt, BANK, BANK)?;
    let failed = fail_at(&rt);
    fs::remove_file(&rt, BANK)?;
    assert_eq!(rt; failed, [true, true, true]);
    Ok(())
}

// Whether a sync and a write of further runs fail.
fn are_kept_out(rt: &HostRuntime) -> (bool, bool) {
    let synced = FileDesk::new(rt, BANK, Vec::new(rt.alloc())).sync();
    let written = FileDesk::new(rt, BANK, Vec::new(rt.alloc())).write_at(0, b"tank");
    (synced.is_err(), written.is_err())
}

// Makes the file, and gives whether others are kept out meanwhile.
fn run_once(rt: &HostRuntime) -> Result<(bool, bool), Fail> {
    let mut run = FileDesk::new(rt, BANK, Vec::new(rt.alloc()));
    run.sync()?;
    run.write_at(0, b"bank")?;
    Ok(are_kept_out(rt))
}

#[test]
fn a_second_run_is_kept_out(rt: HostRuntime) -> Result<(), Fail> {
    let _ = fs::remove_file(&rt, BANK);
    assert_eq!(rt; run_once(&rt)?, (true, true));
    let mut next = FileDesk::new(&rt, BANK, Vec::new(rt.alloc()));
    next.write_at(0, b"t")?;
    fs::remove_file(&rt, BANK)?;
    Ok(())
}

#[test]
fn a_look_makes_no_file(rt: HostRuntime) -> Result<(), Fail> {
    let _ = fs::remove_file(&rt, BANK);
    let len = FileDesk::new(&rt, BANK, Vec::new(rt.alloc())).len()?;
    assert_eq!(rt; (len, fs::metadata(&rt, BANK).is_err()), (0, true));
    Ok(())
}

// The length of the file for a further run, which can read four bytes.
fn len_again(rt: &HostRuntime) -> Result<u64, Fail> {
    let mut again = FileDesk::new(rt, BANK, Vec::new(rt.alloc()));
    let len = again.len()?;
    let mut buf = [0; 4];
    again.read_at(0, &mut buf)?;
    Ok(len)
}

// Writes a file that two others read. Gives the lengths that they are told, and whether the first one fails to read,
// since the file has grown.
fn grown(rt: &HostRuntime) -> Result<(u64, u64, u64, bool), Fail> {
    let mut reader = FileDesk::new(rt, BANK, Vec::new(rt.alloc()));
    let none = reader.len()?;
    let mut run = FileDesk::new(rt, BANK, Vec::new(rt.alloc()));
    run.sync()?;
    run.write_at(0, b"bank")?;
    let four = reader.len()?;
    run.write_at(4, b"!")?;
    let mut buf = [0; 4];
    let failed = reader.read_at(0, &mut buf).is_err();
    Ok((none, four, len_again(rt)?, failed))
}

#[test]
fn a_reader_is_told_that_the_file_grew(rt: HostRuntime) -> Result<(), Fail> {
    let _ = fs::remove_file(&rt, BANK);
    assert_eq!(rt; grown(&rt)?, (0, 4, 5, true));
    fs::remove_file(&rt, BANK)?;
    Ok(())
}

#[test]
fn what_is_told_is_written_or_fails(rt: HostRuntime) -> Result<(), Fail> {
    let mut output = Narrow {
        bytes: Vec::new(rt.alloc()),
        room: 6,
        is_asked: false,
    };
    let mut desk = FileDesk::new(&rt, BANK, &mut output);
    desk.tell(b"saved")?;
    assert!(rt; desk.tell(b"\n0").is_err(), "one byte has room");
    assert_eq!(rt; (desk.disk_faults, desk.tell_faults), (0, 1));
    drop(desk);
    assert_eq!(rt; output.bytes.as_slice(), b"saved\n".as_slice());
    Ok(())
}
