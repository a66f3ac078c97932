//! A source over an input. It tells its bytes where the input does.

ghost use Rattle.std.specs.Prelude.{◌≡◌, ◌≤◌, ◌+◌, IfOk, IsErr, Ok, length};
ghost use Rattle.std.specs.Io.KnownBytes.{ReadConsumes};
ghost use Rattle.desk_io.specs.Source.{IfGot, IsReadCall, untold};

use crate::steady::SteadyRead;
use desk_io::{Piece, Source};
use std::io;

/// The source over an input, such as standard input.
#[derive(Drop)]
pub struct InputSource<I: SteadyRead> {
    pub input: I,
    /// How many reads failed.
    pub faults: u64,
}

impl<I: SteadyRead> InputSource<I> {
    /// A source of which nothing was read yet.
    pub fn new(input: I) -> InputSource<I>
        ensures input { result.input ≡ input }
        ensures faults { result.faults ≡ 0 }
    {
        InputSource { input, faults: 0 }
    }
}

// A read that a signal interrupted is made again.
fn read_some<I: SteadyRead>(input: &mut I, buf: &mut [u8]) -> io::Result<usize>
    ensures fits { IfOk result (λ count. count ≤ length buf.new) }
    ensures bytes { ReadConsumes (I.remaining input.old) (I.remaining input.new) result buf.new }
{
    for _ in 0..u64::MAX {
        match input.read(buf) {
            Err(fault) if fault.kind() == io::ErrorKind::Interrupted => {}
            answer => return answer,
        }
    }
    Err(io::Error::from(io::ErrorKind::Interrupted))
}

// The piece that a read gives. A read of no bytes is the end of the source. A read that failed is counted.
fn piece_of(read: io::Result<usize>, buf: &[u8], faults: &mut u64) -> Piece
    requires room { faults.old ≡ 0 }
    requires fits { IfOk read (λ count. count ≤ length buf.now) }
    ensures call { IsReadCall result buf.now (untold faults.old) (untold faults.new) }
    ensures got { IfGot result (λ count. read ≡ Ok count) }
    ensures end { result ≡ Piece.End → read ≡ Ok 0 }
    ensures failed { result ≡ Piece.Failed → IsErr read }
    ensures counted { result ≡ Piece.Failed → faults.new ≡ faults.old + 1 }
{
    match read {
        Ok(0) => Piece::End,
        Ok(count) => Piece::Got(count),
        Err(_) => {
            *faults += 1;
            Piece::Failed
        }
    }
}

impl<I: SteadyRead> Source for InputSource<I> {
    ghost state = { λ s. record { left = I.remaining s.input; faults = s.faults } };

    fn read(&mut self, buf: &mut [u8]) -> Piece {
        let read = read_some(&mut self.input, buf);
        piece_of(read, buf, &mut self.faults)
    }
}
