//! Small runs of the source in memory.

ghost use Rattle.std.specs.Prelude.{◌<◌};
ghost use Rattle.desk_io.specs.Source.{HasNoReadFault};

use desk_io::{Piece, Source};
use std::alloc::Global;
use std::test::Fail;
use test_desks::MemSource;

/// The bytes that a source gives, and the answer that ends them.
pub fn drain<S: Source>(alloc: Global, source: &mut S) -> Result<(Vec<u8>, Piece), Fail>
    requires { HasNoReadFault (S.state source.old) }
{
    let mut bytes = Vec::new(alloc);
    let mut buf = [0; 4];
    for _ in 0..10u32 {
        match source.read(&mut buf) {
            Piece::Got(count) => bytes.extend_from_slice(&buf[..count])?,
            last => return Ok((bytes, last)),
        }
    }
    Ok((bytes, Piece::Got(0)))
}

// The bytes 1 to 5, as a source gives them that has this cut and fails at these calls.
fn drain_five(alloc: Global, cut: usize, fails: &[u64]) -> Result<(Vec<u8>, Piece), Fail>
    requires { 0 < cut }
{
    let bytes = [1, 2, 3, 4, 5].to_vec(alloc)?;
    let mut source = MemSource::new(bytes, cut, fails.to_vec(alloc)?);
    drain(alloc, &mut source)
}

#[test]
fn a_source_gives_its_bytes_up_to_a_listed_call(rt: HostRuntime) -> Result<(), Fail> {
    let rows: [(usize, &[u64], &[u8], Piece); 6] = [
        (1, &[], &[1, 2, 3, 4, 5], Piece::End),
        (3, &[], &[1, 2, 3, 4, 5], Piece::End),
        (9, &[], &[1, 2, 3, 4, 5], Piece::End),
        (2, &[1], &[], Piece::Failed),
        (2, &[3], &[1, 2, 3, 4], Piece::Failed),
        (2, &[5, 9], &[1, 2, 3, 4, 5], Piece::End),
    ];
    for (cut, fails, want, last) in rows {
        let (got, end) = drain_five(rt.alloc(), cut, fails)?;
        assert_eq!(rt; (got.as_slice(), end), (want, last), "a cut of {cut}");
    }
    Ok(())
}
