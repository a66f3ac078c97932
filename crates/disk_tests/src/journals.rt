//! Files of records over desks in memory.

ghost use Rattle.desk_io.specs.Desk.{HasNoFault};
ghost use Rattle.test_desks.specs.MemDesk.{state_of};

use crate::calls::{calls_of, desk_over};
use file_journal::{Header, Room, append, open};
use std::alloc::Global;
use std::test::Fail;
use test_desks::MemDesk;

const HEADER: Header = Header {
    title: *b"Tierra test1",
    digest: [7; 32],
};

// A whole header, and these bytes from the gate of record 0 on.
fn file_with(alloc: Global, behind: &[u8]) -> Result<Vec<u8>, Fail> {
    let mut file = b"Tierra test1".to_vec(alloc)?;
    file.extend_from_slice(&[7; 32])?;
    file.extend_from_slice(behind)?;
    Ok(file)
}

// Opens a fresh file: the calls that this took, and the file that is left.
fn opened(alloc: Global, image: &[u8]) -> Result<(String, Vec<u8>), Fail> {
    let mut desk = desk_over(alloc, image)?;
    if open(alloc, &mut desk, &HEADER)?.is_some() {
        return Err(Fail::from("not fresh"));
    }
    let left = desk.crash(0)?;
    Ok((calls_of(alloc, &desk)?, left))
}

#[test]
fn a_fresh_file_gets_its_header(rt: HostRuntime) -> Result<(), Fail> {
    let alloc = rt.alloc();
    let mut begun = [5; 52];
    begun[..12].copy_from_slice(b"?ierra test1");
    let rows: [(&[u8], &str, &[u8]); 3] = [
        (
            b"T",
            "sync len write 1 at 0 sync write 44 at 1 sync write 1 at 0 sync ",
            &[0],
        ),
        (
            &[0; 47],
            "sync len read 47 at 0 write 44 at 1 sync write 1 at 0 sync ",
            &[0, 0, 0],
        ),
        (
            &begun,
            "sync len read 52 at 0 write 33 at 12 sync write 1 at 0 sync ",
            &[0, 5, 5, 5, 5, 5, 5, 5],
        ),
    ];
    for (image, calls, behind) in rows {
        let (made, left) = opened(alloc, image)?;
        let wanted = file_with(alloc, behind)?;
        assert_eq!(rt;
            (made.as_str(), left.as_slice()),
            (calls, wanted.as_slice())
        );
    }
    Ok(())
}

// Opens a file that is not fresh: whether its bytes are given, and the calls that this took.
fn read_over(alloc: Global, image: &[u8]) -> Result<(bool, String), Fail> {
    let mut desk = desk_over(alloc, image)?;
    let is_given = match open(alloc, &mut desk, &HEADER)? {
        Some(bytes) => bytes.as_slice() == image,
        None => false,
    };
    Ok((is_given, calls_of(alloc, &desk)?))
}

#[test]
fn any_other_file_is_read_and_not_written(rt: HostRuntime) -> Result<(), Fail> {
    let alloc = rt.alloc();
    let whole = file_with(alloc, &[0, 9])?;
    let rows: [&[u8]; 2] = [&whole, &[9; 46]];
    for image in rows {
        let (is_given, made) = read_over(alloc, image)?;
        assert_eq!(rt; (is_given, made.as_str()), (true, "sync len read 46 at 0 "));
    }
    Ok(())
}

// Appends two records to a new file.
fn append_two(alloc: Global, desk: &mut MemDesk) -> Result<(), Fail>
    requires { HasNoFault (state_of desk.old) }
{
    let first = Room::new(b"ab".to_vec(alloc)?)?;
    let second = Room::new(b"c".to_vec(alloc)?)?;
    if open(alloc, desk, &HEADER)?.is_some() {
        return Ok(());
    }
    append(desk, 44, &first)?;
    append(desk, 47, &second)?;
    Ok(())
}

#[test]
fn records_stand_behind_open_gates(rt: HostRuntime) -> Result<(), Fail> {
    let alloc = rt.alloc();
    let mut desk = desk_over(alloc, &[])?;
    append_two(alloc, &mut desk)?;
    let wanted = file_with(alloc, b"\x01ab\x01c\x00")?;
    assert_eq!(rt; desk.crash(0)?.as_slice(), wanted.as_slice());
    Ok(())
}

#[test]
fn two_records_are_appended_by_these_calls(rt: HostRuntime) -> Result<(), Fail> {
    let alloc = rt.alloc();
    let mut desk = desk_over(alloc, &[])?;
    append_two(alloc, &mut desk)?;
    assert_eq!(rt;
        calls_of(alloc, &desk)?.as_str(),
        "sync len write 1 at 0 sync write 44 at 1 sync write 1 at 0 sync \
         write 3 at 45 sync write 1 at 44 sync write 2 at 48 sync write 1 at 47 sync "
    );
    Ok(())
}
