//! Banks over desks in memory.

ghost use Rattle.std.specs.Prelude.{◌<◌, IfOk, IfSome};
ghost use Rattle.desk_io.specs.Desk.{HasNoFault};
ghost use Rattle.test_desks.specs.MemDesk.{state_of};
ghost use Rattle.bank_journal.specs.Bank.{IsAttached};

use crate::ancestor::{SETUP, push_ancestor};
use crate::calls::{calls_of, desk_over};
use bank_format::decode_group;
use bank_journal::{AttachFault, Bank, read_bank};
use bank_recover::BankFault;
use std::alloc::Global;
use std::test::Fail;
use test_desks::MemDesk;
use tierra_model::Group;

fn group_of(alloc: Global) -> Result<Group, Fail> {
    let mut bytes = Vec::new(alloc);
    push_ancestor(&mut bytes, true)?;
    match decode_group(alloc, &bytes)? {
        Some((group, _)) => Ok(group),
        None => Err(Fail::from("no group")),
    }
}

// A bank with a number of groups, and bytes without meaning up to a length.
fn bank_with(alloc: Global, groups: usize, len: usize) -> Result<Vec<u8>, Fail> {
    let mut bytes = b"Tierra bank1".to_vec(alloc)?;
    bytes.extend_from_slice(&SETUP)?;
    for _ in 0..groups {
        bytes.push(1)?;
        push_ancestor(&mut bytes, true)?;
    }
    bytes.push(0)?;
    for _ in bytes.len()..len {
        bytes.push(9)?;
    }
    Ok(bytes)
}

// How many groups a file has for a reader.
fn count_of(alloc: Global, image: &[u8]) -> Result<usize, Fail> {
    let mut desk = desk_over(alloc, image)?;
    Ok(read_bank(alloc, &mut desk)?.items.len())
}

// Attaches a file: the calls that this took, the groups of the bank, and those that are left for a reader.
fn attached(alloc: Global, image: &[u8]) -> Result<(String, usize, usize), Fail> {
    let mut desk = desk_over(alloc, image)?;
    let groups = Bank::attach(alloc, &mut desk, &SETUP)?.groups().len();
    let left = count_of(alloc, &desk.crash(0)?)?;
    Ok((calls_of(alloc, &desk)?, groups, left))
}

#[test]
fn a_fresh_file_becomes_a_bank_by_these_calls(rt: HostRuntime) -> Result<(), Fail> {
    let mut begun = [5; 52];
    begun[..12].copy_from_slice(b"?ierra bank1");
    let rows: [(&[u8], &str); 4] = [
        (
            &[],
            "sync len write 1 at 0 sync write 44 at 1 sync write 1 at 0 sync ",
        ),
        (
            b"T",
            "sync len write 1 at 0 sync write 44 at 1 sync write 1 at 0 sync ",
        ),
        (
            &[0; 45],
            "sync len read 45 at 0 write 44 at 1 sync write 1 at 0 sync ",
        ),
        (
            &begun,
            "sync len read 52 at 0 write 33 at 12 sync write 1 at 0 sync ",
        ),
    ];
    for (image, calls) in rows {
        let (made, groups, left) = attached(rt.alloc(), image)?;
        assert_eq!(rt; (made.as_str(), groups, left), (calls, 0, 0));
    }
    Ok(())
}

#[test]
fn a_bank_is_attached_by_these_calls(rt: HostRuntime) -> Result<(), Fail> {
    let alloc = rt.alloc();
    let rows = [
        (3usize, 0usize, "sync len read 600 at 0 "),
        (
            2,
            200_000,
            "sync len read 65536 at 0 read 65536 at 65536 read 65536 at 131072 read 3392 at 196608 ",
        ),
    ];
    for (count, len, calls) in rows {
        let image = bank_with(alloc, count, len)?;
        let (made, groups, left) = attached(alloc, &image)?;
        assert_eq!(rt; (made.as_str(), groups, left), (calls, count, count));
    }
    Ok(())
}

// A bank of three groups, with another byte at a place.
fn changed(alloc: Global, place: usize) -> Result<Vec<u8>, Fail> {
    let mut image = bank_with(alloc, 3, 0)?;
    match image.get_mut(place) {
        Some(cell) => *cell = 9,
        None => return Err(Fail::from("no such place")),
    }
    Ok(image)
}

// Attaches such a file: the fault, and the calls that this took.
fn refused(alloc: Global, place: usize) -> Result<(Option<AttachFault>, String), Fail> {
    let mut desk = desk_over(alloc, &changed(alloc, place)?)?;
    let fault = Bank::attach(alloc, &mut desk, &SETUP).err();
    Ok((fault, calls_of(alloc, &desk)?))
}

#[test]
fn a_refused_file_is_not_written(rt: HostRuntime) -> Result<(), Fail> {
    let mut found = SETUP;
    found[0] = 9;
    let wanted = SETUP;
    let rows = [
        (1usize, BankFault::NotABank),
        (12, BankFault::Foreign { found, wanted }),
        (44 + 185 + 60, BankFault::Damaged { group: 1 }),
    ];
    for (place, fault) in rows {
        let (answer, made) = refused(rt.alloc(), place)?;
        let want = Some(AttachFault::Refused(fault));
        assert_eq!(rt; (answer, made.as_str()), (want, "sync len read 600 at 0 "));
    }
    Ok(())
}

// Reads such a file: the fault, if there is one, and the calls that this took.
fn read_changed(alloc: Global, place: usize) -> Result<(Option<AttachFault>, String), Fail> {
    let mut desk = desk_over(alloc, &changed(alloc, place)?)?;
    let fault = read_bank(alloc, &mut desk).err();
    Ok((fault, calls_of(alloc, &desk)?))
}

#[test]
fn a_bank_that_is_read_is_of_any_setup(rt: HostRuntime) -> Result<(), Fail> {
    let rows = [
        (1usize, Some(BankFault::NotABank)),
        (12, None),
        (44 + 185 + 60, Some(BankFault::Damaged { group: 1 })),
    ];
    for (place, fault) in rows {
        let (answer, made) = read_changed(rt.alloc(), place)?;
        let want = fault.map(AttachFault::Refused);
        assert_eq!(rt; (answer, made.as_str()), (want, "len read 600 at 0 "));
    }
    Ok(())
}

// How many groups the bank of a file has.
fn count_attached(alloc: Global, image: &[u8]) -> Result<usize, Fail> {
    let mut desk = desk_over(alloc, image)?;
    Ok(Bank::attach(alloc, &mut desk, &SETUP)?.groups().len())
}

// A bank of more than 1 MiB.
#[test]
fn a_large_bank_is_attached_and_read(rt: HostRuntime) -> Result<(), Fail> {
    let alloc = rt.alloc();
    let image = bank_with(alloc, 6_000, 0)?;
    let counts = (count_of(alloc, &image)?, count_attached(alloc, &image)?);
    assert_eq!(rt; (image.len(), counts), (1_110_045, (6_000, 6_000)));
    Ok(())
}

// Appends a group, and gives the bank with it, or none if the desk stopped.
fn append_one(alloc: Global, desk: &mut MemDesk, mut bank: Bank) -> Result<Option<Bank>, Fail>
    requires { IsAttached bank (state_of desk.old) }
    ensures { IfOk result (λ o. IfSome o (λ b. IsAttached b (state_of desk.new))) }
{
    let group = group_of(alloc)?;
    bank.make_room(&group)?;
    match bank.append(desk, group) {
        Ok(bank) => Ok(Some(bank)),
        Err(_) => Ok(None),
    }
}

// Attaches a bank and appends three groups to it, as far as the desk allows. Gives how many appends succeeded.
fn append_three(alloc: Global, desk: &mut MemDesk) -> Result<usize, Fail>
    requires { HasNoFault (state_of desk.old) }
{
    let Ok(bank) = Bank::attach(alloc, desk, &SETUP) else {
        return Ok(0);
    };
    let Some(bank) = append_one(alloc, desk, bank)? else {
        return Ok(0);
    };
    let Some(bank) = append_one(alloc, desk, bank)? else {
        return Ok(1);
    };
    match append_one(alloc, desk, bank)? {
        Some(_) => Ok(3),
        None => Ok(2),
    }
}

// A desk that stops at a call of an attach with three appends, and how many appends succeeded.
fn stopped(alloc: Global, stop: u64) -> Result<(MemDesk, usize), Fail> {
    let image = Vec::new(alloc);
    let mut desk = MemDesk::new(alloc, image, Vec::new(alloc), Vec::new(alloc), Some(stop));
    let appended = append_three(alloc, &mut desk)?;
    Ok((desk, appended))
}

// How many groups are attached after a crash, and how many calls of that found no memory.
fn count_after(alloc: Global, desk: &MemDesk, pick: u32) -> Result<(usize, u64), Fail>
    requires { pick < 4 }
{
    let mut again = desk_over(alloc, &desk.crash(pick)?)?;
    let groups = Bank::attach(alloc, &mut again, &SETUP)?.groups().len();
    Ok((groups, again.starved()))
}

// How many appends succeeded before a stop. And whether after each crash their groups are attached, at most one more,
// and no call finds no memory.
fn kept(alloc: Global, stop: u64) -> Result<(usize, [bool; 4]), Fail> {
    let (desk, appended) = stopped(alloc, stop)?;
    let mut is_kept = [false; 4];
    for pick in 0..4u32 {
        let (groups, starved) = count_after(alloc, &desk, pick)?;
        is_kept[pick as usize] = appended <= groups && groups - appended <= 1 && starved == 0;
    }
    Ok((appended, is_kept))
}

#[test]
fn a_stop_at_each_call_loses_nothing(rt: HostRuntime) -> Result<(), Fail> {
    for stop in 1..=21u64 {
        let want = (stop as usize).saturating_sub(9) / 4;
        assert_eq!(rt; kept(rt.alloc(), stop)?, (want, [true; 4]), "stop {stop}");
    }
    Ok(())
}
