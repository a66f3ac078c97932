//! Banks with the ancestor's group, as a crash leaves them or with another byte.

use crate::ancestor::{SETUP, bank_of};
use bank_recover::{BankFault, RecoverFault, groups_of};
use std::alloc::Global;
use std::test::Fail;

// How many groups an image has.
fn count_of(alloc: Global, image: &[u8]) -> Result<usize, RecoverFault> {
    match groups_of(alloc, image, Some(&SETUP)) {
        Ok(groups) => Ok(groups.items.len()),
        Err(fault) => Err(fault),
    }
}

#[test]
fn a_bank_is_cut_at_each_length(rt: HostRuntime) -> Result<(), Fail> {
    let alloc = rt.alloc();
    let bank = bank_of(alloc, &[true, true, true])?;
    assert_eq!(rt; bank.len(), 600);
    for (len, _) in bank.iter().enumerate() {
        let want = match len {
            0..=44 => Ok(0),
            45..=229 => Err(BankFault::Damaged { group: 0 }),
            230..=414 => Err(BankFault::Damaged { group: 1 }),
            _ => Err(BankFault::Damaged { group: 2 }),
        };
        assert_eq!(rt;
            count_of(alloc, &bank[..len]),
            want.map_err(RecoverFault::Refused),
            "{len}"
        );
    }
    assert_eq!(rt; count_of(alloc, &bank), Ok(3));
    Ok(())
}

// A bank of groups of these forms, with another byte at a place.
fn changed(alloc: Global, forms_two: &[bool], place: usize, byte: u8) -> Result<Vec<u8>, Fail> {
    let mut bank = bank_of(alloc, forms_two)?;
    match bank.get_mut(place) {
        Some(cell) => *cell = byte,
        None => return Err(Fail::from("no such place")),
    }
    Ok(bank)
}

// How many groups such a bank has.
fn count_changed(
    alloc: Global,
    forms_two: &[bool],
    place: usize,
    byte: u8,
) -> Result<Result<usize, RecoverFault>, Fail> {
    let bank = changed(alloc, forms_two, place, byte)?;
    Ok(count_of(alloc, &bank))
}

// The fault of a bank with another first byte of its digest.
fn foreign() -> BankFault {
    let mut found = SETUP;
    found[0] = 9;
    let wanted = SETUP;
    BankFault::Foreign { found, wanted }
}

#[test]
fn one_byte_makes_another_bank(rt: HostRuntime) -> Result<(), Fail> {
    let alloc = rt.alloc();
    let forms = [false, true, false];
    // The title, the digest, a code of group 1, the gate of group 1, and the first byte.
    let rows: [(usize, u8, Result<usize, BankFault>); 7] = [
        (1, 9, Err(BankFault::NotABank)),
        (12, 9, Err(foreign())),
        (45 + 153 + 40, 9, Err(BankFault::Damaged { group: 1 })),
        (44 + 153, 0, Ok(1)),
        (44 + 153, 2, Ok(1)),
        (0, 0, Ok(0)),
        (0, b'R', Ok(0)),
    ];
    assert_eq!(rt; count_of(alloc, &bank_of(alloc, &forms)?), Ok(3));
    for (place, byte, want) in rows {
        let count = count_changed(alloc, &forms, place, byte)?;
        assert_eq!(rt; count, want.map_err(RecoverFault::Refused), "{place}");
    }
    Ok(())
}

#[test]
fn a_bank_of_any_setup_is_read_where_none_is_wanted(rt: HostRuntime) -> Result<(), Fail> {
    let bank = changed(rt.alloc(), &[true], 12, 9)?;
    assert_eq!(rt; groups_of(rt.alloc(), &bank, None)?.items.len(), 1);
    Ok(())
}

#[test]
fn a_file_of_one_byte_has_no_groups(rt: HostRuntime) {
    assert_eq!(rt; count_of(rt.alloc(), b"T"), Ok(0));
}
