//! Groups and setups whose bytes were worked out without this program.

use crate::ancestor::{ANCESTOR, DIGEST_ONE, DIGEST_TWO, push_group};
use bank_format::{decode_group, encode_group, setup_digest};
use std::alloc::Global;
use std::test::Fail;
use tierra_model::{Code, Form, Group, grow_setup};

const DIGEST_IDLE: [u8; 32] = [
    0xde, 0xac, 0xbc, 0xfa, 0x70, 0x62, 0x57, 0x74, 0xfa, 0x36, 0x40, 0x46, 0x6a, 0x16, 0x6e, 0x50,
    0x98, 0x2f, 0xa0, 0xf5, 0xb9, 0x23, 0xef, 0xe7, 0x75, 0xfe, 0x4c, 0x7f, 0xc5, 0x27, 0x5d, 0x78,
];

const DIGEST_LEFT: [u8; 32] = [
    0xb7, 0xeb, 0xff, 0xc2, 0xdd, 0x10, 0xf7, 0x63, 0x68, 0x7d, 0x7e, 0x59, 0xd0, 0x23, 0x4f, 0x77,
    0xf1, 0x15, 0x29, 0xce, 0x76, 0xb4, 0xef, 0x8b, 0x98, 0xe4, 0x6e, 0xa1, 0x91, 0xc5, 0x63, 0x51,
];

// The digest of the setup of the listing `zero or1 shl`.
const DIGEST_SETUP: [u8; 32] = [
    0x7b, 0xf4, 0xd0, 0x27, 0x99, 0xff, 0x37, 0xf2, 0x0a, 0x83, 0x16, 0x84, 0x4e, 0xab, 0x32, 0x00,
    0x58, 0x05, 0xf0, 0x2d, 0x1d, 0x7b, 0xaf, 0xcf, 0x69, 0xac, 0x3b, 0x0f, 0x70, 0xc6, 0xc4, 0x8e,
];

// What a group is: its quantum, its form and how many genotypes it has.
fn told_of(group: &Group) -> (u64, Form, usize) {
    (group.quantum, group.form, group.saved.items.len())
}

// The group at the front of some bytes, which must be there, and its length.
fn front_group(alloc: Global, bytes: &[u8]) -> Result<(Group, usize), Fail> {
    match decode_group(alloc, bytes)? {
        Some(found) => Ok(found),
        None => Err(Fail::from("no group")),
    }
}

// The bytes of a group.
fn written(alloc: Global, group: &Group) -> Result<Vec<u8>, Fail> {
    let mut bytes = Vec::new(alloc);
    encode_group(alloc, group, &mut bytes)?;
    Ok(bytes)
}

// The group at the front of some bytes: its length, what it is, and its bytes as they are written.
fn read_and_written(
    alloc: Global,
    bytes: &[u8],
) -> Result<((usize, (u64, Form, usize)), Vec<u8>), Fail> {
    let (group, len) = front_group(alloc, bytes)?;
    let told = told_of(&group);
    Ok(((len, told), written(alloc, &group)?))
}

// The group of the ancestor from these parts, before other bytes: its length, what is read, and whether the same bytes
// are written.
fn there_and_back(
    alloc: Global,
    field: u32,
    efforts: &[u64],
    digest: &[u8; 32],
) -> Result<(usize, (usize, (u64, Form, usize)), bool), Fail> {
    let mut bytes = Vec::new(alloc);
    push_group(&mut bytes, field, efforts, &ANCESTOR, digest)?;
    let len = bytes.len();
    bytes.extend_from_slice(&[1, 2, 3])?;
    let (told, again) = read_and_written(alloc, &bytes)?;
    bytes.truncate(len);
    Ok((len, told, again.as_slice() == bytes.as_slice()))
}

#[test]
fn groups_of_both_forms_are_read_and_written(rt: HostRuntime) -> Result<(), Fail> {
    let rows: [(Form, u32, &[u64], &[u8; 32], usize); 2] = [
        (Form::One, 0x74, &[], &DIGEST_ONE, 152),
        (Form::Two, 0x8000_0094, &[839, 80, 0, 0], &DIGEST_TWO, 184),
    ];
    for (form, field, efforts, digest, len) in rows {
        let seen = there_and_back(rt.alloc(), field, efforts, digest)?;
        assert_eq!(rt; seen, (len, (len, (34, form, 1)), true));
    }
    Ok(())
}

// Whether a group can be read from these parts.
fn is_group(
    alloc: Global,
    field: u32,
    efforts: &[u64],
    code: &[u8],
    digest: &[u8; 32],
) -> Result<bool, Fail> {
    let mut bytes = Vec::new(alloc);
    push_group(&mut bytes, field, efforts, code, digest)?;
    Ok(decode_group(alloc, &bytes)?.is_some())
}

#[test]
fn other_bytes_spell_no_group(rt: HostRuntime) -> Result<(), Fail> {
    let mut longer = [0; 81];
    longer[..80].copy_from_slice(&ANCESTOR);
    // An effort that copied but did not run, a byte left over, efforts in form One, and another digest.
    let rows: [(u32, &[u64], &[u8], &[u8; 32]); 4] = [
        (0x8000_0094, &[0, 5, 0, 0], &ANCESTOR, &DIGEST_IDLE),
        (0x8000_0095, &[839, 80, 0, 0], &longer, &DIGEST_LEFT),
        (0x94, &[839, 80, 0, 0], &ANCESTOR, &DIGEST_TWO),
        (0x8000_0094, &[839, 80, 0, 0], &ANCESTOR, &DIGEST_ONE),
    ];
    for (field, efforts, code, digest) in rows {
        let read = is_group(rt.alloc(), field, efforts, code, digest)?;
        assert!(rt; !read, "length field {field}");
    }
    Ok(())
}

#[test]
fn a_setup_has_its_digest(rt: HostRuntime) -> Result<(), Fail> {
    let alloc = rt.alloc();
    let items = [4, 2, 3].to_vec(alloc)?;
    let setup = grow_setup(alloc, Code { items })?;
    assert_eq!(rt; setup_digest(alloc, &setup)?, DIGEST_SETUP);
    Ok(())
}
