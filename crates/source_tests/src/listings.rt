//! Listings with their codes, and those that are refused.

use std::alloc::{AllocError, Global};
use std::test::Fail;
use tierra_asm::{AsmFault, assemble};

const ANCESTOR: &str = "
nop_1 nop_1 nop_1 nop_1        ; 0 start of self
zero or1 shl shl mov_cd        ; 4 cx and dx are 4
adrb nop_0 nop_0 nop_0 nop_0   ; 9 find the start
sub_ac mov_ab                  ; 14 bx is the start
adrf nop_0 nop_0 nop_0 nop_1   ; 16 find the end
inc_a sub_ab                   ; 21 cx is the size
nop_1 nop_1 nop_0 nop_1        ; 23 reproduction loop
mal                            ; 27
call nop_0 nop_0 nop_1 nop_1   ; 28 copy procedure
divide                         ; 33
jmp nop_0 nop_0 nop_1 nop_0    ; 34 back to 27
if_cz                          ; 39 keeps templates apart
nop_1 nop_1 nop_0 nop_0        ; 40 copy procedure
push_ax push_bx push_cx        ; 44
nop_1 nop_0 nop_1 nop_0        ; 47 copy loop
mov_iab dec_c if_cz            ; 51
jmp nop_0 nop_1 nop_0 nop_0    ; 54 out, to 71
inc_a inc_b                    ; 59
jmp nop_0 nop_1 nop_0 nop_1    ; 61 back to 51
if_cz                          ; 66 keeps templates apart
nop_1 nop_0 nop_1 nop_1        ; 67 end of loop
pop_cx pop_bx pop_ax ret       ; 71
nop_1 nop_1 nop_1 nop_0        ; 75 end of self
if_cz                          ; 79";

const ANCESTOR_CODE: [u8; 80] = [
    0x01, 0x01, 0x01, 0x01, 0x04, 0x02, 0x03, 0x03, 0x18, 0x1c, 0x00, 0x00, 0x00, 0x00, 0x07, 0x19,
    0x1d, 0x00, 0x00, 0x00, 0x01, 0x08, 0x06, 0x01, 0x01, 0x00, 0x01, 0x1e, 0x16, 0x00, 0x00, 0x01,
    0x01, 0x1f, 0x14, 0x00, 0x00, 0x01, 0x00, 0x05, 0x01, 0x01, 0x00, 0x00, 0x0c, 0x0d, 0x0e, 0x01,
    0x00, 0x01, 0x00, 0x1a, 0x0a, 0x05, 0x14, 0x00, 0x01, 0x00, 0x00, 0x08, 0x09, 0x14, 0x00, 0x01,
    0x00, 0x01, 0x05, 0x01, 0x00, 0x01, 0x01, 0x12, 0x11, 0x10, 0x17, 0x01, 0x01, 0x01, 0x00, 0x05,
];

#[test]
fn listings_give_their_codes(rt: HostRuntime) -> Result<(), Fail> {
    let rows: [(&str, &[u8]); 7] = [
        ("nop_0 divide ; end", &[0x00, 0x1f]),
        ("\tmal\r\n\tdivide\r\n", &[0x1e, 0x1f]),
        (
            "; a comment first\nadr;and one without a line feed",
            &[0x1b],
        ),
        ("nop_1;;;\nnop_0", &[0x01, 0x00]),
        ("zero;caf\u{e9} \u{1f41b}\nret", &[0x04, 0x17]),
        ("jmpb\tjmp\rcall", &[0x15, 0x14, 0x16]),
        (ANCESTOR, &ANCESTOR_CODE),
    ];
    for (text, codes) in rows {
        assert!(rt; are_codes(rt.alloc(), text, codes)?, "{text}");
    }
    Ok(())
}

// Whether these are the codes of a listing.
fn are_codes(alloc: Global, text: &str, codes: &[u8]) -> Result<bool, AsmFault> {
    let code = assemble(alloc, text)?;
    Ok(code.items.as_slice() == codes)
}

#[test]
fn faults_name_the_first_wrong_word(rt: HostRuntime) {
    let rows = [
        ("", AsmFault::Empty),
        (" \t\r\n", AsmFault::Empty),
        ("; zero", AsmFault::Empty),
        ("zero\nzoro", AsmFault::UnknownName { line: 2 }),
        ("zoro\nzero", AsmFault::UnknownName { line: 1 }),
        ("\r\n;\n\nzoro mal\nzoro", AsmFault::UnknownName { line: 4 }),
        ("Zero", AsmFault::UnknownName { line: 1 }),
        ("zero,", AsmFault::UnknownName { line: 1 }),
        ("zero\u{c}zero", AsmFault::UnknownName { line: 1 }),
        (
            "; no end at\rzoro\nzero z\u{e9}ro",
            AsmFault::UnknownName { line: 2 },
        ),
    ];
    for (text, fault) in rows {
        assert_eq!(rt; size_of(rt.alloc(), text), Err(fault), "{text}");
    }
}

#[test]
fn long_listings(rt: HostRuntime) -> Result<(), AllocError> {
    let size = size_of_long(rt.alloc(), "mal\n", 19999, "zero\n")?;
    assert_eq!(rt; size, Ok(20000));
    let size = size_of_long(rt.alloc(), "mal\n", 19999, "zero\n\n mal\n zoro")?;
    assert_eq!(rt; size, Err(AsmFault::TooLong { line: 20002 }));
    let size = size_of_long(rt.alloc(), "mal ", 20000, "zoro")?;
    assert_eq!(rt; size, Err(AsmFault::TooLong { line: 1 }));
    Ok(())
}

// The size of the code of a listing that has a word so many times and then an end, or the listing's fault.
fn size_of_long(
    alloc: Global,
    word: &str,
    times: u32,
    end: &str,
) -> Result<Result<usize, AsmFault>, AllocError> {
    let text = long_text(alloc, word, times, end)?;
    Ok(size_of(alloc, text.as_str()))
}

fn size_of(alloc: Global, text: &str) -> Result<usize, AsmFault> {
    let code = assemble(alloc, text)?;
    Ok(code.items.len())
}

// A word so many times, and then an end.
fn long_text(alloc: Global, word: &str, times: u32, end: &str) -> Result<String, AllocError> {
    let mut text = String::new(alloc);
    repeat(&mut text, word, times)?;
    text.push_str(end)?;
    Ok(text)
}

fn repeat(text: &mut String, word: &str, times: u32) -> Result<(), AllocError> {
    for _ in 0..times {
        text.push_str(word)?;
    }
    Ok(())
}
