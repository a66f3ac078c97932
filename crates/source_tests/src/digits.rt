//! Hexadecimal digits with their bytes, and codes with their listings.

ghost use Rattle.std.specs.Prelude.{◌≤◌, length};
ghost use Rattle.tierra_model.specs.declared.limits.TheConstants.{MOST_SIZE};

use std::alloc::{AllocError, Global};
use std::test::Fail;
use tierra_asm::assemble;
use tierra_dis::{DisFault, HexFault, disassemble, hex_line, read_hex};
use tierra_model::Code;

const ANCESTOR_HEX: &str = "
01 01 01 01 04 02 03 03 18 1c 00 00 00 00 07 19
1d 00 00 00 01 08 06 01 01 00 01 1e 16 00 00 01
01 1f 14 00 00 01 00 05 01 01 00 00 0c 0d 0e 01
00 01 00 1a 0a 05 14 00 01 00 00 08 09 14 00 01
00 01 05 01 00 01 01 12 11 10 17 01 01 01 00 05";

#[test]
fn hex_texts_give_their_bytes(rt: HostRuntime) -> Result<(), Fail> {
    let rows: [(&str, &[u8], &str); 6] = [
        ("1F 00", &[0x1f, 0x00], "1f 00\n"),
        ("\t1e\r\n\t1D\r\n", &[0x1e, 0x1d], "1e 1d\n"),
        ("; two\n0a;and one without a line feed", &[0x0a], "0a\n"),
        ("00;\u{1f41b}\n;;\n9f", &[0x00, 0x9f], "00 9f\n"),
        ("ff Fe dC Ba", &[0xff, 0xfe, 0xdc, 0xba], "ff fe dc ba\n"),
        (
            "12\r34\n\n56\t78",
            &[0x12, 0x34, 0x56, 0x78],
            "12 34 56 78\n",
        ),
    ];
    for (text, bytes, line) in rows {
        assert!(rt; are_bytes(rt.alloc(), text, bytes)?, "{text}");
        assert!(rt; is_line(rt.alloc(), bytes, line)?, "{text}");
    }
    assert!(rt; is_line(rt.alloc(), &[], "\n")?);
    Ok(())
}

// Whether these are the bytes of a hex text.
fn are_bytes(alloc: Global, text: &str, bytes: &[u8]) -> Result<bool, HexFault> {
    let code = read_hex(alloc, text)?;
    Ok(code.items.as_slice() == bytes)
}

// Whether this is the line of the bytes.
fn is_line(alloc: Global, bytes: &[u8], line: &str) -> Result<bool, AllocError> {
    let back = hex_line(alloc, bytes)?;
    Ok(back.items.as_slice() == line.as_bytes())
}

#[test]
fn hex_faults_name_the_first_wrong_word(rt: HostRuntime) -> Result<(), Fail> {
    let rows = [
        (
            "1f 0",
            HexFault::NotHex { place: 2 },
            "word 2: not two hexadecimal digits",
        ),
        ("", HexFault::Empty, "no instructions"),
        (" ; 00", HexFault::Empty, "no instructions"),
        (
            "000",
            HexFault::NotHex { place: 1 },
            "word 1: not two hexadecimal digits",
        ),
        (
            "00 0g 0h",
            HexFault::NotHex { place: 2 },
            "word 2: not two hexadecimal digits",
        ),
        (
            "+f",
            HexFault::NotHex { place: 1 },
            "word 1: not two hexadecimal digits",
        ),
        (
            "\u{e9}",
            HexFault::NotHex { place: 1 },
            "word 1: not two hexadecimal digits",
        ),
        (
            "1f\u{c}1f",
            HexFault::NotHex { place: 1 },
            "word 1: not two hexadecimal digits",
        ),
    ];
    for (text, fault, message) in rows {
        assert_eq!(rt; size_of(rt.alloc(), text), Err(fault), "{text}");
        assert!(rt; is_shown(rt.alloc(), fault, message)?, "{message}");
    }
    Ok(())
}

// Whether this is the text of a fault.
fn is_shown(alloc: Global, fault: HexFault, message: &str) -> Result<bool, AllocError> {
    let shown = format!(in alloc; "{fault}")?;
    Ok(shown.as_str() == message)
}

#[test]
fn codes_give_their_listings(rt: HostRuntime) -> Result<(), Fail> {
    assert!(rt; is_listing(rt.alloc(), &[0x1f, 0x00], "divide\nnop_0\n")?);
    assert!(rt; is_listing(rt.alloc(), &[], "")?);
    let rows = [
        ([0x20, 0x00, 0x00, 0x00], 1),
        ([0x00, 0x80, 0x01, 0x02], 2),
        ([0x1f, 0x1e, 0x1d, 0xff], 4),
    ];
    for (code, place) in rows {
        let result = is_listing(rt.alloc(), &code, "");
        assert_eq!(rt; result, Err(DisFault::NotAnOp { place }));
    }
    Ok(())
}

// Whether this is the listing of a code.
fn is_listing(alloc: Global, code: &[u8], listing: &str) -> Result<bool, DisFault>
    requires { length code.now ≤ MOST_SIZE }
{
    let text = disassemble(alloc, code)?;
    Ok(text.items.as_slice() == listing.as_bytes())
}

#[test]
fn the_ancestor_goes_there_and_back(rt: HostRuntime) -> Result<(), Fail> {
    let code = read_hex(rt.alloc(), ANCESTOR_HEX)?;
    let again = read_back(rt.alloc(), code.items.as_slice())?;
    assert_eq!(rt;
        (code.items.len(), again.items.as_slice()),
        (80, code.items.as_slice())
    );
    Ok(())
}

// The code of the listing of a code.
fn read_back(alloc: Global, code: &[u8]) -> Result<Code, Fail>
    requires { length code.now ≤ MOST_SIZE }
{
    let text = disassemble(alloc, code)?;
    let text = str::from_utf8(text.items.as_slice())?;
    Ok(assemble(alloc, text)?)
}

#[test]
fn the_listing_of_the_ancestor_has_its_first_words(rt: HostRuntime) -> Result<(), Fail> {
    let code = read_hex(rt.alloc(), ANCESTOR_HEX)?;
    let begins = listing_begins(
        rt.alloc(),
        code.items.as_slice(),
        "nop_1\nnop_1\nnop_1\nnop_1\nzero\nor1\nshl\n",
    )?;
    assert!(rt; begins);
    Ok(())
}

// Whether the listing of a code begins so.
fn listing_begins(alloc: Global, code: &[u8], front: &str) -> Result<bool, Fail>
    requires { length code.now ≤ MOST_SIZE }
{
    let text = disassemble(alloc, code)?;
    let text = str::from_utf8(text.items.as_slice())?;
    Ok(text.starts_with(front))
}

#[test]
fn long_hex_texts(rt: HostRuntime) -> Result<(), AllocError> {
    assert_eq!(rt; size_of_long(rt.alloc(), "")?, Ok(20000));
    assert_eq!(rt; size_of_long(rt.alloc(), "zz")?, Err(HexFault::TooLong));
    Ok(())
}

// The number of bytes of a hex text of 20,000 words and an end, or the text's fault.
fn size_of_long(alloc: Global, end: &str) -> Result<Result<usize, HexFault>, AllocError> {
    let text = long_text(alloc, end)?;
    Ok(size_of(alloc, text.as_str()))
}

// The number of bytes of a hex text, or the text's fault.
fn size_of(alloc: Global, text: &str) -> Result<usize, HexFault> {
    let code = read_hex(alloc, text)?;
    Ok(code.items.len())
}

fn long_text(alloc: Global, end: &str) -> Result<String, AllocError> {
    let mut text = String::new(alloc);
    repeat(&mut text, "1e ", 20000)?;
    text.push_str(end)?;
    Ok(text)
}

fn repeat(text: &mut String, word: &str, times: u32) -> Result<(), AllocError> {
    for _ in 0..times {
        text.push_str(word)?;
    }
    Ok(())
}
