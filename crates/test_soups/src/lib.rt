//! Soup files and texts that several test crates use.
#![tactic(auto)]

use soup_file::read_setup;
use std::alloc::Global;
use std::test::Fail;
use tierra_model::{OutOfMemory, Setup};

/// The listing of the ancestor, 80 instructions.
pub const ANCESTOR: &str = "
nop_1 nop_1 nop_1 nop_1 zero or1 shl shl mov_cd adrb nop_0 nop_0 nop_0 nop_0 sub_ac mov_ab
adrf nop_0 nop_0 nop_0 nop_1 inc_a sub_ab nop_1 nop_1 nop_0 nop_1 mal call nop_0 nop_0 nop_1
nop_1 divide jmp nop_0 nop_0 nop_1 nop_0 if_cz nop_1 nop_1 nop_0 nop_0 push_ax push_bx push_cx nop_1
nop_0 nop_1 nop_0 mov_iab dec_c if_cz jmp nop_0 nop_1 nop_0 nop_0 inc_a inc_b jmp nop_0 nop_1
nop_0 nop_1 if_cz nop_1 nop_0 nop_1 nop_1 pop_cx pop_bx pop_ax ret nop_1 nop_1 nop_1 nop_0 if_cz
";

/// Creature 1 copies its second cell over its first, and creature 2 does nothing until it runs into creature 1.
pub const TWO: &str = r#"
soup_size = 100
[[creature]]
at = 0
code = "inc_b mov_iab"
[[creature]]
at = 90
code = "nop_1 nop_1 nop_1 nop_1 nop_1"
"#;

/// The code of the ancestor in hexadecimal digits, as `asm` prints it.
pub const ANCESTOR_HEX: &str = "\
    01 01 01 01 04 02 03 03 18 1c 00 00 00 00 07 19 1d 00 00 00 01 08 06 01 01 00 01 1e 16 00 00 01 \
    01 1f 14 00 00 01 00 05 01 01 00 00 0c 0d 0e 01 00 01 00 1a 0a 05 14 00 01 00 00 08 09 14 00 01 \
    00 01 05 01 00 01 01 12 11 10 17 01 01 01 00 05\n";

/// What a run of the ancestor for 34 quanta prints.
pub const GROWN: &str = "saved 0080aaa 34\nquanta 34\nbirths 1\ndeaths 0\nliving 2\nfilled 240\n\
    front 2 ip 80 ax 0 bx 0 cx 0 dx 0 flag 0 errors 0\ngenotypes 1\nkept 1\n0080aaa 2 2\n";

/// A soup file of the ancestor, with these settings.
pub fn ancestor_file(alloc: Global, settings: &str) -> Result<String, OutOfMemory> {
    format!(in alloc; "{settings}\n[[creature]]\nat = 0\ncode = \"\"\"{ANCESTOR}\"\"\"\n")
}

/// The setup of a soup file.
pub fn setup_of(alloc: Global, file: &str) -> Result<Setup, Fail> {
    Ok(read_setup(alloc, file.as_bytes())?)
}
