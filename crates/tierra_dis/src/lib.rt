//! The disassembler, and codes as hexadecimal digits.
#![tactic(auto)]

mod disassembly;
mod hex_text;
mod laws;

pub use disassembly::{DisFault, disassemble};
pub use hex_text::{HexFault, hex_line, read_hex};
pub use laws::listings_read_back;
