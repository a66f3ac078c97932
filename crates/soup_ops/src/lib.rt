//! The table of the instructions: from each to its code and its name, and back.
#![tactic(auto)]

ghost use Rattle.std.specs.Prelude.{◌≡◌, ◌↔◌, slice_get, IsNone, IfSome};
ghost use Rattle.tierra_model.specs.Table.{ops};
ghost use Rattle.soup_ops.specs.Names.{name_of, code_of};

use tierra_model::Op;

/// Each instruction at its code.
const OPS: [Op; 32] = [
    Op::Nop0,
    Op::Nop1,
    Op::Or1,
    Op::Shl,
    Op::Zero,
    Op::IfCz,
    Op::SubAb,
    Op::SubAc,
    Op::IncA,
    Op::IncB,
    Op::DecC,
    Op::IncC,
    Op::PushAx,
    Op::PushBx,
    Op::PushCx,
    Op::PushDx,
    Op::PopAx,
    Op::PopBx,
    Op::PopCx,
    Op::PopDx,
    Op::Jmp,
    Op::JmpB,
    Op::Call,
    Op::Ret,
    Op::MovCd,
    Op::MovAb,
    Op::MovIab,
    Op::Adr,
    Op::AdrB,
    Op::AdrF,
    Op::Mal,
    Op::Divide,
];

/// The instruction of a code.
pub fn op_of(code: u8) -> Option<Op>
    ensures { result ≡ slice_get ops code }
{
    OPS.get(usize::from(code)).copied()
}

/// The code of an instruction.
pub fn code(op: Op) -> u8
    ensures place { slice_get ops result ≡ Some op }
    ensures named { code_of (name_of op) ≡ Some result }
{
    op as u8
}

/// The name of an instruction, as a listing writes it.
pub fn name(op: Op) -> &'static str
    ensures { result.now ≡ name_of op }
{
    match op {
        Op::Nop0 => "nop_0",
        Op::Nop1 => "nop_1",
        Op::Or1 => "or1",
        Op::Shl => "shl",
        Op::Zero => "zero",
        Op::IfCz => "if_cz",
        Op::SubAb => "sub_ab",
        Op::SubAc => "sub_ac",
        Op::IncA => "inc_a",
        Op::IncB => "inc_b",
        Op::DecC => "dec_c",
        Op::IncC => "inc_c",
        Op::PushAx => "push_ax",
        Op::PushBx => "push_bx",
        Op::PushCx => "push_cx",
        Op::PushDx => "push_dx",
        Op::PopAx => "pop_ax",
        Op::PopBx => "pop_bx",
        Op::PopCx => "pop_cx",
        Op::PopDx => "pop_dx",
        Op::Jmp => "jmp",
        Op::JmpB => "jmpb",
        Op::Call => "call",
        Op::Ret => "ret",
        Op::MovCd => "mov_cd",
        Op::MovAb => "mov_ab",
        Op::MovIab => "mov_iab",
        Op::Adr => "adr",
        Op::AdrB => "adrb",
        Op::AdrF => "adrf",
        Op::Mal => "mal",
        Op::Divide => "divide",
    }
}

/// The instruction that a word names.
pub fn by_name(word: &str) -> Option<Op>
    ensures known { IfSome result (λ op. name_of op ≡ word.now) }
    ensures unknown { IsNone result ↔ (code_of word.now ≡ None) }
{
    OPS.iter().find(|op| name(**op) == word).copied()
}

#[cfg(test)]
mod tests {
    use super::*;

    const ROWS: [(u8, &str); 32] = [
        (0x00, "nop_0"),
        (0x01, "nop_1"),
        (0x02, "or1"),
        (0x03, "shl"),
        (0x04, "zero"),
        (0x05, "if_cz"),
        (0x06, "sub_ab"),
        (0x07, "sub_ac"),
        (0x08, "inc_a"),
        (0x09, "inc_b"),
        (0x0a, "dec_c"),
        (0x0b, "inc_c"),
        (0x0c, "push_ax"),
        (0x0d, "push_bx"),
        (0x0e, "push_cx"),
        (0x0f, "push_dx"),
        (0x10, "pop_ax"),
        (0x11, "pop_bx"),
        (0x12, "pop_cx"),
        (0x13, "pop_dx"),
        (0x14, "jmp"),
        (0x15, "jmpb"),
        (0x16, "call"),
        (0x17, "ret"),
        (0x18, "mov_cd"),
        (0x19, "mov_ab"),
        (0x1a, "mov_iab"),
        (0x1b, "adr"),
        (0x1c, "adrb"),
        (0x1d, "adrf"),
        (0x1e, "mal"),
        (0x1f, "divide"),
    ];

    #[test]
    fn codes_and_names_go_both_ways(rt: HostRuntime) {
        for (number, word) in ROWS {
            let op = op_of(number);
            assert_eq!(rt; op.map(code), Some(number), "{word}");
            assert_eq!(rt; op.map(name), Some(word), "code {number}");
            assert_eq!(rt; by_name(word), op, "{word}");
        }
        assert_eq!(rt; op_of(32), None);
        assert_eq!(rt; op_of(255), None);
    }

    #[test]
    fn other_words_name_nothing(rt: HostRuntime) {
        for word in [
            "", "nop", "nop_2", "nop_00", "NOP_0", "Mal", " mal", "mal ", "push_a", "adro",
        ] {
            assert_eq!(rt; by_name(word), None, "{word}");
        }
    }
}
