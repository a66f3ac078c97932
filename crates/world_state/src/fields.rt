//! The fields of a world's bytes, each read from the front of what is left.

ghost use Rattle.std.specs.Prelude.{◌≡◌};
ghost use Rattle.byte_fields.specs.Reading.{Gives, eight_at, list_at};
ghost use Rattle.world_state.specs.Parts.{body_parts, counts_parts, processor_parts, registers_parts, stack_parts};
ghost use Rattle.world_state.specs.Reading.{block_at, body_at, counts_at, creature_at, creature_from, daughter_at, details_at, found_at, parent_at, processor_at, register_at, registers_at, saving_at, stack_at, two_registers_at};

use crate::saving::Saving;
use byte_fields::{
    Field, Stop, byte_of, efforts_of, eight_of, eights_of, four_of, fours_of, sized_of,
};
use std::alloc::Global;
use tierra_model::{Block, Code, Creature, Effort};

/// The format of a world's bytes.
#[derive(Clone, Copy, Drop)]
pub struct WorldFormat;

/// A genotype as it was read from the bytes.
#[derive(Debug, Drop)]
pub struct StoredGenotype {
    pub code: Code,
    pub parent: Option<u64>,
    pub first_quantum: u64,
    pub total: u64,
    pub first_effort: Option<Effort>,
    pub second_effort: Option<Effort>,
}

impl Field<WorldFormat> for u64 {
    ghost at = { λ _. eight_at };

    fn read(_: Global, _: WorldFormat, bytes: &[u8]) -> Result<(u64, &[u8]), Stop> {
        eight_of(bytes)
    }
}

// ---- creatures

// The parts of a creature, in the order of their bytes.
#[derive(Clone, Copy, Drop, Debug)]
struct Body {
    id: u64,
    own: Block,
    daughter: Option<Block>,
    moved: u64,
}

#[derive(Clone, Copy, Drop, Debug)]
struct Registers {
    ax: i32,
    bx: i32,
    cx: i32,
    dx: i32,
}

#[derive(Clone, Copy, Drop, Debug)]
struct Stack {
    words: [i32; 10],
    sp: u32,
    flag: u8,
}

#[derive(Clone, Copy, Drop, Debug)]
struct Counts {
    errors: u64,
    genotype: u64,
    ran: u64,
    bred: u64,
}

// A number in two's complement.
#[tactic(auto, unfolding(crate::specs::Reading::register_at))]
fn register_of(bytes: &[u8]) -> Result<(i32, &[u8]), Stop>
    ensures { Gives (λ x. (x.0, x.1.now)) result (register_at bytes.now) }
{
    let (bits, rest) = four_of(bytes)?;
    Ok((bits.cast_signed(), rest))
}

#[tactic(auto, unfolding(crate::specs::Reading::two_registers_at))]
fn two_registers_of(bytes: &[u8]) -> Result<(i32, i32, &[u8]), Stop>
    ensures { Gives (λ x. ((x.0, x.1), x.2.now)) result (two_registers_at bytes.now) }
{
    let (first, rest) = register_of(bytes)?;
    let (second, rest) = register_of(rest)?;
    Ok((first, second, rest))
}

#[tactic(auto, unfolding(crate::specs::Reading::block_at))]
fn block_of(bytes: &[u8]) -> Result<(Block, &[u8]), Stop>
    ensures { Gives (λ x. (x.0, x.1.now)) result (block_at bytes.now) }
{
    let (at, size, rest) = fours_of(bytes)?;
    Ok((Block { at, size }, rest))
}

#[tactic(auto, unfolding(crate::specs::Reading::daughter_at))]
fn daughter_of(bytes: &[u8]) -> Result<(Option<Block>, &[u8]), Stop>
    ensures { Gives (λ x. (x.0, x.1.now)) result (daughter_at bytes.now) }
{
    let (at, size, rest) = fours_of(bytes)?;
    match (at, size) {
        (0, 0) => Ok((None, rest)),
        (_, 0) => Err(Stop::Malformed),
        _ => Ok((Some(Block { at, size }), rest)),
    }
}

#[tactic(auto, unfolding(crate::specs::Reading::body_at))]
fn body_of(bytes: &[u8]) -> Result<(Body, &[u8]), Stop>
    ensures { Gives (λ x. (body_parts x.0, x.1.now)) result (body_at bytes.now) }
{
    let (id, rest) = eight_of(bytes)?;
    let (own, rest) = block_of(rest)?;
    let (daughter, rest) = daughter_of(rest)?;
    let (moved, rest) = eight_of(rest)?;
    let body = Body {
        id,
        own,
        daughter,
        moved,
    };
    Ok((body, rest))
}

#[tactic(auto, unfolding(crate::specs::Reading::registers_at))]
fn registers_of(bytes: &[u8]) -> Result<(Registers, &[u8]), Stop>
    ensures { Gives (λ x. (registers_parts x.0, x.1.now)) result (registers_at bytes.now) }
{
    let (ax, bx, rest) = two_registers_of(bytes)?;
    let (cx, dx, rest) = two_registers_of(rest)?;
    Ok((Registers { ax, bx, cx, dx }, rest))
}

fn words_of(bytes: &[u8]) -> Result<([i32; 10], &[u8]), Stop>
    ensures { Gives (λ x. (x.0, x.1.now)) result (list_at register_at 10 bytes.now) }
{
    let mut words = [0; 10];
    let mut rest = bytes;
    for k in 0..10 {
        let (word, after) = register_of(rest)?;
        words[k] = word;
        rest = after;
    }
    Ok((words, rest))
}

#[tactic(auto, unfolding(crate::specs::Reading::stack_at))]
fn stack_of(bytes: &[u8]) -> Result<(Stack, &[u8]), Stop>
    ensures { Gives (λ x. (stack_parts x.0, x.1.now)) result (stack_at bytes.now) }
{
    let (words, rest) = words_of(bytes)?;
    let (sp, rest) = four_of(rest)?;
    let (flag, rest) = byte_of(rest)?;
    Ok((Stack { words, sp, flag }, rest))
}

#[tactic(auto, unfolding(crate::specs::Reading::counts_at))]
fn counts_of(bytes: &[u8]) -> Result<(Counts, &[u8]), Stop>
    ensures { Gives (λ x. (counts_parts x.0, x.1.now)) result (counts_at bytes.now) }
{
    let (errors, rest) = eight_of(bytes)?;
    let (genotype, rest) = eight_of(rest)?;
    let (ran, rest) = eight_of(rest)?;
    let (bred, rest) = eight_of(rest)?;
    let counts = Counts {
        errors,
        genotype,
        ran,
        bred,
    };
    Ok((counts, rest))
}

impl Field<WorldFormat> for Creature {
    ghost at = { λ _. creature_at };

    #[tactic(auto, unfolding(crate::specs::Reading::creature_at, crate::specs::Reading::processor_at))]
    fn read(_: Global, _: WorldFormat, bytes: &[u8]) -> Result<(Creature, &[u8]), Stop> {
        let (body, rest) = body_of(bytes)?;
        let (registers, rest) = registers_of(rest)?;
        let (ip, rest) = four_of(rest)?;
        let (stack, rest) = stack_of(rest)?;
        let (counts, rest) = counts_of(rest)?;
        Ok((creature_from(body, registers, ip, stack, counts), rest))
    }
}

// The creature of these parts.
fn creature_from(
    body: Body,
    registers: Registers,
    ip: u32,
    stack: Stack,
    counts: Counts,
) -> Creature
    ensures { result ≡ creature_from (body_parts body, (processor_parts registers ip stack, counts_parts counts)) }
{
    let words = stack.words;
    Creature {
        id: body.id,
        own: body.own,
        daughter: body.daughter,
        moved: body.moved,
        ax: registers.ax,
        bx: registers.bx,
        cx: registers.cx,
        dx: registers.dx,
        ip,
        stack: words,
        sp: stack.sp,
        flag: stack.flag,
        errors: counts.errors,
        genotype: counts.genotype,
        ran: counts.ran,
        bred: counts.bred,
    }
}

// ---- genotypes and savings

#[tactic(auto, unfolding(crate::specs::Reading::parent_at))]
fn parent_of(bytes: &[u8]) -> Result<(Option<u64>, &[u8]), Stop>
    ensures { Gives (λ x. (x.0, x.1.now)) result (parent_at bytes.now) }
{
    let (number, rest) = eight_of(bytes)?;
    Ok((number.checked_sub(1), rest))
}

impl Field<WorldFormat> for Saving {
    ghost at = { λ _. saving_at };

    #[tactic(auto, unfolding(crate::specs::Reading::saving_at))]
    fn read(_: Global, _: WorldFormat, bytes: &[u8]) -> Result<(Saving, &[u8]), Stop> {
        let (genotype, quantum, rest) = eights_of(bytes)?;
        let (first_effort, second_effort, rest) = efforts_of(rest)?;
        let saving = Saving {
            genotype,
            quantum,
            first_effort,
            second_effort,
        };
        Ok((saving, rest))
    }
}

impl Field<WorldFormat> for StoredGenotype {
    ghost at = { λ _. found_at };

    #[tactic(auto, unfolding(crate::specs::Reading::found_at, crate::specs::Reading::details_at))]
    fn read(alloc: Global, _: WorldFormat, bytes: &[u8]) -> Result<(StoredGenotype, &[u8]), Stop> {
        let (cells, rest) = sized_of(bytes)?;
        let (parent, rest) = parent_of(rest)?;
        let (first_quantum, rest) = eight_of(rest)?;
        let (total, rest) = eight_of(rest)?;
        let (first_effort, second_effort, rest) = efforts_of(rest)?;
        let items = cells.to_vec(alloc)?;
        let found = StoredGenotype {
            code: Code { items },
            parent,
            first_quantum,
            total,
            first_effort,
            second_effort,
        };
        Ok((found, rest))
    }
}
