//! A stream that is read in order.

ghost use Rattle.std.specs.Prelude.{◌≡◌, ◌+◌, ◌*◌, ◌<◌, ◌^◌};
ghost use Rattle.rand_chacha.specs.ChaCha.{key_of};
ghost use Rattle.mutation_streams.specs.Reading.{first_words, instruction_words, words_at};

use rand_chacha::ChaCha8Rng;
use rand_core::SeedableRng;
use rand_core::utils::NextWord;
use std::marker::Model;

/// The first words of a stream, before those of the instructions, and the words of the instruction asked for last.
#[derive(Debug, Drop)]
pub(crate) struct Reading {
    rng: ChaCha8Rng,
    first: [u32; 3],
    instruction: u32,
    words: [u32; 4],
}

impl Model for Reading {
    ghost use Rattle.std.specs.Prelude.{◌≡◌, ◌+◌, ◌*◌, ◌<◌, ◌^◌};
    ghost use Rattle.mutation_streams.specs.Reading.{ReadingFields, first_words, instruction_words};

    ghost Value = { ReadingFields };

    ghost view = { λ r. record { key = r.rng.key; stream = r.rng.stream; instruction = r.instruction } };

    ghost invariant = { λ r. (r.rng.word_pos ≡ 7 + 4 * r.instruction) × (r.first ≡ first_words r.rng.key r.rng.stream)
        × (r.words ≡ instruction_words r.rng.key r.rng.stream r.instruction) × (r.instruction < 2 ^ 32) };
}

impl Reading {
    /// Begins at instruction 0. (It is not put into the code of each caller, so that the other draws stay small there.)
    #[inline(never)]
    pub(crate) fn start(seed: &[u8; 32], stream: u64) -> Reading
        ensures { result ≡ record { key = key_of seed.now; stream = stream; instruction = 0 } }
    {
        let mut rng = ChaCha8Rng::from_seed(*seed);
        rng.set_stream(stream);
        let first = [rng.next_word(), rng.next_word(), rng.next_word()];
        let words = next_four(&mut rng);
        Reading {
            rng,
            first,
            instruction: 0,
            words,
        }
    }

    /// The words of instruction `i`. For a later instruction than before, the stream is read on.
    #[inline(always)]
    pub(crate) fn words_of(&mut self, i: u32) -> [u32; 4]
        ensures words { result ≡ instruction_words self.old.key self.old.stream i }
        ensures turned { self.new ≡ record self.old { instruction = i } }
    {
        if i != self.instruction {
            self.turn_to(i);
        }
        self.words
    }

    // Goes to another instruction.
    #[inline(never)]
    fn turn_to(&mut self, i: u32)
        ensures { self.new ≡ record self.old { instruction = i } }
    {
        if i > self.instruction {
            skip(&mut self.rng, i - 1 - self.instruction);
        } else {
            seek(&mut self.rng, i);
        }
        self.words = next_four(&mut self.rng);
        self.instruction = i;
    }

    /// Words 0 to 2.
    pub(crate) fn first(&self) -> [u32; 3]
        ensures { result ≡ first_words self.now.key self.now.stream }
    {
        self.first
    }
}

// Reads over the words of this many instructions.
fn skip(rng: &mut ChaCha8Rng, instructions: u32)
    requires { rng.old.word_pos + 4 * instructions < 2 ^ 68 }
    ensures { rng.new ≡ record rng.old { word_pos = rng.old.word_pos + 4 * instructions } }
{
    for _ in 0..instructions {
        next_four(rng);
    }
}

// Goes to the words of instruction `i`.
#[cold]
#[inline(never)]
fn seek(rng: &mut ChaCha8Rng, i: u32)
    ensures { rng.new ≡ record rng.old { word_pos = 3 + 4 * i } }
{
    rng.set_word_pos(u128::from(3 + 4 * u64::from(i)));
}

// The next four words.
#[inline(always)]
fn next_four(rng: &mut ChaCha8Rng) -> [u32; 4]
    requires { rng.old.word_pos + 4 < 2 ^ 68 }
    ensures words { result ≡ words_at rng.old.key rng.old.stream rng.old.word_pos }
    ensures rng { rng.new ≡ record rng.old { word_pos = rng.old.word_pos + 4 } }
{
    [
        rng.next_word(),
        rng.next_word(),
        rng.next_word(),
        rng.next_word(),
    ]
}
