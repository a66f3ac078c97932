//! Templates and their complements.

ghost use Rattle.std.specs.Prelude.{◌≡◌, ◌+◌, ◌*◌, ◌<◌, ◌≤◌, ◌^◌, ℕ, length, slice_index, take};
ghost use Rattle.tierra_model.specs.Look.{Passes};
ghost use Rattle.tierra_model.specs.Search.{compare, read_template};
ghost use Rattle.template_search.specs.Openings.{packed};

use crate::places::next_place;
use tierra_model::View;

/// The first `len` of `cells`, which hold nops. The word has the first eight cells as its bytes, the first the lowest.
#[derive(Clone, Copy, Drop)]
pub struct Template {
    pub cells: [u8; 10],
    pub word: u64,
    pub len: u32,
    pub ghost short: { len ≤ 10 },
    pub ghost nops: { (j : ℕ) → slice_index cells j < 2 },
    pub ghost packed: { word ≡ packed (slice_index cells) },
}

/// The template in the cells from `start` on.
#[tactic(auto, using(crate::proofs::Reading::reading))]
pub fn read_template<V: View>(view: &mut V, start: u32, size: u32) -> Template
    requires start { start < size }
    requires size { size ≡ V.size view.old }
    ensures passes { Passes V.cells V.looked
        (read_template size 10 start) view.old view.new (take result.len result.cells) }
    ensures len { length (take result.len result.cells) ≡ result.len }
    ensures same { V.size view.new ≡ size }
{
    let mut cells = [0; 10];
    let mut word = 0;
    let mut place = start;
    for len in 0..10 {
        let cell = view.get(place);
        if cell >= 2 {
            return Template { cells, word, len };
        }
        cells[len as usize] = cell;
        word = with_byte(word, len, cell);
        place = next_place(place, size);
    }
    Template {
        cells,
        word,
        len: 10,
    }
}

// The word with a nop as its byte number `at`, from 0, if it has that byte: it has only eight.
fn with_byte(word: u64, at: u32, nop: u8) -> u64
    requires at { at < 10 }
    requires nop { nop < 2 }
    requires below { word < 2 ^ (8 * at) }
    ensures within { at < 8 → result ≡ word + nop * 2 ^ (8 * at) }
    ensures behind { 8 ≤ at → result ≡ word }
{
    if at < 8 {
        word + (u64::from(nop) << (8 * at))
    } else {
        word
    }
}

/// Whether the cells from `start` on hold 1 where the template has 0, and 0 where it has 1.
#[inline(always)]
#[tactic(auto, using(crate::proofs::Comparing::comparing))]
pub fn is_complement<V: View>(view: &mut V, nops: &[u8], start: u32, size: u32) -> bool
    requires start { start < size }
    requires size { size ≡ V.size view.old }
    ensures passes { Passes V.cells V.looked (compare size nops.now start) view.old view.new result }
    ensures same { V.size view.new ≡ size }
{
    let mut place = start;
    for nop in nops {
        let cell = view.get(place);
        if u16::from(*nop) + u16::from(cell) != 1 {
            return false;
        }
        place = next_place(place, size);
    }
    true
}
