//! The candidates at one distance.

ghost use Rattle.std.specs.Prelude.{◌≡◌, ◌<◌, ◌≤◌, ◌+◌, ◌-◌, ℕ, IfSome, None, Some, [], ◌∷◌};
ghost use Rattle.std.specs.Prelude.{length, slice_index, true};
ghost use Rattle.tierra_model.specs.Look.{Passes};
ghost use Rattle.tierra_model.specs.Search.{try_each};
ghost use Rattle.template_search.specs.Sides.{on_sides};
ghost use Rattle.template_search.specs.Openings.{IsOpening};

use crate::lanes::{ruled_out_ahead, ruled_out_behind};
use crate::opening::Opening;
use crate::template::is_complement;
use tierra_model::{View, Way};

/// The course of a search: from the instruction at `ip` on these sides, in a ring of `size` cells.
#[derive(Clone, Copy, Drop)]
pub struct Course {
    pub ip: u32,
    pub way: Way,
    pub size: u32,
}

/// Where the candidates at one distance begin, on both sides.
#[derive(Clone, Copy, Drop)]
pub struct Pair {
    pub ahead: u32,
    pub behind: u32,
}

/// Whether the row shows that no candidate at one distance is a complement. Of most it does.
#[inline(always)]
pub fn differ<V: View>(view: &V, nops: &[u8], course: Course, opening: Opening, pair: Pair) -> bool
    requires opening { IsOpening nops.now opening }
    requires ahead { pair.ahead + 8 ≤ V.size view.now }
    requires behind { pair.behind + 8 ≤ V.size view.now }
    ensures { result ≡ true → Passes V.cells V.looked
        (try_each (V.size view.now) nops.now (on_sides course.way pair.ahead pair.behind))
        view.now view.now None }
{
    match view.row() {
        Some(row) => match course.way {
            Way::Outward => opening.both_differ(row, pair.ahead, pair.behind),
            Way::Forward => opening.differs(row, pair.ahead),
            Way::Backward => opening.differs(row, pair.behind),
        },
        None => false,
    }
}

/// How many distances, of sixteen from this one on, come before the first whose candidates the row does not rule out.
#[inline(always)]
pub fn ruled_out<V: View>(view: &V, nops: &[u8], course: Course, pair: Pair) -> u32
    requires nops { (j : ℕ) → j < length nops.now → slice_index nops.now j < 2 }
    requires ahead { pair.ahead + 23 ≤ V.size view.now }
    requires begin { 15 ≤ pair.behind }
    requires behind { pair.behind + 8 ≤ V.size view.now }
    ensures at_most { result ≤ 16 }
    ensures none { (j : ℕ) → j < result → Passes V.cells V.looked (try_each (V.size view.now) nops.now
        (on_sides course.way (pair.ahead + j) (pair.behind - j))) view.now view.now None }
{
    match view.row() {
        Some(row) => match course.way {
            Way::Outward => {
                let ahead = ruled_out_ahead(nops, row, pair.ahead);
                ahead.min(ruled_out_behind(nops, row, pair.behind))
            }
            Way::Forward => ruled_out_ahead(nops, row, pair.ahead),
            Way::Backward => ruled_out_behind(nops, row, pair.behind),
        },
        None => 0,
    }
}

/// Of the candidates at one distance on the sides of the search, the first that is a complement. The opening is given
/// where eight cells of the row are seen from each of them on.
#[inline(always)]
pub fn match_near<V: View>(
    view: &mut V,
    nops: &[u8],
    course: Course,
    opening: Option<Opening>,
    pair: Pair,
) -> Option<u32>
    requires opening { IfSome opening (λ o. IsOpening nops.now o) }
    requires near_ahead { IfSome opening (λ o. pair.ahead + 8 ≤ course.size) }
    requires near_behind { IfSome opening (λ o. pair.behind + 8 ≤ course.size) }
    requires ahead { pair.ahead < course.size }
    requires behind { pair.behind < course.size }
    requires size { course.size ≡ V.size view.old }
    ensures passes { Passes V.cells V.looked
        (try_each course.size nops.now (on_sides course.way pair.ahead pair.behind)) view.old view.new result }
    ensures below { IfSome result (λ p. p < course.size) }
    ensures same { V.size view.new ≡ course.size }
{
    match course.way {
        Way::Outward => match match_at(view, nops, course, opening, pair.ahead) {
            Some(place) => Some(place),
            None => match_at(view, nops, course, opening, pair.behind),
        },
        Way::Forward => match_at(view, nops, course, opening, pair.ahead),
        Way::Backward => match_at(view, nops, course, opening, pair.behind),
    }
}

// The candidate, if it is a complement.
#[inline(always)]
fn match_at<V: View>(
    view: &mut V,
    nops: &[u8],
    course: Course,
    opening: Option<Opening>,
    place: u32,
) -> Option<u32>
    requires opening { IfSome opening (λ o. IsOpening nops.now o) }
    requires near { IfSome opening (λ o. place + 8 ≤ course.size) }
    requires place { place < course.size }
    requires size { course.size ≡ V.size view.old }
    ensures passes { Passes V.cells V.looked
        (try_each course.size nops.now (place ∷ [])) view.old view.new result }
    ensures below { IfSome result (λ p. p < course.size) }
    ensures same { V.size view.new ≡ course.size }
{
    if shows_match(view, nops, opening, place) {
        return Some(place);
    }
    if is_complement(view, nops, place, course.size) {
        Some(place)
    } else {
        None
    }
}

// Whether the row shows that the candidate is a complement. It can where the template has at most eight cells.
#[inline(always)]
fn shows_match<V: View>(view: &V, nops: &[u8], opening: Option<Opening>, place: u32) -> bool
    requires opening { IfSome opening (λ o. IsOpening nops.now o) }
    requires near { IfSome opening (λ o. place + 8 ≤ V.size view.now) }
    ensures { result ≡ true → Passes V.cells V.looked
        (try_each (V.size view.now) nops.now (place ∷ [])) view.now view.now (Some place) }
{
    let Some(opening) = opening else {
        return false;
    };
    match view.row() {
        Some(row) => nops.len() <= 8 && opening.agrees(row, place),
        None => false,
    }
}
