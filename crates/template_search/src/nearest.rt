//! The nearest candidate, at rising distances.

ghost use Rattle.std.specs.Prelude.{◌≡◌, ◌<◌, ◌≤◌, ◌+◌, ◌-◌, ◌^◌, IfSome, None, length};
ghost use Rattle.tierra_model.specs.declared.limits.TheConstants.{MOST_CELLS};
ghost use Rattle.tierra_model.specs.Look.{Passes};
ghost use Rattle.tierra_model.specs.Search.{candidates, try_each};
ghost use Rattle.template_search.specs.Circle.{NoneInCircle};
ghost use Rattle.template_search.specs.Openings.{IsOpening};
ghost use Rattle.template_search.specs.Reaching.{Reaches};

use crate::candidates::{Course, Pair, differ, match_near, ruled_out};
use crate::known::is_known;
use crate::lanes::LANES;
use crate::opening::Opening;
use crate::places::{next_place, place_at, previous_place};
use tierra_model::{View, Way};

/// The nearest candidate that is a complement, at a distance of 1 to `limit`.
///
/// After a full circle the same candidates come again.
pub fn nearest<V: View>(
    view: &mut V,
    nops: &[u8],
    opening: Opening,
    course: Course,
    limit: u32,
) -> Option<u32>
    requires opening { IsOpening nops.now opening }
    requires ip { course.ip < course.size }
    requires size { course.size ≡ V.size view.old }
    requires cells { course.size ≤ MOST_CELLS }
    requires short { length nops.now ≤ 10 }
    ensures passes { Passes V.cells V.looked (try_each course.size nops.now
        (candidates course.size course.ip (length nops.now) course.way limit 1)) view.old view.new result }
    ensures below { IfSome result (λ p. p < course.size) }
{
    let circle = limit.min(course.size);
    if let Some(start) = nearest_by_way(view, nops, opening, course, circle) {
        return Some(start);
    }
    if circle == limit {
        return None;
    }
    nearest_again(view, nops, course, limit)
}

// The nearest candidate at a distance of 1 to `limit`. Each `way` has a loop of its own. The loops are kept out of the
// callers: inlined there they took a fifth longer.
#[inline(never)]
fn nearest_by_way<V: View>(
    view: &mut V,
    nops: &[u8],
    opening: Opening,
    course: Course,
    limit: u32,
) -> Option<u32>
    requires opening { IsOpening nops.now opening }
    requires ip { course.ip < course.size }
    requires size { course.size ≡ V.size view.old }
    requires cells { course.size ≤ MOST_CELLS }
    requires short { length nops.now ≤ 10 }
    ensures passes { Passes V.cells V.looked (try_each course.size nops.now
        (candidates course.size course.ip (length nops.now) course.way limit 1)) view.old view.new result }
    ensures below { IfSome result (λ p. p < course.size) }
    ensures same { V.size view.new ≡ course.size }
{
    match course.way {
        Way::Outward => nearest_on(
            view,
            nops,
            opening,
            Course {
                way: Way::Outward,
                ..course
            },
            limit,
        ),
        Way::Forward => nearest_on(
            view,
            nops,
            opening,
            Course {
                way: Way::Forward,
                ..course
            },
            limit,
        ),
        Way::Backward => nearest_on(
            view,
            nops,
            opening,
            Course {
                way: Way::Backward,
                ..course
            },
            limit,
        ),
    }
}

#[inline(always)]
fn nearest_on<V: View>(
    view: &mut V,
    nops: &[u8],
    opening: Opening,
    course: Course,
    limit: u32,
) -> Option<u32>
    requires opening { IsOpening nops.now opening }
    requires ip { course.ip < course.size }
    requires size { course.size ≡ V.size view.old }
    requires cells { course.size ≤ MOST_CELLS }
    requires short { length nops.now ≤ 10 }
    ensures passes { Passes V.cells V.looked (try_each course.size nops.now
        (candidates course.size course.ip (length nops.now) course.way limit 1)) view.old view.new result }
    ensures below { IfSome result (λ p. p < course.size) }
    ensures same { V.size view.new ≡ course.size }
{
    let first = first_pair(course, nops.len() as u32);
    let straight = straight_distances(view, first, limit);
    if let Some(start) = nearest_straight(view, nops, opening, course, first, straight) {
        return Some(start);
    }
    let next = Pair {
        ahead: first.ahead + straight,
        behind: first.behind - straight,
    };
    nearest_round(view, nops, course, next, straight, limit)
}

// Where the candidates at distance 1 begin, for a template of `len` cells.
#[inline(always)]
fn first_pair(course: Course, len: u32) -> Pair
    requires ip { course.ip < course.size }
    requires cells { course.size ≤ MOST_CELLS }
    requires len { len ≤ 10 }
    ensures places { Reaches course.size course.ip len 1 result.ahead result.behind }
    ensures ahead { result.ahead < course.size }
    ensures behind { result.behind < course.size }
{
    let size = course.size;
    Pair {
        ahead: place_at(course.ip + (len + 1), size),
        behind: place_at(course.ip + 1 + (size - place_at(len + 1, size)), size),
    }
}

// How many distances, from these candidates on, can be tried in the view's row, eight cells at once and without going
// round the ring; 0 if the view has no row.
fn straight_distances<V: View>(view: &V, first: Pair, limit: u32) -> u32
    requires cells { V.size view.now ≤ MOST_CELLS }
    requires ahead { first.ahead < V.size view.now }
    requires behind { first.behind < V.size view.now }
    ensures limit { result ≤ limit }
    ensures ahead { first.ahead + result < V.size view.now }
    ensures behind { result ≤ first.behind }
    ensures near_ahead { 0 < result → first.ahead + result + 7 ≤ V.size view.now }
    ensures near_behind { 0 < result → first.behind + 8 ≤ V.size view.now }
{
    let size = view.size();
    if view.row().is_some() && first.ahead + 8 <= size && first.behind + 8 <= size {
        limit.min(size - 7 - first.ahead).min(first.behind)
    } else {
        0
    }
}

// The nearest candidate at the first distances that is a complement. Most others are ruled out by their first cells.
#[inline(always)]
#[tactic(auto, using(crate::proofs::Distances::search_begins, crate::proofs::Distances::search_fails))]
fn nearest_straight<V: View>(
    view: &mut V,
    nops: &[u8],
    opening: Opening,
    course: Course,
    first: Pair,
    straight: u32,
) -> Option<u32>
    requires opening { IsOpening nops.now opening }
    requires size { course.size ≡ V.size view.old }
    requires behind { first.behind < course.size }
    requires places { Reaches course.size course.ip (length nops.now) 1 first.ahead first.behind }
    requires within { straight ≤ first.behind }
    requires near_ahead { 0 < straight → first.ahead + straight + 7 ≤ course.size }
    requires near_behind { 0 < straight → first.behind + 8 ≤ course.size }
    ensures passes { Passes V.cells V.looked (try_each course.size nops.now
        (candidates course.size course.ip (length nops.now) course.way straight 1)) view.old view.new result }
    ensures below { IfSome result (λ p. p < course.size) }
    ensures same { V.size view.new ≡ course.size }
{
    let mut near = first_likely(view, nops, opening, course, first, straight);
    while near < straight {
        if let Some(start) = match_near(view, nops, course, Some(opening), pair_at(first, near)) {
            return Some(start);
        }
        near = next_likely(view, nops, opening, course, first, near + 1, straight);
    }
    None
}

// The candidates so many distances further.
#[inline(always)]
fn pair_at(first: Pair, further: u32) -> Pair
    requires ahead { first.ahead + further < 2 ^ 32 }
    requires behind { further ≤ first.behind }
    ensures ahead { result.ahead ≡ first.ahead + further }
    ensures behind { result.behind ≡ first.behind - further }
{
    Pair {
        ahead: first.ahead + further,
        behind: first.behind - further,
    }
}

// How many distances come before the first, up to `straight`, whose candidates the row does not rule out. They are tried
// sixteen at once, and the last ones one by one.
#[inline(always)]
fn first_likely<V: View>(
    view: &V,
    nops: &[u8],
    opening: Opening,
    course: Course,
    first: Pair,
    straight: u32,
) -> u32
    requires opening { IsOpening nops.now opening }
    requires size { course.size ≡ V.size view.now }
    requires behind { first.behind < course.size }
    requires places { Reaches course.size course.ip (length nops.now) 1 first.ahead first.behind }
    requires within { straight ≤ first.behind }
    requires near_ahead { 0 < straight → first.ahead + straight + 7 ≤ course.size }
    requires near_behind { 0 < straight → first.behind + 8 ≤ course.size }
    ensures up_to { result ≤ straight }
    ensures none { Passes V.cells V.looked (try_each course.size nops.now
        (candidates course.size course.ip (length nops.now) course.way result 1)) view.now view.now None }
{
    let mut near = 0;
    while straight - near >= LANES {
        let further = ruled_out(view, nops, course, pair_at(first, near));
        near += further;
        if further < LANES {
            return near;
        }
    }
    next_likely(view, nops, opening, course, first, near, straight)
}

// The same where `near` distances were tried, one by one. (Alone, the loop keeps its values in registers.)
#[inline(never)]
fn next_likely<V: View>(
    view: &V,
    nops: &[u8],
    opening: Opening,
    course: Course,
    first: Pair,
    near: u32,
    straight: u32,
) -> u32
    requires opening { IsOpening nops.now opening }
    requires size { course.size ≡ V.size view.now }
    requires behind { first.behind < course.size }
    requires places { Reaches course.size course.ip (length nops.now) 1 first.ahead first.behind }
    requires near { near ≤ straight }
    requires within { straight ≤ first.behind }
    requires near_ahead { 0 < straight → first.ahead + straight + 7 ≤ course.size }
    requires near_behind { 0 < straight → first.behind + 8 ≤ course.size }
    ensures from { near ≤ result }
    ensures up_to { result ≤ straight }
    ensures none { Passes V.cells V.looked (try_each course.size nops.now
        (candidates course.size course.ip (length nops.now) course.way (result - near) (near + 1)))
        view.now view.now None }
{
    for at in near..straight {
        if !differ(view, nops, course, opening, pair_at(first, at)) {
            return at;
        }
    }
    straight
}

// The nearest candidate at the other distances, from these two on.
#[inline(always)]
#[tactic(auto, using(crate::proofs::Distances::search_begins, crate::proofs::Distances::search_fails))]
fn nearest_round<V: View>(
    view: &mut V,
    nops: &[u8],
    course: Course,
    next: Pair,
    tried: u32,
    limit: u32,
) -> Option<u32>
    requires size { course.size ≡ V.size view.old }
    requires ahead { next.ahead < course.size }
    requires behind { next.behind < course.size }
    requires places { Reaches course.size course.ip (length nops.now) (tried + 1) next.ahead next.behind }
    requires tried { tried ≤ limit }
    ensures passes { Passes V.cells V.looked (try_each course.size nops.now
        (candidates course.size course.ip (length nops.now) course.way (limit - tried) (tried + 1)))
        view.old view.new result }
    ensures below { IfSome result (λ p. p < course.size) }
    ensures same { V.size view.new ≡ course.size }
{
    let mut ahead = next.ahead;
    let mut behind = next.behind;
    for _ in tried..limit {
        if let Some(start) = match_near(view, nops, course, None, Pair { ahead, behind }) {
            return Some(start);
        }
        ahead = next_place(ahead, course.size);
        behind = previous_place(behind, course.size);
    }
    None
}

// The search goes on after a full circle in which no candidate was a complement, and finds nothing. In a view whose
// cells are all known its looks leave no trace either. Any other view may count them, and so is looked at again.
#[inline(never)]
fn nearest_again<V: View>(view: &mut V, nops: &[u8], course: Course, limit: u32) -> Option<u32>
    requires ip { course.ip < course.size }
    requires size { course.size ≡ V.size view.old }
    requires cells { course.size ≤ MOST_CELLS }
    requires short { length nops.now ≤ 10 }
    requires limit { course.size ≤ limit }
    requires none { NoneInCircle course.size (V.cells view.old) course.ip course.way nops.now }
    ensures passes { Passes V.cells V.looked (try_each course.size nops.now (candidates course.size course.ip
        (length nops.now) course.way (limit - course.size) (course.size + 1))) view.old view.new result }
    ensures below { IfSome result (λ p. p < course.size) }
{
    if is_known(view) {
        return None;
    }
    let first = first_pair(course, nops.len() as u32);
    nearest_round(view, nops, course, first, course.size, limit)
}
