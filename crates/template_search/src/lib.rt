//! The search for the complement of a template.
//!
//! The template of an instruction is the run of nops after it, of at most ten cells. Its complement is sought at rising
//! distances on both sides or on one. The nearest match is found, and at equal distance the one ahead.
#![tactic(auto)]

mod candidates;
mod known;
mod lanes;
mod nearest;
mod opening;
mod places;
mod template;

ghost use Rattle.std.specs.Prelude.{◌<◌, ◌≤◌};
ghost use Rattle.tierra_model.specs.declared.limits.TheConstants.{MOST_CELLS};
ghost use Rattle.tierra_model.specs.Look.{Passes};
ghost use Rattle.tierra_model.specs.Search.{search_for};
ghost use Rattle.template_search.specs.Places.{IfAt};

use crate::candidates::Course;
use crate::nearest::nearest;
use crate::opening::Opening;
use crate::places::{next_place, place_at};
use crate::template::read_template;
use tierra_model::View;
pub use tierra_model::{Found, Way};

/// The cell after the nearest complement of the template of the instruction at `ip`: `Short` if the template has
/// fewer than `min` cells, and `NoMatch` if nothing matches at a distance of 1 to `limit`.
///
/// The cells looked at are, in order, the template and the cell that ends it, and then of each candidate the cells up
/// to the first mismatch.
pub fn search<V: View>(view: &mut V, ip: u32, way: Way, limit: u32, min: u32) -> Found
    requires ip { ip < V.size view.old }
    requires cells { V.size view.old ≤ MOST_CELLS }
    ensures passes { Passes V.cells V.looked (search_for (V.size view.old) ip way limit min) view.old view.new result }
    ensures below { IfAt result (λ p. p < V.size view.old) }
{
    let size = view.size();
    let template = read_template(view, next_place(ip, size), size);
    if template.len < min {
        return Found::Short;
    }
    let nops = &template.cells[..template.len as usize];
    let opening = Opening::of(&template);
    match nearest(view, nops, opening, Course { ip, way, size }, limit) {
        Some(start) => Found::At(place_at(start + template.len, size)),
        None => Found::NoMatch,
    }
}
