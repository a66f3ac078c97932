//! Views whose cells are all known.

ghost use Rattle.std.specs.Prelude.{◌≡◌, ◌<◌, nat_lt, true, ℕ};
ghost use Rattle.std.specs.List.{list_all};

use tierra_model::View;

/// Whether the view's row shows what each cell holds. Then no look leaves a trace.
pub fn is_known<V: View>(view: &V) -> bool
    ensures { result ≡ true → (p : ℕ) → p < V.size view.now → V.looked view.now p ≡ view.now }
{
    match view.row() {
        Some(row) => are_codes(row),
        None => false,
    }
}

// Whether each byte is an instruction's code.
fn are_codes(row: &[u8]) -> bool
    ensures { result ≡ list_all (λ code. nat_lt code 32) row.now }
{
    row.iter().all(|byte| *byte < 32)
}
