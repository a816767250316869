// Which node's bytes hold a place.

ghost use Rattle.std.specs.Prelude.{◌≡◌, ◌<◌, ◌≤◌, ℕ, IfSome, IfNone};
ghost use Rattle.lg_prof.specs.Places.{Holds, NeverFall};

use lg_base::Places;

/// Returns the node whose bytes hold a place of the code, or `None` exactly when none does. No place of the list is below the one before it.
pub fn node_at(places: &Places, place: u32) -> Option<u32>
    requires { NeverFall places.now.items }
    ensures held { IfSome result (λ i. Holds places.now.items i place) }
    ensures none { IfNone result ((i : ℕ) → Holds places.now.items i place → ⊥) }
{
    let mut low = 0;
    let mut high = places.len();
    while low < high {
        let middle = low + (high - low) / 2;
        if places.get(middle) <= place {
            low = middle + 1;
        } else {
            high = middle;
        }
    }
    if low == 0 || low == places.len() {
        return None;
    }
    Some(low - 1)
}
