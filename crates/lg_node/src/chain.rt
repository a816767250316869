// The labels that are bound at one node, in the order of their numbers: each leads to the next.

ghost use Rattle.std.specs.Prelude.{◌≡◌, ◌≢◌, ◌<◌, ◌+◌, ℕ, Bool, true, false, List, Some, None, Option, length, slice_set, slice_index_or};
ghost use Rattle.lg_node.specs.Chains.{IsChain, IsJoined};

use lg_op::Label;

/// The first and the last label of a node.
#[derive(Clone, Copy)]
pub struct Ends {
    /// The label of the least number.
    pub first: Label,
    /// The label of the greatest number.
    pub last: Label,
}

// Returns the last label of a chain in front of another label, which is not its first.
fn label_before(next: &[Option<Label>], first: Label, label: Label) -> Label
    requires chain { (at : ℕ → Bool) × (ends : Option Ends) × IsChain at next.now ends × (at first.0 ≡ true) }
    requires first { first.0 < label.0 }
    ensures bound { (at : ℕ → Bool) (ends : Option Ends) → IsChain at next.now ends → at first.0 ≡ true → at result.0 ≡ true }
    ensures before { result.0 < label.0 }
    ensures none { (at : ℕ → Bool) (ends : Option Ends) → IsChain at next.now ends → at first.0 ≡ true → at label.0 ≡ false
        → (k : ℕ) → result.0 < k → k < label.0 → at k ≡ false }
{
    let mut before = first;
    while let Some(behind) = next[before.0 as usize] {
        if label.0 <= behind.0 {
            return before;
        }
        before = behind;
    }
    before
}

// Puts a label after another one of its chain.
fn put_after(next: &mut [Option<Label>], before: Label, label: Label)
    requires before { before.0 < length next.old }
    requires label { label.0 < length next.old }
    ensures { next.new ≡ slice_set (slice_set next.old label.0 (slice_index_or next.old before.0 None)) before.0 (Some label) }
{
    next[label.0 as usize] = next[before.0 as usize];
    next[before.0 as usize] = Some(label);
}

/// Puts a label that is in no chain into one with these ends, and gives its new ends.
pub fn link(next: &mut [Option<Label>], ends: Option<Ends>, label: Label) -> Ends
    requires label { label.0 < length next.old }
    requires chain { (at : ℕ → Bool) × IsChain at next.old ends × (at label.0 ≡ false) }
    ensures chain { (at more : ℕ → Bool) → IsChain at next.old ends → at label.0 ≡ false → IsJoined at more label.0
        → IsChain more next.new (Some result) }
    ensures others { (at : ℕ → Bool) → IsChain at next.old ends → at label.0 ≡ false → (k : ℕ) → k ≢ label.0 → at k ≡ false
        → slice_index_or next.new k None ≡ slice_index_or next.old k None }
{
    let Some(ends) = ends else {
        next[label.0 as usize] = None;
        return Ends {
            first: label,
            last: label,
        };
    };
    if label.0 < ends.first.0 {
        next[label.0 as usize] = Some(ends.first);
        return Ends {
            first: label,
            last: ends.last,
        };
    }
    if ends.last.0 < label.0 {
        put_after(next, ends.last, label);
        return Ends {
            first: ends.first,
            last: label,
        };
    }
    let before = label_before(next, ends.first, label);
    put_after(next, before, label);
    ends
}
