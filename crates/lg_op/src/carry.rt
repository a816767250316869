// The carry.

/// The carry, with the family of operations that set it.
#[derive(Clone, Copy, PartialEq, Eq)]
pub enum Carry {
    /// No operation has set it that the step before left in place.
    Undefined,
    /// The carry out of an `addc` or `addx`.
    Sum(bool),
    /// The borrow of a `subc` or `subx`.
    Difference(bool),
}
