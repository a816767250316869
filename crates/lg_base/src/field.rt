// Fields of instruction words.

ghost use Rattle.std.specs.Prelude.{◌≡◌, ◌<◌, ◌≤◌, ◌+◌, ◌*◌, ◌^◌, ◌⊎◌, ℕ};
ghost use Rattle.std.specs.Int.{bit_at};
ghost use Rattle.lg_base.specs.Fields.{part};

/// The field of a word of 32 bits that has `LEN` bits from bit `LO` on. `LEN` is from 1 to 31, and
/// `LO + LEN` at most 32.
pub struct Field<const LO: u32, const LEN: u32>;

impl<const LO: u32, const LEN: u32> Field<LO, LEN> {
    /// Returns the number that the field holds, below `2 ^ LEN`.
    pub fn get(word: u32) -> u32
        requires some { 1 ≤ LEN }
        requires len { LEN ≤ 31 }
        requires inside { LO + LEN ≤ 32 }
        ensures value { result ≡ part LO LEN word }
        ensures fits { result < 2 ^ LEN }
    {
        (word >> LO) & ((1 << LEN) - 1)
    }

    /// Returns the word with a number, which is below `2 ^ LEN`, in the field, and every other bit as it was.
    pub fn put(word: u32, value: u32) -> u32
        requires some { 1 ≤ LEN }
        requires len { LEN ≤ 31 }
        requires inside { LO + LEN ≤ 32 }
        requires value { value < 2 ^ LEN }
        ensures sum { result + part LO LEN word * 2 ^ LO ≡ word + value * 2 ^ LO }
        ensures got { part LO LEN result ≡ value }
        ensures kept { (i : ℕ) → (i < LO) ⊎ (LO + LEN ≤ i) → bit_at result i ≡ bit_at word i }
    {
        (word ^ (Self::get(word) << LO)) | (value << LO)
    }
}
