// The fields of a word, by their names in the Arm Architecture Reference Manual.

use lg_base::Field;

/// rd, or rt of a load or store: bits 0 to 4.
pub(crate) type Rd = Field<0, 5>;

/// rn: bits 5 to 9.
pub(crate) type Rn = Field<5, 5>;

/// ra, of a row that multiplies and adds: bits 10 to 14.
pub(crate) type Ra = Field<10, 5>;

/// rm: bits 16 to 20.
pub(crate) type Rm = Field<16, 5>;

/// imm12, the number of a sum or of a scaled distance: bits 10 to 21.
pub(crate) type Imm12 = Field<10, 12>;

/// sh, whether imm12 counts 4,096 times: bit 22.
pub(crate) type Shift = Field<22, 1>;

/// imm16: bits 5 to 20.
pub(crate) type Imm16 = Field<5, 16>;

/// hw, the quarter of the word that imm16 is in: bits 21 and 22.
pub(crate) type Hw = Field<21, 2>;

/// immr: bits 16 to 21.
pub(crate) type Immr = Field<16, 6>;

/// imms: bits 10 to 15.
pub(crate) type Imms = Field<10, 6>;

/// cond of a select: bits 12 to 15.
pub(crate) type SelectCond = Field<12, 4>;

/// imm9, the signed distance in bytes of an unscaled load or store: bits 12 to 20.
pub(crate) type Imm9 = Field<12, 9>;

/// imm26, the signed distance in words of a branch: bits 0 to 25.
pub(crate) type Imm26 = Field<0, 26>;

/// imm19, the signed distance in words of a branch with a condition: bits 5 to 23.
pub(crate) type Imm19 = Field<5, 19>;

/// cond of a branch: bits 0 to 3.
pub(crate) type BranchCond = Field<0, 4>;

/// The highest byte, bits 24 to 31, which parts the formats.
pub(crate) type Top = Field<24, 8>;

/// Bits 21 to 23, which part the formats of one highest byte.
pub(crate) type Sort = Field<21, 3>;
