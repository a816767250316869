// The fields of a word, by their names in the RISC-V unprivileged ISA.

use lg_base::Field;

/// opcode: bits 0 to 6.
pub(crate) type Opcode = Field<0, 7>;

/// rd: bits 7 to 11. In rows without rd, low bits of the number.
pub(crate) type Rd = Field<7, 5>;

/// funct3: bits 12 to 14.
pub(crate) type Funct3 = Field<12, 3>;

/// rs1: bits 15 to 19.
pub(crate) type Rs1 = Field<15, 5>;

/// rs2: bits 20 to 24.
pub(crate) type Rs2 = Field<20, 5>;

/// funct7: bits 25 to 31. In rows without funct7, high bits of the number.
pub(crate) type Funct7 = Field<25, 7>;

/// The high six bits of funct7, which part the shifts: bits 26 to 31.
pub(crate) type Funct6 = Field<26, 6>;

/// shamt, the count of a shift: bits 20 to 25.
pub(crate) type Amount = Field<20, 6>;

/// imm[11:0], a number of 12 bits: bits 20 to 31.
pub(crate) type Imm12 = Field<20, 12>;

/// The number of 20 bits at the top of a word: bits 12 to 31.
pub(crate) type Imm20 = Field<12, 20>;
