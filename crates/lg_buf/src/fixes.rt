// Fixes: the fields of instructions that wait for the place of a label.

ghost use Rattle.std.specs.Prelude.{◌≡◌, ℕ, ◌<◌, ◌↔◌, List, slice_index, IsTrue};
ghost use Rattle.lg_buf.specs.FixFields.{fix_len};
ghost use Rattle.lg_buf.specs.Fixing.{Fixed, Fits, IsWithin};

/// The kinds of fixes: which field holds the distance or the address of a target, which is a place in the code. The
/// place of a fix is that of the displacement or immediate on x86-64, which ends its instruction, and that of the
/// word, or of the first of two words, on the others. The fields are those of the Intel SDM volume 2, of the Arm
/// Architecture Reference Manual (A64) and of the RISC-V unprivileged ISA.
#[derive(Clone, Copy, PartialEq, Eq)]
pub enum FixKind {
    /// x86-64: the distance from the field's end, in 1 byte (`jmp8`, `jo8` to `jg8`).
    X86Rel8,
    /// x86-64: the distance from the field's end, in 4 bytes (`jmp32`, `jo32` to `jg32`, `call32`).
    X86Rel32,
    /// x86-64: the address, in 4 bytes without a sign (`movi32`).
    X86Abs32,
    /// AArch64: the distance in words, in bits 0 to 25 (`b`, `bl`).
    A64Branch26,
    /// AArch64: the distance in words, in bits 5 to 23 (`b.eq` to `b.le`).
    A64Cond19,
    /// AArch64: the address, in bits 5 to 20 of two words (`movz`, and `movk` of the next 16 bits).
    A64MovPair,
    /// RV64: the distance, in the 13 bits of a branch (`beq` to `bgeu`).
    RvBranch,
    /// RV64: the distance, in the 21 bits of a jump (`jal`).
    RvJal,
    /// RV64: the address, in the upper 20 bits of a word and the 12 signed bits of the next (`lui`, `addi`).
    RvLuiAddi,
    /// RV64: the distance from the first word, in its upper 20 bits and the 12 signed bits of the next (`auipc`, `jalr`).
    RvAuipcJalr,
}

/// A label of a buffer, by its number from 0, below the number that the buffer was made with.
#[derive(Clone, Copy, PartialEq, Eq)]
pub struct Label32(pub u32);

/// A field that will lead to the place of a label.
#[derive(Clone, Copy, PartialEq, Eq)]
pub struct Fix {
    /// The place of its first byte.
    pub place: u32,
    /// Which field it is.
    pub kind: FixKind,
    /// The label to whose place it will lead.
    pub label: Label32,
}

impl FixKind {
    /// Returns how many bytes a fix of the kind has: 1, 4 or 8.
    pub fn size(self) -> u32
        ensures { result ≡ fix_len self }
    {
        match self {
            FixKind::X86Rel8 => 1,
            FixKind::A64MovPair | FixKind::RvLuiAddi | FixKind::RvAuipcJalr => 8,
            FixKind::X86Rel32
            | FixKind::X86Abs32
            | FixKind::A64Branch26
            | FixKind::A64Cond19
            | FixKind::RvBranch
            | FixKind::RvJal => 4,
        }
    }

    /// Returns whether a fix of the kind at a place can lead to a target: its field can hold the distance, or the address of
    /// the target. No bytes at all lead there where it can't.
    pub fn fits(self, place: u32, target: u32) -> bool
        ensures fits { IsTrue result ↔ Fits self place target }
        ensures exact { (bytes : List ℕ) → ((i : ℕ) → slice_index bytes i < 256)
            → Fixed bytes place self target → Fits self place target }
    {
        match self {
            FixKind::X86Rel8 => is_within(128, place as u64 + 1, target),
            FixKind::X86Rel32 => is_within(0x8000_0000, place as u64 + 4, target),
            // the address, 0x1000_0000 and the target, has 32 bits
            FixKind::X86Abs32 | FixKind::A64MovPair => target < 0xF000_0000,
            FixKind::A64Branch26 => {
                is_within(0x800_0000, place as u64, target) && target % 4 == place % 4
            }
            FixKind::A64Cond19 => {
                is_within(0x10_0000, place as u64, target) && target % 4 == place % 4
            }
            FixKind::RvBranch => {
                is_within(0x1000, place as u64, target) && target % 2 == place % 2
            }
            FixKind::RvJal => {
                is_within(0x10_0000, place as u64, target) && target % 2 == place % 2
            }
            // the address is at most 0x7FFF_F7FF: 524,287 * 4,096 and 2,047
            FixKind::RvLuiAddi => target < 0x6FFF_F800,
            // 524,288 * 4,096 and 2,048 bytes back, 524,287 * 4,096 and 2,047 on
            FixKind::RvAuipcJalr => {
                place as u64 <= target as u64 + 0x8000_0800
                    && (target as u64) < place as u64 + 0x7FFF_F800
            }
        }
    }
}

// whether a signed number of `half + half` values can be the distance
fn is_within(half: u64, from: u64, to: u32) -> bool
    requires half { half < 4294967296 }
    requires from { from < 8589934592 }
    ensures { IsTrue result ↔ IsWithin half from to }
{
    from <= to as u64 + half && (to as u64) < from + half
}
