// Registers, labels and operands.

ghost use Rattle.std.specs.Prelude.{◌≡◌, ◌<◌, ◌≤◌, ◌+◌, [], ◌∷◌, ◌++◌, length, slice_index_or};
ghost use Rattle.lg_op.specs.declared.operand.Operand.TheVariants as operand;

use lg_base::HostName;
use std::marker::Model;

/// A register of the portable machine.
#[derive(Clone, Copy, Debug, PartialEq, Eq)]
pub enum Reg {
    /// `%r0`; a call may change it.
    R0,
    /// `%r1`; a call may change it.
    R1,
    /// `%r2`; a call may change it.
    R2,
    /// `%v0`; a call keeps it.
    V0,
    /// `%v1`; a call keeps it.
    V1,
    /// `%v2`; a call keeps it.
    V2,
    /// `%fp`, the frame pointer, which is read and never written.
    Fp,
}

/// A label, by its number in the order in which labels are first mentioned.
#[derive(Clone, Copy, Debug, PartialEq, Eq)]
pub struct Label(pub u32);

/// An operand of a node.
#[derive(Clone, Copy, Debug, PartialEq, Eq)]
pub enum Operand {
    /// A register.
    Reg(Reg),
    /// A number, as a word of 64 bits; of a local, its offset.
    Number(u64),
    /// A label, which denotes its address where it is an immediate.
    Label(Label),
    /// A function of the host.
    Host(HostName),
    /// The number of an `arg` or an `allocai` in its function, from 0.
    Slot(u32),
}

// What is after the last operand.
const UNUSED: Operand = Operand::Number(0);

/// A list of at most 4 operands, held inline.
#[derive(Clone, Copy, Debug)]
pub struct Operands {
    list: [Operand; 4],
    len: usize,
}

impl Model for Operands {
    ghost use Rattle.std.specs.Prelude.{List};
    ghost use Rattle.lg_op.specs.declared.operand.Operand.{Operand};

    ghost Value = { List Operand };

    ghost use Rattle.lg_op.specs.Operands.{list_of, padded, IsOperands};

    ghost view = { list_of };

    ghost invariant = { IsOperands };

    ghost inverse = { padded };

    ghost inverse_ok = { λ o h. h.rest };
}

impl Operands {
    /// Returns the list of these operands (at most 4).
    pub fn of(list: &[Operand]) -> Operands
        requires { length list.now ≤ 4 }
        ensures { result ≡ list.now }
    {
        match list {
            [] => Operands {
                list: [UNUSED, UNUSED, UNUSED, UNUSED],
                len: 0,
            },
            [a] => Operands {
                list: [*a, UNUSED, UNUSED, UNUSED],
                len: 1,
            },
            [a, b] => Operands {
                list: [*a, *b, UNUSED, UNUSED],
                len: 2,
            },
            [a, b, c] => Operands {
                list: [*a, *b, *c, UNUSED],
                len: 3,
            },
            _ => Operands {
                list: [list[0], list[1], list[2], list[3]],
                len: 4,
            },
        }
    }

    /// Returns the operand of a number below 4; after the last one the number 0.
    #[inline]
    pub fn at(&self, index: usize) -> &Operand
        requires { index < 4 }
        ensures { result.now ≡ slice_index_or self.now index (operand.Number 0) }
    {
        &self.list[index]
    }

    /// Returns the operands.
    pub fn as_slice(&self) -> &[Operand]
        ensures value { result.now ≡ self.now }
        ensures room { length result.now ≤ 4 }
    {
        &self.list[..self.len]
    }

    /// Returns the list with one operand more. There are at most 3 before.
    pub fn with(self, operand: Operand) -> Operands
        requires { length self < 4 }
        ensures { result ≡ self ++ operand ∷ [] }
    {
        let mut more = self;
        more.push(operand);
        more
    }

    /// Appends an operand. There are at most 3 before.
    pub fn push(&mut self, operand: Operand)
        requires { length self.old < 4 }
        ensures { self.new ≡ self.old ++ operand ∷ [] }
    {
        self.list[self.len] = operand;
        self.len += 1;
    }
}
