// Why a step is undefined.

ghost use Rattle.std.specs.Prelude.{◌≡◌};
ghost use Rattle.lg_meaning.specs.Reasons.{item_of};

use lg_base::HostName;
use lg_node::{Function, Reg};

/// What a node calls.
#[derive(Clone, Copy)]
pub enum Called {
    /// A host function.
    OfHost(HostName),
    /// A function of the text.
    OfText(Function),
}

/// A row of the table of undefined steps that holds of a state at its node, with its values.
#[derive(Clone, Copy)]
pub enum Reason {
    /// 1: a register that is read is undefined.
    Unset(Reg),
    /// 2: `addx` or `subx` finds no carry of its kind.
    NoCarry,
    /// 4: a divisor is 0, or the least number is divided by -1 with sign.
    NoQuotient {
        /// The word that is divided.
        first: u64,
        /// The divisor.
        second: u64,
    },
    /// 6: an access leaves the memory that may be used.
    Outside {
        /// How many bytes it has: 1, 2, 4 or 8.
        width: u32,
        /// The address of the first one.
        address: u64,
    },
    /// 6: a byte is loaded that was never written.
    Unwritten {
        /// How many bytes are loaded: 1, 2, 4 or 8.
        width: u32,
        /// The address of the first one.
        address: u64,
    },
    /// 7: `jmpr` goes to this word, and to no label of its function whose address was taken.
    NoLabel(u64),
    /// 8: a call goes to this word, and to no label at a `prolog` and to no host function.
    NoFunction(u64),
    /// 9: a call finds no room for a frame of this many bytes.
    NoRoom(u32),
    /// 10: a `retval` is not directly after a call that gave a result.
    NoResult,
    /// 11: a `getarg` wants the argument of this number, counted from 0, which was not pushed.
    NoArgument(u32),
    /// 12: this host function is called with arguments that it does not allow.
    NotAllowed(HostName),
    /// 13: a `va_arg` wants the argument of this number, counted from 0, which was not pushed.
    NoVariable(u64),
}

impl Reason {
    /// Returns the number of the row, 1 to 13; 3 and 5 are of no step.
    pub fn item(self) -> u32
        ensures { result ≡ item_of self }
    {
        match self {
            Reason::Unset(_) => 1,
            Reason::NoCarry => 2,
            Reason::NoQuotient { .. } => 4,
            Reason::Outside { .. } | Reason::Unwritten { .. } => 6,
            Reason::NoLabel(_) => 7,
            Reason::NoFunction(_) => 8,
            Reason::NoRoom(_) => 9,
            Reason::NoResult => 10,
            Reason::NoArgument(_) => 11,
            Reason::NotAllowed(_) => 12,
            Reason::NoVariable(_) => 13,
        }
    }
}
