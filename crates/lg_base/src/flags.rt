// The flags of the processors.

ghost use Rattle.std.specs.Prelude.{◌≡◌};
ghost use Rattle.lg_base.specs.Flags.{carry_of};

/// The flags of a processor: RV64 has none, those of AArch64 are always defined, and those of x86-64 may be undefined.
#[derive(Clone, Copy, Debug, PartialEq, Eq)]
pub enum Flags {
    /// No flags.
    NoFlags,
    /// The flags of AArch64: N, Z, C and V. `carry` of a difference is set where nothing was borrowed.
    Nzcv {
        negative: bool,
        zero: bool,
        carry: bool,
        overflow: bool,
    },
    /// The flags of x86-64: SF, ZF, CF and OF, None where the instruction left the flag undefined. `carry` of a difference is the borrow.
    Rflags {
        sign: Option<bool>,
        zero: Option<bool>,
        carry: Option<bool>,
        overflow: Option<bool>,
    },
}

impl Flags {
    /// Returns the carry, where there is one and it is defined.
    pub fn carry(self) -> Option<bool>
        ensures { result ≡ carry_of self }
    {
        match self {
            Flags::NoFlags => None,
            Flags::Nzcv { carry, .. } => Some(carry),
            Flags::Rflags { carry, .. } => carry,
        }
    }
}
