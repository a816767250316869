// Which numbers registers are known to hold.

ghost use Rattle.std.specs.Prelude.{◌≡◌, if◌then◌else◌, not, true, false, None, Some};
ghost use Rattle.lg_op.specs.declared.operand.Reg.{Reg};
ghost use Rattle.lg_op.specs.declared.operand.Reg.TheVariants.{R0, R1, R2, V0, V1, V2};
ghost use Rattle.lg_live.specs.Registers.{is_same};
ghost use Rattle.lg_live.specs.RegSets.{has};
ghost use Rattle.lg_dead.specs.Known.{is_movi, number_in, known_after, moved_number, or_else};
ghost use Rattle.lg_dead.specs.Tables.{known_of, moved_to};

use lg_live::{RegSet, writes};
use lg_op::{Node, Op, Operand, PlainOp, Reg};

/// Of each register the number that it is known to hold.
#[derive(Clone, Copy)]
pub struct Known {
    // False only where nothing is known, whatever the numbers are.
    some: bool,
    r0: Option<u64>,
    r1: Option<u64>,
    r2: Option<u64>,
    v0: Option<u64>,
    v1: Option<u64>,
    v2: Option<u64>,
}

// A number that is moved into a register.
#[derive(Clone, Copy)]
struct Moved {
    into: Reg,
    number: u64,
}

// Returns whether an operation moves an immediate.
fn is_movi(op: Op) -> bool
    ensures { result ≡ is_movi op }
{
    matches!(op, Op::Plain(PlainOp::Movi))
}

// The number that a node moves into a register.
fn move_of(node: &Node) -> Option<Moved>
    ensures { (r : Reg) → moved_to result r ≡ moved_number node.now.op node.now.operands r }
{
    if !is_movi(node.op) {
        return None;
    }
    match node.operands.as_slice() {
        [Operand::Reg(into), Operand::Number(number)] => Some(Moved {
            into: *into,
            number: *number,
        }),
        _ => None,
    }
}

// A number, unless it is gone.
fn unless(gone: bool, number: Option<u64>) -> Option<u64>
    ensures { result ≡ (if gone then None else number) }
{
    if gone { None } else { number }
}

impl Known {
    /// Nothing is known.
    pub fn none() -> Known
        ensures { (r : Reg) → known_of result r ≡ None }
    {
        Known {
            some: false,
            r0: None,
            r1: None,
            r2: None,
            v0: None,
            v1: None,
            v2: None,
        }
    }

    /// Returns whether nothing is known.
    pub fn is_none(&self) -> bool
        ensures { result ≡ not self.now.some }
    {
        !self.some
    }

    /// Returns the number of a register. FP is never known.
    pub fn of(&self, register: Reg) -> Option<u64>
        ensures { result ≡ known_of self.now register }
    {
        if !self.some {
            return None;
        }
        match register {
            Reg::R0 => self.r0,
            Reg::R1 => self.r1,
            Reg::R2 => self.r2,
            Reg::V0 => self.v0,
            Reg::V1 => self.v1,
            Reg::V2 => self.v2,
            Reg::Fp => None,
        }
    }

    /// Returns the number that an operand is known to give.
    pub fn number_in(&self, operand: Operand) -> Option<u64>
        ensures { result ≡ number_in (known_of self.now) operand }
    {
        match operand {
            Operand::Reg(register) => self.of(register),
            Operand::Number(number) => Some(number),
            _ => None,
        }
    }

    // Makes room for numbers.
    fn begin(&mut self)
        ensures some { self.new.some ≡ true }
        ensures r0 { known_of self.new R0 ≡ known_of self.old R0 }
        ensures r1 { known_of self.new R1 ≡ known_of self.old R1 }
        ensures r2 { known_of self.new R2 ≡ known_of self.old R2 }
        ensures v0 { known_of self.new V0 ≡ known_of self.old V0 }
        ensures v1 { known_of self.new V1 ≡ known_of self.old V1 }
        ensures v2 { known_of self.new V2 ≡ known_of self.old V2 }
    {
        if !self.some {
            *self = Known {
                some: true,
                r0: None,
                r1: None,
                r2: None,
                v0: None,
                v1: None,
                v2: None,
            };
        }
    }

    // Forgets the numbers of some registers.
    fn forget(&mut self, written: RegSet)
        requires { self.old.some ≡ true }
        ensures some { self.new.some ≡ true }
        ensures r0 { known_of self.new R0 ≡ (if has written R0 then None else known_of self.old R0) }
        ensures r1 { known_of self.new R1 ≡ (if has written R1 then None else known_of self.old R1) }
        ensures r2 { known_of self.new R2 ≡ (if has written R2 then None else known_of self.old R2) }
        ensures v0 { known_of self.new V0 ≡ (if has written V0 then None else known_of self.old V0) }
        ensures v1 { known_of self.new V1 ≡ (if has written V1 then None else known_of self.old V1) }
        ensures v2 { known_of self.new V2 ≡ (if has written V2 then None else known_of self.old V2) }
    {
        self.r0 = unless(written.has(Reg::R0), self.r0);
        self.r1 = unless(written.has(Reg::R1), self.r1);
        self.r2 = unless(written.has(Reg::R2), self.r2);
        self.v0 = unless(written.has(Reg::V0), self.v0);
        self.v1 = unless(written.has(Reg::V1), self.v1);
        self.v2 = unless(written.has(Reg::V2), self.v2);
    }

    // Notes the number of a register.
    fn set(&mut self, into: Reg, number: u64)
        requires { self.old.some ≡ true }
        ensures r0 { known_of self.new R0 ≡ (if is_same into R0 then Some number else known_of self.old R0) }
        ensures r1 { known_of self.new R1 ≡ (if is_same into R1 then Some number else known_of self.old R1) }
        ensures r2 { known_of self.new R2 ≡ (if is_same into R2 then Some number else known_of self.old R2) }
        ensures v0 { known_of self.new V0 ≡ (if is_same into V0 then Some number else known_of self.old V0) }
        ensures v1 { known_of self.new V1 ≡ (if is_same into V1 then Some number else known_of self.old V1) }
        ensures v2 { known_of self.new V2 ≡ (if is_same into V2 then Some number else known_of self.old V2) }
    {
        match into {
            Reg::R0 => self.r0 = Some(number),
            Reg::R1 => self.r1 = Some(number),
            Reg::R2 => self.r2 = Some(number),
            Reg::V0 => self.v0 = Some(number),
            Reg::V1 => self.v1 = Some(number),
            Reg::V2 => self.v2 = Some(number),
            Reg::Fp => {}
        }
    }

    // Notes the number that a node moves into a register.
    #[tactic(auto, using(crate::proofs::NoneLemmas::moved_in))]
    fn note(&mut self, node: &Node)
        requires { self.old.some ≡ true }
        ensures r0 { known_of self.new R0 ≡ or_else (moved_number node.now.op node.now.operands R0) (known_of self.old R0) }
        ensures r1 { known_of self.new R1 ≡ or_else (moved_number node.now.op node.now.operands R1) (known_of self.old R1) }
        ensures r2 { known_of self.new R2 ≡ or_else (moved_number node.now.op node.now.operands R2) (known_of self.old R2) }
        ensures v0 { known_of self.new V0 ≡ or_else (moved_number node.now.op node.now.operands V0) (known_of self.old V0) }
        ensures v1 { known_of self.new V1 ≡ or_else (moved_number node.now.op node.now.operands V1) (known_of self.old V1) }
        ensures v2 { known_of self.new V2 ≡ or_else (moved_number node.now.op node.now.operands V2) (known_of self.old V2) }
    {
        match move_of(node) {
            Some(moved) => self.set(moved.into, moved.number),
            None => {}
        }
    }

    // Continues after a node, register by register.
    #[inline(never)]
    fn pass_each(&mut self, node: &Node)
        ensures r0 { known_of self.new R0 ≡ known_after (known_of self.old) node.now R0 }
        ensures r1 { known_of self.new R1 ≡ known_after (known_of self.old) node.now R1 }
        ensures r2 { known_of self.new R2 ≡ known_after (known_of self.old) node.now R2 }
        ensures v0 { known_of self.new V0 ≡ known_after (known_of self.old) node.now V0 }
        ensures v1 { known_of self.new V1 ≡ known_after (known_of self.old) node.now V1 }
        ensures v2 { known_of self.new V2 ≡ known_after (known_of self.old) node.now V2 }
    {
        self.begin();
        self.forget(writes(node));
        self.note(node);
    }

    // Returns whether a node may change what is known: where nothing is, only a `movi` does.
    #[inline(always)]
    #[tactic(auto, using(crate::proofs::NoneLemmas::none_behind))]
    fn may_change(&self, node: &Node) -> bool
        ensures { result ≡ false → (r : Reg) → known_of self.now r ≡ known_after (known_of self.now) node.now r }
    {
        self.some || is_movi(node.op)
    }

    /// Continues after a node of the straight run: where nothing was known, only a `movi` makes something known.
    #[inline(always)]
    pub fn pass(&mut self, node: &Node)
        ensures r0 { known_of self.new R0 ≡ known_after (known_of self.old) node.now R0 }
        ensures r1 { known_of self.new R1 ≡ known_after (known_of self.old) node.now R1 }
        ensures r2 { known_of self.new R2 ≡ known_after (known_of self.old) node.now R2 }
        ensures v0 { known_of self.new V0 ≡ known_after (known_of self.old) node.now V0 }
        ensures v1 { known_of self.new V1 ≡ known_after (known_of self.old) node.now V1 }
        ensures v2 { known_of self.new V2 ≡ known_after (known_of self.old) node.now V2 }
    {
        if self.may_change(node) {
            self.pass_each(node);
        }
    }
}
