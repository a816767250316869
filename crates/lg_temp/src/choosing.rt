// The choice of registers for a node's temporaries.

ghost use Rattle.std.specs.Prelude.{◌≡◌, ◌+◌, ◌≤◌, Some, length};
ghost use Rattle.lg_base.specs.Conventions.{argument_registers};
ghost use Rattle.lg_live.specs.RegSets.{has};
ghost use Rattle.lg_temp.specs.Chosen.{order, stands_in, staged_in, is_named, taken_by, is_chosen, spills, around, choices_of};

use crate::abi::Abi;
use crate::choice::{Choice, Choices, Need, Needs, Staged};
use lg_base::Target;
use lg_live::{RegSet, reads, writes};
use lg_op::{Node, Reg};
use lg_va::argument_registers;

// Returns the order in which registers are tried.
fn order(target: Target) -> &'static [u8]
    ensures { result.now ≡ order target }
{
    match target {
        Target::X86_64 => &[0, 10, 11, 9, 8, 1, 2, 6, 7, 3, 13, 14],
        Target::Aarch64 => &[9, 10, 11, 7, 6, 5, 4, 3, 2, 1, 0, 19, 20, 21],
        Target::Riscv64 => &[5, 6, 7, 17, 16, 15, 14, 13, 12, 11, 10, 9, 18, 19],
    }
}

// Returns whether a register corresponds to one of a set.
fn stands_in(target: Target, set: RegSet, reg: u8) -> bool
    ensures { result ≡ stands_in target (has set) reg }
{
    let abi = Abi::of(target);
    set.has(Reg::R0) && abi.portable(Reg::R0) == reg
        || set.has(Reg::R1) && abi.portable(Reg::R1) == reg
        || set.has(Reg::R2) && abi.portable(Reg::R2) == reg
        || set.has(Reg::V0) && abi.portable(Reg::V0) == reg
        || set.has(Reg::V1) && abi.portable(Reg::V1) == reg
        || set.has(Reg::V2) && abi.portable(Reg::V2) == reg
}

// Returns whether a register is that of an argument of the set.
fn staged_in(registers: &[u8], arguments: &[bool], reg: u8) -> bool
    ensures { result ≡ staged_in registers.now arguments.now reg }
{
    match registers {
        [] => false,
        [register, registers @ ..] => match arguments {
            [] => false,
            [staged, arguments @ ..] => {
                *staged && *register == reg || staged_in(registers, arguments, reg)
            }
        },
    }
}

// Returns whether a need names a register.
fn is_named(needs: &[Need], reg: u8) -> bool
    ensures { result ≡ is_named needs.now reg }
{
    match needs {
        [] => false,
        [Need::Only(named), needs @ ..] => *named == reg || is_named(needs, reg),
        [Need::Any, needs @ ..] => is_named(needs, reg),
    }
}

impl Choice {
    /// Returns the register that is taken.
    pub fn register(self) -> u8
        ensures { result ≡ taken_by self }
    {
        match self {
            Choice::Free(reg) | Choice::Own(reg) | Choice::Spill { reg, .. } => reg,
        }
    }
}

// Returns whether a register is chosen already.
fn is_chosen(choices: &[Choice], reg: u8) -> bool
    ensures { result ≡ is_chosen choices.now reg }
{
    match choices {
        [] => false,
        [choice, choices @ ..] => choice.register() == reg || is_chosen(choices, reg),
    }
}

// Returns how many choices are saved.
fn spills(choices: &[Choice]) -> u32
    requires { length choices.now ≤ 3 }
    ensures { result ≡ spills choices.now }
{
    match choices {
        [] => 0,
        [Choice::Spill { .. }, choices @ ..] => spills(choices) + 1,
        [_, choices @ ..] => spills(choices),
    }
}

// Where temporaries are chosen.
#[derive(Drop)]
struct Around {
    target: Target,
    reads: RegSet,
    writes: RegSet,
    live: RegSet,
    staged: Staged,
}

impl Around {
    ghost use Rattle.lg_temp.specs.Arounds.{seen};
    ghost use Rattle.lg_temp.specs.Chosen.{is_own, is_busy, is_barred, first_free, first_saved, pick_any, pick_only, pick, chosen};

    // Returns whether the node reads or writes a register.
    fn is_own(&self, reg: u8) -> bool
        ensures { result ≡ is_own (seen self.now) reg }
    {
        stands_in(self.target, self.reads, reg) || stands_in(self.target, self.writes, reg)
    }

    // Returns whether a register holds what is needed after the node.
    fn is_busy(&self, reg: u8) -> bool
        ensures { result ≡ is_busy (seen self.now) reg }
    {
        stands_in(self.target, self.live, reg)
            || staged_in(argument_registers(self.target), &self.staged.arguments, reg)
    }

    // Returns whether a need that names no register may not take a register.
    fn is_barred(&self, needs: &[Need], choices: &[Choice], reg: u8) -> bool
        ensures { result ≡ is_barred (seen self.now) needs.now choices.now reg }
    {
        self.is_own(reg) || is_named(needs, reg) || is_chosen(choices, reg)
    }

    // Returns the first register that is not barred.
    fn first_saved(&self, needs: &[Need], choices: &[Choice], registers: &[u8]) -> Option<u8>
        ensures { result ≡ first_saved (seen self.now) needs.now choices.now registers.now }
    {
        match registers {
            [] => None,
            [register, registers @ ..] => {
                if self.is_barred(needs, choices, *register) {
                    self.first_saved(needs, choices, registers)
                } else {
                    Some(*register)
                }
            }
        }
    }

    // Returns the first register that is neither barred nor busy.
    fn first_free(&self, needs: &[Need], choices: &[Choice], registers: &[u8]) -> Option<u8>
        ensures { result ≡ first_free (seen self.now) needs.now choices.now registers.now }
    {
        match registers {
            [] => None,
            [register, registers @ ..] => {
                if self.is_barred(needs, choices, *register) || self.is_busy(*register) {
                    self.first_free(needs, choices, registers)
                } else {
                    Some(*register)
                }
            }
        }
    }

    // Returns the choice for a need that names no register. One can always be saved.
    fn pick_any(&self, needs: &[Need], choices: &[Choice]) -> Choice
        requires needs { length needs.now ≤ 3 }
        requires room { length choices.now ≤ 2 }
        ensures { pick_any (seen self.now) needs.now choices.now ≡ Some result }
    {
        let registers = order(self.target);
        match self.first_free(needs, choices, registers) {
            Some(register) => Choice::Free(register),
            None => match self.first_saved(needs, choices, registers) {
                Some(reg) => Choice::Spill {
                    reg,
                    slot: spills(choices),
                },
                None => unreachable!(),
            },
        }
    }

    // Returns the choice for a need that names a register.
    fn pick_only(&self, choices: &[Choice], reg: u8) -> Choice
        requires { length choices.now ≤ 3 }
        ensures { result ≡ pick_only (seen self.now) choices.now reg }
    {
        if stands_in(self.target, self.writes, reg) {
            Choice::Own(reg)
        } else if stands_in(self.target, self.reads, reg) || self.is_busy(reg) {
            Choice::Spill {
                reg,
                slot: spills(choices),
            }
        } else {
            Choice::Free(reg)
        }
    }

    // Returns the choice for a need.
    fn pick(&self, needs: &[Need], choices: &[Choice], need: Need) -> Choice
        requires needs { length needs.now ≤ 3 }
        requires room { length choices.now ≤ 2 }
        ensures { pick (seen self.now) needs.now choices.now need ≡ Some result }
    {
        match need {
            Need::Any => self.pick_any(needs, choices),
            Need::Only(register) => self.pick_only(choices, register),
        }
    }

    // Returns the choices for the needs that are left, after those that are made.
    fn chosen(&self, needs: &[Need], left: &[Need], choices: Choices) -> Choices
        requires needs { length needs.now ≤ 3 }
        requires room { length left.now + length choices ≤ 3 }
        ensures { chosen (seen self.now) needs.now left.now choices ≡ Some result }
    {
        match left {
            [] => choices,
            [need, left @ ..] => {
                let choice = self.pick(needs, choices.as_slice(), *need);
                self.chosen(needs, left, choices.with(choice))
            }
        }
    }
}

/// Returns the registers that the temporaries of a node take, one for each need. For `Any` it is the first in the order R0, R1, R2, the
/// argument registers from the last to the first, V0, V1, V2 that the node neither reads nor writes, that isn't live after it,
/// staged, named by a need or chosen already; only where there is none, one is saved. For `Only` the register is the node's
/// own where the node writes it, free where the node doesn't read it and it is neither live after it nor staged, and else
/// saved. Spill slots are 0, 1, 2 in order.
pub fn choose(
    target: Target,
    needs: &Needs,
    node: &Node,
    live_after: RegSet,
    staged: Staged,
) -> Choices
    ensures { choices_of (around target node.now (has live_after) staged.arguments) needs.now ≡ Some result }
{
    let around = Around {
        target,
        reads: reads(node),
        writes: writes(node),
        live: live_after,
        staged,
    };
    around.chosen(needs.as_slice(), needs.as_slice(), Choices::new())
}
