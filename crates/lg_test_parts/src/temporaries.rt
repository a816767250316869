// Choices for a node with all registers live, and a convention.

ghost use Rattle.std.specs.Prelude.{◌≤◌, length};

use lg_base::Target;
use lg_live::RegSet;
use lg_op::{Node, Op, Operand, Operands, Reg};
use lg_temp::{Abi, ArgPlace, Choice, Choices, Need, Needs, Staged, choose};

// `addi %r0 %r0 4096`
fn node() -> Option<Node> {
    let r0 = Operand::Reg(Reg::R0);
    Some(Node {
        op: Op::by_name(b"addi")?,
        operands: Operands::of(&[r0, r0, Operand::Number(4096)]),
        line: 1,
    })
}

// the choices for one need, or two, where all registers are live and this many arguments are staged
fn choices(target: Target, needs: &[Need], staged: u32) -> Option<(Choice, Option<Choice>)>
    requires { length needs.now ≤ 3 }
{
    let mut live = RegSet::none();
    for reg in [Reg::R0, Reg::R1, Reg::R2, Reg::V0, Reg::V1, Reg::V2] {
        live = live.with(reg);
    }
    let mut set = Staged::none();
    for index in 0..staged.min(16) {
        set = set.with(index);
    }
    let choices = choose(target, &Needs::of(needs), &node()?, live, set);
    match choices.as_slice() {
        [choice] => Some((*choice, None)),
        [choice, second, ..] => Some((*choice, Some(*second))),
        [] => None,
    }
}

// Needs on a target with this many staged arguments, and what is chosen for the first, and for the second, if there is one.
type Chosen = (Target, &'static [Need], u32, (Choice, Option<Choice>));

const CHOSEN: &[Chosen] = &[
    (Target::Riscv64, &[Need::Any], 0, (Choice::Free(17), None)),
    (Target::X86_64, &[Need::Any], 0, (Choice::Free(9), None)),
    (
        Target::Aarch64,
        &[Need::Any],
        8,
        (Choice::Spill { reg: 10, slot: 0 }, None),
    ),
    // rax is the node's own, and rcx is staged
    (
        Target::X86_64,
        &[Need::Only(0), Need::Only(1)],
        4,
        (Choice::Own(0), Some(Choice::Spill { reg: 1, slot: 0 })),
    ),
    (
        Target::X86_64,
        &[Need::Any, Need::Only(9)],
        0,
        (Choice::Free(8), Some(Choice::Free(9))),
    ),
];

fn is_chosen(chosen: &Chosen) -> bool {
    let (target, needs, staged, wanted) = *chosen;
    needs.len() <= 3 && choices(target, needs, staged) == Some(wanted)
}

fn are_chosen() -> bool {
    for chosen in CHOSEN {
        if !is_chosen(chosen) {
            return false;
        }
    }
    true
}

fn are_choices_held() -> bool {
    let list = [Choice::Free(9), Choice::Own(0)];
    let staged = Staged::of(&[0, 5]);
    let is_staged = staged.has(5) && !staged.has(1) && staged.len() == 2;
    is_staged && Choices::of(&list).as_slice() == list.as_slice()
}

fn is_convention_known() -> bool {
    let abi = Abi::of(Target::X86_64);
    let registers = (abi.result(), abi.portable(Reg::V0), abi.portable(Reg::Fp));
    registers == (0, 3, 5)
        && abi.argument(5) == ArgPlace::Reg(9)
        && abi.argument(6) == ArgPlace::Stack(0)
        && abi.kept(12)
        && !abi.kept(11)
}

#[test]
fn chooses_in_the_order(rt: HostRuntime) {
    assert!(rt; are_chosen() && are_choices_held() && is_convention_known());
}
