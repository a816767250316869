// Branches on a condition.

ghost use Rattle.std.specs.Prelude.{◌≡◌, ◌≤◌, ◌<◌, [], ◌∷◌, ◌++◌};
ghost use Rattle.lg_selx.specs.Control.Branches.{comparison, is_difference, taken, far_number, pointer_comparison, wide_comparison, number_comparison, before_branch};
ghost use Rattle.lg_selx.specs.Control.ControlItems.{jump_kind, branch_items};
ghost use Rattle.lg_selx_values.specs.Items.{words_in, ones};
ghost use Rattle.lg_selx_values.specs.declared.items.Item.TheVariants.{Jump};

use crate::control::pointers::pointer_again;
use lg_base::word::is_half;
use lg_op::{Condition, Label, Operand, Reg};
use lg_sel::{Items, Reach};
use lg_selx_values::{FRAME_POINTER, Item, JumpKind, half_number, put_number, register_of, row};
use lg_x86::{Cond, ImmOp, Instr, RmRegOp};

// What sets the flags: the difference of two words, and for bits their conjunction.
fn comparison(condition: Condition) -> RmRegOp
    ensures { result ≡ comparison condition }
{
    match condition {
        Condition::Ms | Condition::Mc => RmRegOp::Test,
        _ => RmRegOp::Cmp,
    }
}

// Returns whether a difference is asked for.
fn is_difference(condition: Condition) -> bool
    ensures { result ≡ is_difference condition }
{
    match condition {
        Condition::Ms | Condition::Mc => false,
        _ => true,
    }
}

// What then holds of the flags where the condition holds.
fn taken(condition: Condition) -> Cond
    ensures { result ≡ taken condition }
{
    match condition {
        Condition::Lt => Cond::Less,
        Condition::LtU => Cond::Below,
        Condition::Le => Cond::LessOrEqual,
        Condition::LeU => Cond::BelowOrEqual,
        Condition::Ge => Cond::GreaterOrEqual,
        Condition::GeU => Cond::AboveOrEqual,
        Condition::Gt => Cond::Greater,
        Condition::GtU => Cond::Above,
        Condition::Eq | Condition::Mc => Cond::Equal,
        Condition::Ne | Condition::Ms => Cond::NotEqual,
    }
}

// Returns the row of a register and a number.
fn with_number(op: ImmOp, rm: u8, imm: i32) -> Instr
    ensures { result ≡ Instr.Imm op rm imm }
{
    Instr::Imm { op, rm, imm }
}

// FP lies on the same side of a number of more than 32 bits as of this one.
fn far_number(value: u64) -> i32
    ensures { result ≡ far_number value }
{
    if value < 1 << 63 { i32::MAX } else { i32::MIN }
}

// Puts a comparison of FP with a number of more than 32 bits, and for bits with any.
#[tactic(auto, using(lg_selx_values::proofs::ItemLemmas::words_append))]
fn put_pointer_comparison(condition: Condition, frame: u32, value: u64, items: &mut Items<Item>)
    requires empty { items.old ≡ [] }
    requires some { 272 ≤ frame }
    requires small { frame < 0x4000_0000 }
    ensures items { items.new ≡ ones (pointer_comparison condition frame value) }
    ensures few { words_in items.new ≤ 2 }
{
    if is_difference(condition) {
        items.one(with_number(ImmOp::Cmpi, FRAME_POINTER, far_number(value)));
    } else {
        let bits = (value % (1 << 30)) as i32;
        items.one(with_number(ImmOp::Andi, FRAME_POINTER, bits));
        items.one(pointer_again(frame));
    }
}

// Puts a comparison with a number of more than 32 bits, and for bits with any: it is loaded into FP, where FP is not what is compared.
#[tactic(auto, using(lg_selx_values::proofs::ItemLemmas::words_append))]
fn put_wide_comparison(condition: Condition, frame: u32, a: u8, value: u64, items: &mut Items<Item>)
    requires empty { items.old ≡ [] }
    requires some { 272 ≤ frame }
    requires small { frame < 0x4000_0000 }
    ensures items { items.new ≡ ones (wide_comparison condition frame a value) }
    ensures few { words_in items.new ≤ 3 }
{
    if a == FRAME_POINTER {
        put_pointer_comparison(condition, frame, value, items);
    } else {
        put_number(FRAME_POINTER, value, items);
        items.one(row(comparison(condition), a, FRAME_POINTER));
        items.one(pointer_again(frame));
    }
}

// Puts a comparison with a number.
fn put_number_comparison(
    condition: Condition,
    frame: u32,
    a: u8,
    value: u64,
    items: &mut Items<Item>,
)
    requires empty { items.old ≡ [] }
    requires some { 272 ≤ frame }
    requires small { frame < 0x4000_0000 }
    ensures items { items.new ≡ ones (number_comparison condition frame a value) }
    ensures few { words_in items.new ≤ 3 }
{
    if is_difference(condition) && is_half(value) {
        items.one(with_number(ImmOp::Cmpi, a, half_number(value)));
    } else {
        put_wide_comparison(condition, frame, a, value, items);
    }
}

// Puts what is before the jump of a branch.
fn put_before(
    condition: Condition,
    frame: u32,
    first: Reg,
    second: Operand,
    items: &mut Items<Item>,
)
    requires empty { items.old ≡ [] }
    requires some { 272 ≤ frame }
    requires small { frame < 0x4000_0000 }
    ensures items { items.new ≡ ones (before_branch frame condition first second) }
    ensures few { words_in items.new ≤ 3 }
{
    let a = register_of(first);
    match second {
        Operand::Reg(b) => items.one(row(comparison(condition), a, register_of(b))),
        Operand::Number(value) => put_number_comparison(condition, frame, a, value, items),
        Operand::Host(name) => put_number_comparison(condition, frame, a, name.address(), items),
        _ => {}
    }
}

// How a jump where a condition holds is spelled.
fn jump_kind(reach: Reach, cond: Cond) -> JumpKind
    ensures { result ≡ jump_kind reach cond }
{
    match reach {
        Reach::Short => JumpKind::ShortIf(cond),
        Reach::Near | Reach::Far => JumpKind::NearIf(cond),
    }
}

// Appends a jump to a label where a condition holds.
pub(crate) fn put_jump_if(reach: Reach, cond: Cond, label: Label, items: &mut Items<Item>)
    requires { words_in items.old ≤ 3 }
    ensures { items.new ≡ items.old ++ Jump (jump_kind reach cond) label.0 ∷ [] }
{
    items.push(Item::Jump {
        kind: jump_kind(reach, cond),
        label: label.0,
    });
}

// Appends the items of a branch to none.
pub(crate) fn put_branch(
    reach: Reach,
    condition: Condition,
    frame: u32,
    operands: &[Operand],
    items: &mut Items<Item>,
)
    requires empty { items.old ≡ [] }
    requires some { 272 ≤ frame }
    requires small { frame < 0x4000_0000 }
    ensures { items.new ≡ branch_items reach frame condition operands.now }
{
    match operands {
        [Operand::Label(label), Operand::Reg(first), second] => {
            put_before(condition, frame, *first, *second, items);
            put_jump_if(reach, taken(condition), *label, items);
        }
        _ => {}
    }
}
