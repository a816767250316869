// The state of the portable machine, and how it goes on.

ghost use Rattle.std.specs.Prelude.{◌≡◌, ◌<◌, ◌≤◌, ◌-◌, ◌+◌, ◌^◌, ◌∷◌, ◌++◌, [], ℕ, length, slice_index_or, take, true, Some, None};
ghost use Rattle.lg_op.specs.Operands.{number_of};
ghost use Rattle.lg_meaning.specs.States.{value, reg, named, is_open};
ghost use Rattle.lg_meaning.specs.Steps.{on, on_with_carry, to, with_reg, operand_at, node_of_label, node_in, slot};
ghost use Rattle.lg_meaning.specs.Starts.{IsHeapMark};
ghost use Rattle.lg_mean.specs.Machines.{state_of, regs_of};
ghost use Rattle.lg_mean.specs.Says.{IsKnown};

use crate::frame::KeptFrame;
use lg_cells::CellMemory;
use lg_host::HeapMark;
use lg_node::{Node, NodeList, Operand, Place, Reg};
use lg_op::carry::Carry;
use std::marker::Model;

/// The state of the portable machine.
pub(crate) struct Machine {
    pub(crate) at: u32,
    pub(crate) registers: [Option<u64>; 7],
    pub(crate) carry: Carry,
    pub(crate) answer: Option<u64>,
    pub(crate) staged: [u64; 16],
    pub(crate) count: u32,
    pub(crate) variadic: Option<bool>,
    pub(crate) top: KeptFrame,
    pub(crate) below: Vec<KeptFrame>,
    pub(crate) memory: CellMemory,
    pub(crate) heap: HeapMark,
    pub(crate) data_size: u64,
    pub(crate) args_size: u64,
}

impl Model for Machine {
    ghost use Rattle.lg_mean.specs.Machines.{MachineState, view_of, IsMachine};

    ghost Value = { MachineState };

    ghost view = { view_of };

    ghost invariant = { IsMachine };
}

// Written out, and not derived, so that an owner's proof has one call in the place of the drops of all parts.
impl Drop for Machine {
    fn drop(self) {
        let Machine {
            at: _,
            registers: _,
            carry: _,
            answer: _,
            staged: _,
            count: _,
            variadic: _,
            top: _,
            below: _below,
            memory: _memory,
            heap: _heap,
            data_size: _,
            args_size: _,
        } = self;
    }
}

// Returns the number of a register.
pub(crate) fn number_of(reg: Reg) -> usize
    ensures value { result ≡ number_of reg }
    ensures bound { result < 7 }
{
    match reg {
        Reg::R0 => 0,
        Reg::R1 => 1,
        Reg::R2 => 2,
        Reg::V0 => 3,
        Reg::V1 => 4,
        Reg::V2 => 5,
        Reg::Fp => 6,
    }
}

// Returns the number of the register that an operand names.
fn named(operand: Operand) -> usize
    ensures value { result ≡ named operand }
    ensures bound { result < 7 }
{
    match operand {
        Operand::Reg(reg) => number_of(reg),
        _ => 6,
    }
}

// An operand of a node. After the last one it is the number 0.
#[inline]
pub(crate) fn operand(node: &Node, index: usize) -> Operand
    requires { index < 4 }
    ensures { result ≡ operand_at node.now index }
{
    *node.operands.at(index)
}

// Returns the number of the `arg` or `allocai` that an operand names.
pub(crate) fn slot(operand: Operand) -> u32
    ensures { result ≡ slot operand }
{
    match operand {
        Operand::Slot(number) => number,
        _ => 0,
    }
}

// Returns the node at which the label of an operand is bound.
pub(crate) fn node_of_label(nodes: &NodeList, operand: Operand) -> u32
    requires { IsKnown (length nodes.now.words) operand }
    ensures { result ≡ node_of_label nodes.now.places operand }
{
    match operand {
        Operand::Label(label) => match nodes.place(label) {
            Some(Place::Node(node)) => node,
            _ => 0,
        },
        _ => 0,
    }
}

impl Machine {
    // Returns the node that comes next. Each byte of a machine lies in a part, and its heap mark in the heap.
    pub(crate) fn place(&self) -> u32
        ensures value { result ≡ self.now.at }
        ensures memory { (a b : ℕ) → (state_of self.now).mem a ≡ Some b → is_open (state_of self.now) a ≡ true }
        ensures heap { IsHeapMark (state_of self.now).mark }
    {
        self.at
    }

    // Returns how many arguments are pushed.
    pub(crate) fn pushed(&self) -> usize
        ensures value { result ≡ self.now.count }
        ensures pushed { length (state_of self.now).pushed ≡ result }
    {
        self.staged[..self.count as usize].len()
    }

    // What a register holds.
    pub(crate) fn reg(&self, register: Reg) -> Option<u64>
        ensures { result ≡ reg (state_of self.now) register }
    {
        match register {
            Reg::Fp => Some(self.top.sp - 16),
            Reg::R0 | Reg::R1 | Reg::R2 | Reg::V0 | Reg::V1 | Reg::V2 => self.registers[number_of(
                register,
            )],
        }
    }

    // Returns the word that an operand gives.
    pub(crate) fn value(&self, labels: &[u64], operand: Operand) -> Option<u64>
        requires { IsKnown (length labels.now) operand }
        ensures { result ≡ value labels.now (state_of self.now) operand }
    {
        match operand {
            Operand::Reg(reg) => self.reg(reg),
            Operand::Number(number) => Some(number),
            Operand::Label(label) => Some(labels[label.0 as usize]),
            Operand::Host(name) => Some(name.address()),
            Operand::Slot(_) => None,
        }
    }

    // Writes the register that an operand names.
    pub(crate) fn set(&mut self, operand: Operand, word: u64)
        ensures { state_of self.new ≡ with_reg (state_of self.old) operand word }
    {
        self.registers[named(operand)] = Some(word);
    }

    // Sets the carry.
    #[inline(always)]
    pub(crate) fn set_carry(&mut self, carry: Carry)
        ensures { state_of self.new ≡ record (state_of self.old) { carry = carry } }
    {
        self.carry = carry;
    }

    // Goes to a node.
    #[inline(always)]
    pub(crate) fn go_to(&mut self, node: u32)
        ensures { state_of self.new ≡ to (state_of self.old) node }
    {
        self.at = node;
        self.carry = Carry::Undefined;
        self.answer = None;
    }

    // Goes to the next node.
    #[inline(always)]
    pub(crate) fn go_on(&mut self)
        requires { self.old.at < 2 ^ 32 - 1 }
        ensures { state_of self.new ≡ on (state_of self.old) }
    {
        self.at += 1;
        self.carry = Carry::Undefined;
        self.answer = None;
    }

    // Goes to the next node, with the carry as it is.
    #[inline(always)]
    pub(crate) fn go_on_with_carry(&mut self)
        requires { self.old.at < 2 ^ 32 - 1 }
        ensures { state_of self.new ≡ on_with_carry (state_of self.old) }
    {
        self.at += 1;
        self.answer = None;
    }

    // Writes a register and goes to the next node.
    pub(crate) fn operate(&mut self, operand: Operand, word: u64)
        requires { self.old.at < 2 ^ 32 - 1 }
        ensures { state_of self.new ≡ on (with_reg (state_of self.old) operand word) }
    {
        self.set(operand, word);
        self.go_on();
    }

    // The same, with the carry as it is.
    pub(crate) fn operate_with_carry(&mut self, operand: Operand, word: u64)
        requires { self.old.at < 2 ^ 32 - 1 }
        ensures { state_of self.new ≡ on_with_carry (with_reg (state_of self.old) operand word) }
    {
        self.set(operand, word);
        self.go_on_with_carry();
    }
}
