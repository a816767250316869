// Arithmetic, branches and jumps of the portable machine. Each method answers whether the step is defined.

ghost use Rattle.std.specs.Prelude.{◌≡◌, ◌<◌, ◌-◌, ◌^◌, ◌∷◌, [], ℕ, length, slice_get, IfSome, Bool, true, false, if◌then◌else◌};
ghost use Rattle.lg_op.specs.Operators.{binary_value, sets_carry};
ghost use Rattle.lg_meaning.specs.Steps.{binary_step, carry_step, goes_with_carry, wide_step, unary_step, movi_step, branch, branch_step, branch_sum_step, jump_step, retval_step, getarg_step, va_start_step, va_arg_step, va_end_step, quiet, on};
ghost use Rattle.lg_mean.specs.Machines.{state_of};
ghost use Rattle.lg_mean.specs.Programs.{text_of};
ghost use Rattle.lg_mean.specs.Says.{AreKnown, IsKnown, Does};

use crate::machine::{Machine, node_of_label, operand, slot};
use crate::program::Program;
use lg_node::{
    BinaryOp, BranchSumOp, Condition, Node, NodeList, Operand, UnaryOp, ValueType, WideOp,
};
use lg_op::carry::Carry;
use lg_op::operators;

impl Machine {
    // O1 = O2 op O3.
    fn binary(&mut self, op: BinaryOp, node: &Node, labels: &[u64]) -> bool
        requires room { self.old.at < 2 ^ 32 - 1 }
        requires known { AreKnown (length labels.now) node.now }
        ensures { Does (binary_step labels.now node.now (binary_value op) (state_of self.old)) (state_of self.old) result (state_of self.new) }
    {
        let Some(a) = self.value(labels, operand(node, 1)) else {
            return false;
        };
        let Some(b) = self.value(labels, operand(node, 2)) else {
            return false;
        };
        match operators::binary(op, a, b) {
            Some(word) => {
                self.operate(operand(node, 0), word);
                true
            }
            None => false,
        }
    }

    // Writes a register and the carry, and goes to the next node.
    fn operate_and_set_carry(&mut self, operand: Operand, word: u64, carry: Carry)
        requires { self.old.at < 2 ^ 32 - 1 }
        ensures { state_of self.new ≡ goes_with_carry (state_of self.old) operand word carry }
    {
        self.operate_with_carry(operand, word);
        self.set_carry(carry);
    }

    // O1 = O2 op O3, with the carry.
    fn binary_with_carry(&mut self, op: BinaryOp, node: &Node, labels: &[u64]) -> bool
        requires room { self.old.at < 2 ^ 32 - 1 }
        requires known { AreKnown (length labels.now) node.now }
        ensures { Does (carry_step labels.now node.now op (state_of self.old)) (state_of self.old) result (state_of self.new) }
    {
        let Some(a) = self.value(labels, operand(node, 1)) else {
            return false;
        };
        let Some(b) = self.value(labels, operand(node, 2)) else {
            return false;
        };
        let Some(bit) = operators::carry_in(op, self.carry) else {
            return false;
        };
        let word = operators::with_carry(op, a, b, bit);
        let carry = operators::carry_out(op, a, b, bit);
        self.operate_and_set_carry(operand(node, 0), word, carry);
        true
    }

    // An operation of two operands and one result.
    pub(crate) fn binary_node(&mut self, op: BinaryOp, node: &Node, labels: &[u64]) -> bool
        requires room { self.old.at < 2 ^ 32 - 1 }
        requires known { AreKnown (length labels.now) node.now }
        ensures { Does (if sets_carry op then carry_step labels.now node.now op (state_of self.old) else binary_step labels.now node.now
            (binary_value op) (state_of self.old)) (state_of self.old) result (state_of self.new) }
    {
        if operators::sets_carry(op) {
            self.binary_with_carry(op, node, labels)
        } else {
            self.binary(op, node, labels)
        }
    }

    // O1 and O2 = O3 op O4.
    pub(crate) fn wide(&mut self, op: WideOp, node: &Node, labels: &[u64]) -> bool
        requires room { self.old.at < 2 ^ 32 - 1 }
        requires known { AreKnown (length labels.now) node.now }
        ensures { Does (wide_step labels.now node.now op (state_of self.old)) (state_of self.old) result (state_of self.new) }
    {
        let Some(a) = self.value(labels, operand(node, 2)) else {
            return false;
        };
        let Some(b) = self.value(labels, operand(node, 3)) else {
            return false;
        };
        match operators::wide(op, a, b) {
            Some((first, second)) => {
                self.set(operand(node, 0), first);
                self.operate(operand(node, 1), second);
                true
            }
            None => false,
        }
    }

    // O1 = op O2.
    pub(crate) fn unary(&mut self, op: UnaryOp, node: &Node, labels: &[u64]) -> bool
        requires room { self.old.at < 2 ^ 32 - 1 }
        requires known { AreKnown (length labels.now) node.now }
        ensures { Does (unary_step labels.now node.now op (state_of self.old)) (state_of self.old) result (state_of self.new) }
    {
        let Some(a) = self.value(labels, operand(node, 1)) else {
            return false;
        };
        let word = operators::unary(op, a);
        if operators::keeps_carry(op) {
            self.operate_with_carry(operand(node, 0), word);
        } else {
            self.operate(operand(node, 0), word);
        }
        true
    }

    // O1 = an immediate.
    pub(crate) fn movi(&mut self, node: &Node, labels: &[u64]) -> bool
        requires room { self.old.at < 2 ^ 32 - 1 }
        requires known { AreKnown (length labels.now) node.now }
        ensures { Does (movi_step labels.now node.now (state_of self.old)) (state_of self.old) result (state_of self.new) }
    {
        match self.value(labels, operand(node, 1)) {
            Some(word) => {
                self.operate_with_carry(operand(node, 0), word);
                true
            }
            None => false,
        }
    }

    // Goes to the label of an operand, or to the next node.
    pub(crate) fn branch(&mut self, goes: bool, nodes: &NodeList, operand: Operand) -> bool
        requires room { self.old.at < 2 ^ 32 - 1 }
        requires known { IsKnown (length nodes.now.words) operand }
        ensures { Does (branch goes nodes.now.places (state_of self.old) operand) (state_of self.old) result (state_of self.new) }
    {
        let next = self.at + 1;
        let target = if goes {
            node_of_label(nodes, operand)
        } else {
            next
        };
        self.go_to(target);
        true
    }

    // Goes to O1 where O2 and O3 pass a test.
    pub(crate) fn branch_where(
        &mut self,
        condition: Condition,
        node: &Node,
        program: &Program,
    ) -> bool
        requires room { self.old.at < 2 ^ 32 - 1 }
        requires known { AreKnown (length program.now.labels.addresses) node.now }
        ensures { Does (branch_step (text_of program.now) node.now condition (state_of self.old)) (state_of self.old) result (state_of self.new) }
    {
        let Some(a) = self.value(program.addresses(), operand(node, 1)) else {
            return false;
        };
        let Some(b) = self.value(program.addresses(), operand(node, 2)) else {
            return false;
        };
        self.branch(
            operators::holds(condition, a, b),
            program.nodes(),
            operand(node, 0),
        )
    }

    // O2 = O2 + O3 or O2 - O3, and goes to O1 where the result fits, or where it doesn't.
    pub(crate) fn branch_sum(&mut self, op: BranchSumOp, node: &Node, program: &Program) -> bool
        requires room { self.old.at < 2 ^ 32 - 1 }
        requires known { AreKnown (length program.now.labels.addresses) node.now }
        ensures { Does (branch_sum_step (text_of program.now) node.now op (state_of self.old)) (state_of self.old) result (state_of self.new) }
    {
        let Some(a) = self.value(program.addresses(), operand(node, 1)) else {
            return false;
        };
        let Some(b) = self.value(program.addresses(), operand(node, 2)) else {
            return false;
        };
        self.set(operand(node, 1), operators::branch_sum(op, a, b));
        self.branch(
            operators::branch_sum_goes(op, a, b),
            program.nodes(),
            operand(node, 0),
        )
    }

    // Jumps to the address in O1.
    pub(crate) fn jump(&mut self, node: &Node, program: &Program) -> bool
        requires known { AreKnown (length program.now.labels.addresses) node.now }
        ensures { Does (jump_step (text_of program.now) node.now (state_of self.old)) (state_of self.old) result (state_of self.new) }
    {
        let Some(word) = self.value(program.addresses(), operand(node, 0)) else {
            return false;
        };
        match program.jump_target(self.at, word) {
            Some(target) => {
                self.go_to(target);
                true
            }
            None => false,
        }
    }

    // O1 = the result of a call.
    pub(crate) fn retval(&mut self, node: &Node, value_type: ValueType) -> bool
        requires room { self.old.at < 2 ^ 32 - 1 }
        ensures { Does (retval_step node.now value_type (state_of self.old)) (state_of self.old) result (state_of self.new) }
    {
        match self.answer {
            Some(word) => {
                self.operate(
                    operand(node, 0),
                    operators::extended_by_type(value_type, word),
                );
                true
            }
            None => false,
        }
    }

    // Returns the argument of a number.
    pub(crate) fn argument(&self, index: u64) -> Option<u64>
        ensures value { result ≡ slice_get (state_of self.now).frame.args index }
        ensures few { IfSome result (λ word. index < 16) }
    {
        if index < u64::from(self.top.count) {
            self.top.args.get(index as usize).copied()
        } else {
            None
        }
    }

    // O1 = an argument.
    pub(crate) fn getarg(&mut self, node: &Node, value_type: ValueType) -> bool
        requires room { self.old.at < 2 ^ 32 - 1 }
        ensures { Does (getarg_step node.now value_type (state_of self.old)) (state_of self.old) result (state_of self.new) }
    {
        match self.argument(u64::from(slot(operand(node, 1)))) {
            Some(word) => {
                self.operate(
                    operand(node, 0),
                    operators::extended_by_type(value_type, word),
                );
                true
            }
            None => false,
        }
    }

    // O1 = the list of the variable arguments.
    pub(crate) fn va_start(&mut self, node: &Node, labels: &[u64]) -> bool
        requires room { self.old.at < 2 ^ 32 - 1 }
        requires known { AreKnown (length labels.now) node.now }
        ensures { Does (va_start_step labels.now node.now (state_of self.old)) (state_of self.old) result (state_of self.new) }
    {
        match self.value(labels, operand(node, 1)) {
            Some(word) => {
                self.operate(operand(node, 0), word);
                true
            }
            None => false,
        }
    }

    // O1 = the argument of the number O2, and O2 = the next number.
    pub(crate) fn va_arg(&mut self, node: &Node, labels: &[u64]) -> bool
        requires room { self.old.at < 2 ^ 32 - 1 }
        requires known { AreKnown (length labels.now) node.now }
        ensures { Does (va_arg_step labels.now node.now (state_of self.old)) (state_of self.old) result (state_of self.new) }
    {
        let Some(index) = self.value(labels, operand(node, 1)) else {
            return false;
        };
        match self.argument(index) {
            Some(word) => {
                self.set(operand(node, 0), word);
                self.operate(operand(node, 1), index + 1);
                true
            }
            None => false,
        }
    }

    // The end of a list of variable arguments, which changes nothing.
    pub(crate) fn va_end(&mut self, node: &Node, labels: &[u64]) -> bool
        requires room { self.old.at < 2 ^ 32 - 1 }
        requires known { AreKnown (length labels.now) node.now }
        ensures { Does (va_end_step labels.now node.now (state_of self.old)) (state_of self.old) result (state_of self.new) }
    {
        if self.value(labels, operand(node, 0)).is_none() {
            return false;
        }
        self.go_on();
        true
    }
}
