// The steps of resolved nodes. Each method returns whether the step goes. If not, the state stays, and the node itself has to be executed.

ghost use Rattle.std.specs.Prelude.{◌≡◌, ◌<◌, ◌-◌, ◌^◌, if◌then◌else◌};
ghost use Rattle.lg_meaning.specs.Steps.{quiet, to, on, on_with_carry, store_to};
ghost use Rattle.lg_op.specs.Operators.{width, extended_by_type};
ghost use Rattle.lg_mean.specs.Machines.{state_of};
ghost use Rattle.lg_mean.specs.Says.{Does};
ghost use Rattle.lg_mean.specs.Resolved.{IsPlaced, acts, resolved_load, resolved_step, register_at, source_at, set_at};
ghost use Rattle.lg_mean.specs.declared.resolved.Act.TheVariants as acts_of;

use crate::machine::Machine;
use crate::resolved::{Act, CONSTANT, FRAME, ResolvedNode};
use lg_node::{BinaryOp, Condition, StoreType, UnaryOp, ValueType};
use lg_op::operators;

impl Machine {
    // Returns the word in a register, by its number.
    #[inline(always)]
    fn register_at(&self, place: u8) -> Option<u64>
        requires { place < 7 }
        ensures { result ≡ register_at (state_of self.now) place }
    {
        if place == FRAME {
            return Some(self.top.sp - 16);
        }
        self.registers[place as usize]
    }

    // Returns the word at a place, which may be that of the constant.
    #[inline(always)]
    fn source_at(&self, place: u8, number: u64) -> Option<u64>
        requires { place < 8 }
        ensures { result ≡ source_at (state_of self.now) place number }
    {
        if place == CONSTANT {
            return Some(number);
        }
        self.register_at(place)
    }

    // Writes the register of a number.
    #[inline(always)]
    fn set_at(&mut self, place: u8, word: u64)
        requires { place < 7 }
        ensures { state_of self.new ≡ set_at (state_of self.old) place word }
    {
        self.registers[place as usize] = Some(word);
    }

    // Writes a register and goes to the next node.
    #[inline(always)]
    fn finish_at(&mut self, place: u8, word: u64)
        requires room { self.old.at < 2 ^ 32 - 1 }
        requires place { place < 7 }
        ensures { state_of self.new ≡ on (set_at (state_of self.old) place word) }
    {
        self.set_at(place, word);
        self.go_on();
    }

    // The same, with the carry as it is.
    #[inline(always)]
    fn finish_at_with_carry(&mut self, place: u8, word: u64)
        requires room { self.old.at < 2 ^ 32 - 1 }
        requires place { place < 7 }
        ensures { state_of self.new ≡ on_with_carry (set_at (state_of self.old) place word) }
    {
        self.set_at(place, word);
        self.go_on_with_carry();
    }

    // An operation that sets no carry.
    #[inline(always)]
    fn resolved_binary(&mut self, op: BinaryOp, node: &ResolvedNode) -> bool
        requires room { self.old.at < 2 ^ 32 - 1 }
        requires placed { IsPlaced node.now }
        ensures { Does (acts node.now (acts_of.Binary op) (state_of self.old)) (state_of self.old) result (state_of self.new) }
    {
        let Some(a) = self.register_at(node.second) else {
            return false;
        };
        let Some(b) = self.source_at(node.third, node.number) else {
            return false;
        };
        match operators::binary(op, a, b) {
            Some(word) => {
                self.finish_at(node.first, word);
                true
            }
            None => false,
        }
    }

    // An operation that sets the carry.
    #[inline(always)]
    fn resolved_with_carry(&mut self, op: BinaryOp, node: &ResolvedNode) -> bool
        requires room { self.old.at < 2 ^ 32 - 1 }
        requires placed { IsPlaced node.now }
        ensures { Does (acts node.now (acts_of.WithCarry op) (state_of self.old)) (state_of self.old) result (state_of self.new) }
    {
        let Some(a) = self.register_at(node.second) else {
            return false;
        };
        let Some(b) = self.source_at(node.third, node.number) else {
            return false;
        };
        let Some(bit) = operators::carry_in(op, self.carry) else {
            return false;
        };
        self.finish_at_with_carry(node.first, operators::with_carry(op, a, b, bit));
        self.set_carry(operators::carry_out(op, a, b, bit));
        true
    }

    // An operation of one operand.
    #[inline(always)]
    fn resolved_unary(&mut self, op: UnaryOp, node: &ResolvedNode) -> bool
        requires room { self.old.at < 2 ^ 32 - 1 }
        requires placed { IsPlaced node.now }
        ensures { Does (acts node.now (acts_of.Unary op) (state_of self.old)) (state_of self.old) result (state_of self.new) }
    {
        let Some(a) = self.register_at(node.second) else {
            return false;
        };
        let word = operators::unary(op, a);
        if operators::keeps_carry(op) {
            self.finish_at_with_carry(node.first, word);
        } else {
            self.finish_at(node.first, word);
        }
        true
    }

    // A constant.
    #[inline(always)]
    fn resolved_move(&mut self, node: &ResolvedNode) -> bool
        requires room { self.old.at < 2 ^ 32 - 1 }
        requires placed { IsPlaced node.now }
        ensures { Does (acts node.now acts_of.Move (state_of self.old)) (state_of self.old) result (state_of self.new) }
    {
        self.finish_at_with_carry(node.first, node.number);
        true
    }

    // A branch.
    #[inline(always)]
    fn resolved_branch(&mut self, condition: Condition, node: &ResolvedNode) -> bool
        requires room { self.old.at < 2 ^ 32 - 1 }
        requires placed { IsPlaced node.now }
        ensures { Does (acts node.now (acts_of.Branch condition) (state_of self.old)) (state_of self.old) result (state_of self.new) }
    {
        let Some(a) = self.register_at(node.second) else {
            return false;
        };
        let Some(b) = self.source_at(node.third, node.number) else {
            return false;
        };
        let next = self.at + 1;
        let target = if operators::holds(condition, a, b) {
            node.target
        } else {
            next
        };
        self.go_to(target);
        true
    }

    // A jump.
    #[inline(always)]
    fn resolved_jump(&mut self, node: &ResolvedNode) -> bool
        ensures { Does (acts node.now acts_of.Jump (state_of self.old)) (state_of self.old) result (state_of self.new) }
    {
        self.go_to(node.target);
        true
    }

    // A load from an address.
    #[inline(always)]
    fn load_at(&mut self, value_type: ValueType, address: u64, node: &ResolvedNode) -> bool
        requires room { self.old.at < 2 ^ 32 - 1 }
        requires placed { IsPlaced node.now }
        ensures { Does (resolved_load node.now (state_of self.old) (width value_type) (extended_by_type value_type) address) (state_of self.old)
            result (state_of self.new) }
    {
        match self.read(value_type, address) {
            Some(word) => {
                self.finish_at_with_carry(
                    node.first,
                    operators::extended_by_type(value_type, word),
                );
                true
            }
            None => false,
        }
    }

    // A load.
    #[inline(always)]
    fn resolved_load(&mut self, value_type: ValueType, node: &ResolvedNode) -> bool
        requires room { self.old.at < 2 ^ 32 - 1 }
        requires placed { IsPlaced node.now }
        ensures { Does (acts node.now (acts_of.Load value_type) (state_of self.old)) (state_of self.old) result (state_of self.new) }
    {
        match self.source_at(node.third, node.number) {
            Some(address) => self.load_at(value_type, address, node),
            None => false,
        }
    }

    // A load from the sum of two operands.
    #[inline(always)]
    fn resolved_load_sum(&mut self, value_type: ValueType, node: &ResolvedNode) -> bool
        requires room { self.old.at < 2 ^ 32 - 1 }
        requires placed { IsPlaced node.now }
        ensures { Does (acts node.now (acts_of.LoadSum value_type) (state_of self.old)) (state_of self.old) result (state_of self.new) }
    {
        let Some(a) = self.register_at(node.second) else {
            return false;
        };
        match self.source_at(node.third, node.number) {
            Some(b) => self.load_at(value_type, a.wrapping_add(b), node),
            None => false,
        }
    }

    // A store.
    #[inline(always)]
    fn resolved_store(&mut self, store_type: StoreType, node: &ResolvedNode) -> bool
        requires room { self.old.at < 2 ^ 32 - 1 }
        requires placed { IsPlaced node.now }
        ensures { Does (acts node.now (acts_of.Store store_type) (state_of self.old)) (state_of self.old) result (state_of self.new) }
    {
        let Some(address) = self.source_at(node.third, node.number) else {
            return false;
        };
        match self.register_at(node.first) {
            Some(word) => self.store_to(store_type, address, word),
            None => false,
        }
    }

    // A store to the sum of two operands.
    #[inline(always)]
    fn resolved_store_sum(&mut self, store_type: StoreType, node: &ResolvedNode) -> bool
        requires room { self.old.at < 2 ^ 32 - 1 }
        requires placed { IsPlaced node.now }
        ensures { Does (acts node.now (acts_of.StoreSum store_type) (state_of self.old)) (state_of self.old) result (state_of self.new) }
    {
        let Some(a) = self.source_at(node.third, node.number) else {
            return false;
        };
        let Some(b) = self.register_at(node.second) else {
            return false;
        };
        match self.register_at(node.first) {
            Some(word) => self.store_to(store_type, a.wrapping_add(b), word),
            None => false,
        }
    }

    // The step of a resolved node.
    #[inline(always)]
    pub(crate) fn step_resolved(&mut self, node: &ResolvedNode) -> bool
        requires room { self.old.at < 2 ^ 32 - 1 }
        requires placed { IsPlaced node.now }
        ensures { Does (resolved_step node.now (state_of self.old)) (state_of self.old) result (state_of self.new) }
    {
        match node.act {
            Act::Binary(op) => self.resolved_binary(op, node),
            Act::WithCarry(op) => self.resolved_with_carry(op, node),
            Act::Unary(op) => self.resolved_unary(op, node),
            Act::Move => self.resolved_move(node),
            Act::Branch(condition) => self.resolved_branch(condition, node),
            Act::Jump => self.resolved_jump(node),
            Act::Load(value_type) => self.resolved_load(value_type, node),
            Act::LoadSum(value_type) => self.resolved_load_sum(value_type, node),
            Act::Store(store_type) => self.resolved_store(store_type, node),
            Act::StoreSum(store_type) => self.resolved_store_sum(store_type, node),
            Act::Other => false,
        }
    }
}
