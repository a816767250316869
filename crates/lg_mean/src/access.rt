// Loads and stores of the portable machine. Each method answers whether the step is defined.

ghost use Rattle.std.specs.Prelude.{◌≡◌, ◌<◌, ◌≤◌, ◌-◌, ◌+◌, ◌^◌, ◌&&◌, ℕ, length, Bool, true, false, if◌then◌else◌, IsTrue, Option, None};
ghost use Rattle.lg_base.specs.Spaces.{loaded, stored};
ghost use Rattle.lg_cells.specs.Memories.{writable};
ghost use Rattle.lg_meaning.specs.States.{is_open};
ghost use Rattle.lg_op.specs.Operators.{width, store_width};
ghost use Rattle.lg_meaning.specs.Steps.{read, load_to, store_to, load_step, store_step, address, sum_value, is_indexed, stored_operand, on_with_carry, quiet};
ghost use Rattle.lg_mean.specs.Machines.{state_of};
ghost use Rattle.lg_mean.specs.Says.{AreKnown, Does};

use crate::machine::{Machine, operand};
use lg_node::{Addressing, Node, Operand, StoreType, ValueType};
use lg_op::operators;

// Returns whether an address is the sum of two operands.
pub(crate) fn is_indexed(addressing: Addressing) -> bool
    ensures { result ≡ is_indexed addressing }
{
    matches!(
        addressing,
        Addressing::RegisterRegister | Addressing::RegisterImmediate
    )
}

// Returns the place of the operand that is stored.
fn stored_operand(addressing: Addressing) -> usize
    ensures value { result ≡ stored_operand addressing }
    ensures bound { result < 4 }
{
    if is_indexed(addressing) { 2 } else { 1 }
}

impl Machine {
    // Returns the address of an access.
    pub(crate) fn address(
        &self,
        addressing: Addressing,
        node: &Node,
        first: usize,
        labels: &[u64],
    ) -> Option<u64>
        requires known { AreKnown (length labels.now) node.now }
        requires first { first < 3 }
        ensures { result ≡ address labels.now (state_of self.now) addressing node.now first }
    {
        let a = self.value(labels, operand(node, first))?;
        if !is_indexed(addressing) {
            return Some(a);
        }
        let b = self.value(labels, operand(node, first + 1))?;
        Some(a.wrapping_add(b))
    }

    // Returns the number in this many bytes at an address, where each lies in a part and was written.
    #[inline(always)]
    fn number(&self, address: u64, width: u32) -> Option<u64>
        requires { width ≤ 8 }
        ensures { result ≡ (if writable (is_open (state_of self.now)) address width then loaded (state_of self.now).mem address width else None) }
    {
        self.memory.load(address, width)
    }

    // Returns the number that a type reads at an address.
    #[inline(always)]
    pub(crate) fn read(&self, value_type: ValueType, address: u64) -> Option<u64>
        ensures { result ≡ read (state_of self.now) address (width value_type) }
    {
        // a width in each arm, so that its bytes are read at once
        match value_type {
            ValueType::Char | ValueType::UnsignedChar => self.number(address, 1),
            ValueType::Short | ValueType::UnsignedShort => self.number(address, 2),
            ValueType::Int | ValueType::UnsignedInt => self.number(address, 4),
            ValueType::Long => self.number(address, 8),
        }
    }

    // O1 = what is at an address.
    fn load_to(&mut self, value_type: ValueType, address: u64, operand: Operand) -> bool
        requires { self.old.at < 2 ^ 32 - 1 }
        ensures { Does (load_to (state_of self.old) value_type address operand) (state_of self.old) result (state_of self.new) }
    {
        match self.read(value_type, address) {
            Some(word) => {
                self.operate_with_carry(operand, operators::extended_by_type(value_type, word));
                true
            }
            None => false,
        }
    }

    // Loads.
    pub(crate) fn load(
        &mut self,
        value_type: ValueType,
        addressing: Addressing,
        node: &Node,
        labels: &[u64],
    ) -> bool
        requires room { self.old.at < 2 ^ 32 - 1 }
        requires known { AreKnown (length labels.now) node.now }
        ensures { Does (load_step labels.now node.now value_type addressing (state_of self.old)) (state_of self.old) result (state_of self.new) }
    {
        match self.address(addressing, node, 1, labels) {
            Some(address) => self.load_to(value_type, address, operand(node, 0)),
            None => false,
        }
    }

    // Writes the low bytes of a word at an address, if each can be written. Returns false if not, and then nothing changes.
    #[inline(always)]
    fn put(&mut self, store_type: StoreType, address: u64, word: u64) -> bool
        ensures done { result ≡ writable (is_open (state_of self.old)) address (store_width store_type) }
        ensures bytes { state_of self.new ≡ (if result then record (state_of self.old) {
          mem = stored (state_of self.old).mem address
              (store_width store_type) word;
        } else state_of self.old) }
    {
        // a width in each arm, so that its bytes are written at once
        match store_type {
            StoreType::Char => self.memory.put_word(address, 1, word),
            StoreType::Short => self.memory.put_word(address, 2, word),
            StoreType::Int => self.memory.put_word(address, 4, word),
            StoreType::Long => self.memory.put_word(address, 8, word),
        }
    }

    // The low bytes of a word go to an address.
    #[inline(always)]
    pub(crate) fn store_to(&mut self, store_type: StoreType, address: u64, word: u64) -> bool
        requires { self.old.at < 2 ^ 32 - 1 }
        ensures { Does (store_to (state_of self.old) store_type address word) (state_of self.old) result (state_of self.new) }
    {
        if !self.put(store_type, address, word) {
            return false;
        }
        self.go_on_with_carry();
        true
    }

    // Stores.
    pub(crate) fn store(
        &mut self,
        store_type: StoreType,
        addressing: Addressing,
        node: &Node,
        labels: &[u64],
    ) -> bool
        requires room { self.old.at < 2 ^ 32 - 1 }
        requires known { AreKnown (length labels.now) node.now }
        ensures { Does (store_step labels.now node.now store_type addressing (state_of self.old)) (state_of self.old) result (state_of self.new) }
    {
        let Some(address) = self.address(addressing, node, 0, labels) else {
            return false;
        };
        match self.value(labels, operand(node, stored_operand(addressing))) {
            Some(word) => self.store_to(store_type, address, word),
            None => false,
        }
    }
}
