// Calls and returns of the portable machine.

ghost use Rattle.std.specs.Prelude.{◌≡◌, ◌<◌, ◌≤◌, ◌-◌, ◌+◌, ◌^◌, ◌∷◌, ◌++◌, [], ℕ, length, take, nat_le, Bool, true, false, if◌then◌else◌, Some, None};
ghost use Rattle.lg_node.specs.Functions.{frame_of};
ghost use Rattle.lg_host.specs.Host.{HostSays, host_of, memory, outcome};
ghost use Rattle.lg_cells.specs.Memories.{byte_at, room_at};
ghost use Rattle.lg_meaning.specs.States.{is_open};
ghost use Rattle.lg_meaning.specs.Steps.{prepare_step, ellipsis_step, push_step, started, kept, resumed, called, enter, begun, prolog_step, back_to, leave, ret_step, quiet, on, function_here};
ghost use Rattle.lg_mean.specs.Machines.{state_of, regs_of, frame_in};
ghost use Rattle.lg_meaning.specs.Texts.{text};
ghost use Rattle.lg_mean.specs.Says.{AreKnown, Does, Returns, WentUp, HasBegun, CanBegin};

use crate::frame::KeptFrame;
use crate::machine::{Machine, operand};
use lg_node::{Function, Node};
use lg_op::carry::Carry;

// Returns the bytes of a function's frame.
pub(crate) fn frame_size(function: Function) -> u32
    requires { function.locals ≤ 65536 }
    ensures value { result ≡ frame_of function }
    ensures whole { 272 + function.locals ≤ result }
{
    (272 + function.locals).div_ceil(16) * 16
}

impl Machine {
    // Begins a call.
    pub(crate) fn prepare(&mut self)
        requires { self.old.at < 2 ^ 32 - 1 }
        ensures { Does (prepare_step (state_of self.old)) (state_of self.old) true (state_of self.new) }
    {
        self.count = 0;
        self.variadic = Some(false);
        self.go_on();
    }

    // The call that is being prepared is variadic; where none is, nothing changes.
    pub(crate) fn ellipsis(&mut self)
        requires { self.old.at < 2 ^ 32 - 1 }
        ensures { Does (ellipsis_step (state_of self.old)) (state_of self.old) true (state_of self.new) }
    {
        if let Some(_) = self.variadic {
            self.variadic = Some(true);
        }
        self.go_on();
    }

    // A further argument (fewer than 16).
    fn stage(&mut self, word: u64)
        requires { self.old.count < 16 }
        ensures { state_of self.new ≡ record (state_of self.old) { pushed = (state_of self.old).pushed ++ word ∷ [] } }
    {
        self.staged[self.count as usize] = word;
        self.count += 1;
    }

    // Pushes an argument.
    pub(crate) fn push(&mut self, node: &Node, labels: &[u64]) -> bool
        requires room { self.old.at < 2 ^ 32 - 1 }
        requires few { self.old.count < 16 }
        requires known { AreKnown (length labels.now) node.now }
        ensures { Does (push_step labels.now node.now (state_of self.old)) (state_of self.old) result (state_of self.new) }
    {
        match self.value(labels, operand(node, 0)) {
            Some(word) => {
                self.stage(word);
                self.go_on();
                true
            }
            None => false,
        }
    }

    // The running frame gets its size, and its locals are there, unwritten.
    pub(crate) fn begin(&mut self, function: Function, size: u32)
        requires size { size ≡ frame_of function }
        requires whole { 272 + function.locals ≤ size }
        requires fresh { self.old.top.locals ≡ 0 }
        requires fits { 0x3FF00010 + size ≤ self.old.top.sp }
        ensures { state_of self.new ≡ begun (state_of self.old) function }
    {
        let locals = function.locals as u64;
        self.memory.open(self.top.sp - 144 - locals, locals);
        self.top.size = size;
        self.top.locals = function.locals;
    }

    // All registers are undefined, and nothing is pushed.
    pub(crate) fn start(&mut self, node: u32)
        ensures { state_of self.new ≡ started (state_of self.old) node }
    {
        self.registers = [None, None, None, None, None, None, None];
        self.count = 0;
        self.variadic = None;
        self.go_to(node);
    }

    // Returns whether a frame of this size fits below the running one.
    pub(crate) fn has_room(&self, size: u32) -> bool
        ensures { result ≡ nat_le (0x3FF00010 + size) ((state_of self.now).frame.sp - (state_of self.now).frame.size) }
    {
        0x3FF0_0010 + size as u64 <= self.top.sp - self.top.size as u64
    }

    // Returns the frame of a call from here.
    pub(crate) fn callee(&self, count: u32) -> KeptFrame
        requires { self.now.at < 2 ^ 32 - 1 }
        ensures made { frame_in result ≡ called (state_of self.now) (take count self.now.staged) }
        ensures below { result.sp + self.now.top.size ≡ self.now.top.sp }
        ensures place { result.sp ≡ self.now.top.sp - self.now.top.size }
        ensures empty { (result.size ≡ 0) × (result.locals ≡ 0) }
    {
        KeptFrame {
            sp: self.top.sp - self.top.size as u64,
            back: self.at + 1,
            args: self.staged,
            count,
            saved: self.registers,
            size: 0,
            locals: 0,
        }
    }

    // A new running frame.
    pub(crate) fn down(&mut self, callee: KeptFrame)
        requires below { callee.sp + self.old.top.size ≡ self.old.top.sp }
        requires begun { 272 + self.old.top.locals ≤ self.old.top.size }
        requires fits { 0x3FF00010 ≤ callee.sp }
        requires empty { (callee.size ≡ 0) × (callee.locals ≡ 0) }
        ensures { state_of self.new ≡ record (state_of self.old) {
          frame = frame_in callee;
          callers = (state_of self.old).frame ∷
              (state_of self.old).callers;
        } }
    {
        let caller = self.top;
        self.below.push_reserved(caller);
        self.top = callee;
    }

    // Moves past a call, with the registers of the caller and the result.
    pub(crate) fn resume(&mut self, node: u32, saved: [Option<u64>; 7], answer: Option<u64>)
        ensures { state_of self.new ≡ resumed (state_of self.old) node (regs_of saved) answer }
    {
        self.registers = saved;
        self.registers[0] = None;
        self.registers[1] = None;
        self.registers[2] = None;
        self.count = 0;
        self.variadic = None;
        self.at = node;
        self.carry = Carry::Undefined;
        self.answer = answer;
    }

    // Takes the running frame and its locals away, where there is another one.
    fn up(&mut self) -> bool
        requires { 272 + self.old.top.locals ≤ self.old.top.size }
        ensures { WentUp (state_of self.old) (state_of self.old).callers result (state_of self.new) }
    {
        match self.below.pop() {
            Some(caller) => {
                let locals = self.top.locals as u64;
                self.memory.close(self.top.sp - 144 - locals, locals);
                self.top = caller;
                true
            }
            None => false,
        }
    }

    // Returns to the caller, or ends the run with a status.
    pub(crate) fn leave(&mut self, answer: Option<u64>) -> Option<u8>
        requires { 272 + self.old.top.locals ≤ self.old.top.size }
        ensures { Returns (leave (state_of self.old) answer) (state_of self.old) result (state_of self.new) }
    {
        let back = self.top.back;
        let saved = self.top.saved;
        if !self.up() {
            return Some(0);
        }
        self.resume(back, saved, answer);
        None
    }
}
