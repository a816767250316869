// Calls of functions from outside of the text.

ghost use Rattle.std.specs.Prelude.{◌≡◌, ◌≤◌, ◌-◌, [], ℕ, length};
ghost use Rattle.lg_meaning.specs.Starts.{IsEntryStack, entered_state, entry_after, outside_stack};
ghost use Rattle.lg_meaning.specs.Steps.{node_in};
ghost use Rattle.lg_mean.specs.Entering.{BeginsAlike};
ghost use Rattle.lg_mean.specs.Machines.{state_of, frame_in};
ghost use Rattle.lg_mean.specs.Results.{word_of_return};
ghost use Rattle.lg_mean.specs.Says.{AreKnown};
ghost use Rattle.lg_va.specs.Calls.{calling_stack};

use crate::frame::KeptFrame;
use crate::machine::{Machine, operand};
use crate::program::Program;
use crate::start::entry_frame;
use lg_node::{ControlOp, Node, Op, Place};
use lg_va::calling_stack;

// Returns the node of a place.
pub(crate) fn node_in(place: Option<Place>) -> u32
    ensures { result ≡ node_in place }
{
    match place {
        Some(Place::Node(node)) => node,
        _ => 0,
    }
}

impl Machine {
    // Returns how many frames are above the running one.
    fn callers(&self) -> usize
        ensures { length (state_of self.now).callers ≡ result }
    {
        self.below.len()
    }

    // Returns the word with which a node returns from the first frame, where it does so.
    pub(crate) fn word_of_return(&self, node: &Node, program: &Program) -> Option<u64>
        requires { AreKnown (length program.now.labels.addresses) node.now }
        ensures { result ≡ word_of_return program.now.labels.addresses node.now node.now.op (state_of self.now) }
    {
        match node.op {
            Op::Control(ControlOp::Ret, _) => {
                if self.callers() == 0 {
                    self.value(program.addresses(), operand(node, 0))
                } else {
                    None
                }
            }
            _ => None,
        }
    }

    // Takes the locals of the running frame out of the memory.
    fn close_top(&mut self)
        ensures empty { self.new.top.locals ≡ 0 }
        ensures callers { (state_of self.new).callers ≡ (state_of self.old).callers }
        ensures alike { BeginsAlike (state_of self.old) (state_of self.new) }
    {
        let locals = self.top.locals as u64;
        if locals == 0 {
            return;
        }
        self.memory.close(self.top.sp - 144 - locals, locals);
        self.top.size = 0;
        self.top.locals = 0;
    }

    // Takes the running frame away, which has no locals, where there is another one.
    fn drop_top(&mut self)
        requires { self.old.top.locals ≡ 0 }
        ensures less { length (state_of self.new).callers ≡ length (state_of self.old).callers - 1 }
        ensures alike { BeginsAlike (state_of self.old) (state_of self.new) }
    {
        if let Some(caller) = self.below.pop() {
            self.top = caller;
        }
    }

    // Takes all frames but the first one away, and the locals of the first one too.
    fn close_frames(&mut self)
        ensures empty { self.new.top.locals ≡ 0 }
        ensures alone { (state_of self.new).callers ≡ [] }
        ensures alike { BeginsAlike (state_of self.old) (state_of self.new) }
    {
        self.close_top();
        for _turn in 0..self.callers() {
            self.drop_top();
            self.close_top();
        }
    }

    // Puts a frame in place of the first one, which has no locals.
    fn put_first(&mut self, frame: KeptFrame)
        requires empty { self.old.top.locals ≡ 0 }
        requires alone { (state_of self.old).callers ≡ [] }
        requires stack { IsEntryStack frame.sp }
        requires fresh { (frame.size ≡ 0) × (frame.locals ≡ 0) }
        ensures { state_of self.new ≡ record (state_of self.old) {
          frame = frame_in frame;
          mem = outside_stack (state_of self.old).mem;
        } }
    {
        self.top = frame;
    }

    // Goes to the start of a run that begins at a node, with these arguments, over what the last run left outside of the stack. None of its frames are left.
    pub(crate) fn restart(&mut self, node: u32, words: &[u64])
        requires { length words.now ≤ 16 }
        ensures { state_of self.new ≡ entered_state (entry_after (state_of self.old) (calling_stack (length words.now)) words.now) node }
    {
        self.close_frames();
        self.start(node);
        self.put_first(entry_frame(calling_stack(words.len() as u32), words));
    }
}
