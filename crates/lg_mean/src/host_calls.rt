// Calls of host functions.

ghost use Rattle.std.specs.Prelude.{◌≡◌, ◌<◌, ◌≤◌, ◌-◌, ◌+◌, ◌^◌, ◌∷◌, [], ℕ, take, length, Some};
ghost use Rattle.lg_host.specs.Host.{HostSays, KeepsCountAt, host_of, memory, outcome};
ghost use Rattle.lg_cells.specs.Memories.{byte_at, room_at};
ghost use Rattle.lg_meaning.specs.States.{is_open};
ghost use Rattle.lg_meaning.specs.Steps.{call_host, is_marked, resumed};
ghost use Rattle.lg_mean.specs.Machines.{state_of, regs_of};
ghost use Rattle.lg_mean.specs.Says.{Steps, KeepsCount};

use crate::machine::Machine;
use crate::mean_step::MeanStep;
use lg_base::HostName;
use lg_host::{HostEnd, call};
use lg_io::Sink;

// Returns whether a call is variadic.
fn is_marked(variadic: Option<bool>) -> bool
    ensures { result ≡ is_marked variadic }
{
    match variadic {
        Some(variadic) => variadic,
        None => false,
    }
}

impl Machine {
    // Calls a host function on the memory.
    fn call_out<O: Sink>(&mut self, name: HostName, count: u32, out: &mut O) -> HostEnd
        requires { count ≤ 16 }
        ensures says { HostSays (host_of name (take count self.old.staged) (is_marked self.old.variadic) (memory (byte_at self.old.memory)
            (is_open (state_of self.old)) self.old.heap))
            (memory (byte_at self.old.memory) (is_open (state_of self.old)) self.old.heap)
            (memory (byte_at self.new.memory) (is_open (state_of self.new)) self.new.heap)
            (outcome (O.taken out.old) (O.taken out.new) (O.faults out.old) (O.faults out.new)) result }
        ensures same { self.new ≡ record self.old { memory = self.new.memory; heap = self.new.heap } }
        ensures later { O.faults out.old ≤ O.faults out.new }
        ensures kept { KeepsCountAt result (outcome (O.taken out.old) (O.taken out.new) (O.faults out.old) (O.faults out.new)) }
    {
        let staged = self.staged;
        let variadic = is_marked(self.variadic);
        call(
            name,
            &staged[..count as usize],
            variadic,
            &mut self.memory,
            &mut self.heap,
            out,
        )
    }

    // Moves past a host call, which answered a word.
    fn behind(&mut self, word: u64)
        requires { self.old.at < 2 ^ 32 - 1 }
        ensures { state_of self.new ≡ resumed (state_of self.old) (self.old.at + 1) (regs_of self.old.registers) (Some word) }
    {
        let next = self.at + 1;
        let registers = self.registers;
        self.resume(next, registers, Some(word));
    }

    // Calls a host function with this many of the staged arguments.
    pub(crate) fn host<O: Sink>(
        &mut self,
        name: HostName,
        count: u32,
        line: u32,
        out: &mut O,
    ) -> MeanStep
        requires room { self.old.at < 2 ^ 32 - 1 }
        requires few { count ≤ 16 }
        ensures says { Steps (call_host (state_of self.old) (take count self.old.staged) name) line (state_of self.old) result (state_of self.new)
            (O.taken out.old) (O.taken out.new) (O.faults out.old) (O.faults out.new) }
        ensures later { O.faults out.old ≤ O.faults out.new }
        ensures kept { KeepsCount result (O.faults out.old) (O.faults out.new) }
    {
        match self.call_out(name, count, out) {
            HostEnd::Value(word) => {
                self.behind(word);
                MeanStep::Went
            }
            HostEnd::Exit(status) => MeanStep::Ended(status),
            HostEnd::Undefined => MeanStep::Undefined { line },
            HostEnd::WriteFault => MeanStep::WriteFault,
        }
    }
}
