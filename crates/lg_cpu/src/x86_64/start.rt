// The processor at the start of a run.

ghost use Rattle.std.specs.Prelude.{◌≡◌, ◌-◌, length, slice_index, if◌then◌else◌, nat_lt};
ghost use Rattle.lg_cpu.specs.X86Step.{start_registers};

use crate::board::{Board, STOP};
use crate::decode_cache::DecodeCache;
use crate::x86_64::X86_64;
use crate::x86_64::flags::no_flags;
use crate::x86_64::lazy_flags::LazyFlags;
use lg_base::layout::CODE_BASE;
use lg_x86::Instr;

// the first address of the argument part, and the address of the return address of the first function
const ARGS: u64 = 0x2800_0000;

const RETURN: u64 = 0x3FFF_FFF8;

// Returns the trash word in each register.
fn trash_registers(trash: u64) -> [u64; 16]
    ensures registers { slice_index result ≡ (λ r. if nat_lt r 16 then trash else 0) }
    ensures long { length result ≡ 16 }
{
    [trash; 16]
}

// Returns the registers at the start of a run with this many arguments.
fn registers_at_start(count: u64, trash: u64) -> [u64; 16]
    ensures { slice_index result ≡ start_registers count trash }
{
    let mut registers = trash_registers(trash);
    registers[6] = ARGS;
    registers[7] = count;
    registers[4] = RETURN;
    registers
}

impl X86_64 {
    ghost use Rattle.std.specs.Prelude.{true};
    ghost use Rattle.lg_base.specs.Layout.{return_word, stack_end};
    ghost use Rattle.lg_base.specs.Parts.{byte_at};
    ghost use Rattle.lg_base.specs.Spaces.{mapped};
    ghost use Rattle.lg_cpu.specs.X86Step.{begins};
    ghost use Rattle.lg_cpu.specs.Machines.{inner_of, begun, x86_inner};
    ghost use Rattle.lg_base.specs.declared.target.Target.{Target};

    /// Returns the processor before its first step, with the number of arguments; the stop address is at the stack pointer.
    pub fn new(code: DecodeCache<Instr>, board: Board, count: u64) -> X86_64
        requires stack { mapped (byte_at board.memory) (return_word stack_end) 8 ≡ true }
        ensures { x86_inner result ≡ inner_of Target.X86_64 (begins count board.trash (byte_at board.memory) board.heap) code board }
    {
        let mut board = board;
        board.memory.store(RETURN, 8, STOP);
        X86_64 {
            pc: CODE_BASE,
            registers: registers_at_start(count, board.trash),
            flags: LazyFlags::of(no_flags()),
            code,
            board,
        }
    }

    /// Is before the first step again, with the number of arguments, over the memory that it has; the stop address is at
    /// the stack pointer.
    pub fn begin(&mut self, count: u64)
        requires stack { mapped (byte_at self.old.board.memory) (return_word stack_end) 8 ≡ true }
        ensures { x86_inner self.new ≡ begun (x86_inner self.old) count }
    {
        self.board.memory.store(RETURN, 8, STOP);
        self.pc = CODE_BASE;
        self.registers = registers_at_start(count, self.board.trash);
        self.flags.set(no_flags());
    }
}
