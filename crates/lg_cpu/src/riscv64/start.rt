// The processor at the start of a run.

ghost use Rattle.std.specs.Prelude.{◌≡◌, slice_index};
ghost use Rattle.lg_cpu.specs.RvStep.{start_registers};

use crate::board::{Board, STOP, trash_registers};
use crate::decode_cache::DecodeCache;
use crate::riscv64::Riscv64;
use lg_base::layout::CODE_BASE;
use lg_rv::Instr;

// the first address of the argument part, and the address after the stack
const ARGS: u64 = 0x2800_0000;

const STACK_END: u64 = 0x4000_0000;

// Returns the registers at the start of a run with this many arguments.
fn registers_at_start(count: u64, trash: u64) -> [u64; 32]
    ensures { slice_index result ≡ start_registers count trash }
{
    let mut registers = trash_registers(trash);
    registers[11] = ARGS;
    registers[10] = count;
    registers[2] = STACK_END;
    registers[1] = STOP;
    registers
}

impl Riscv64 {
    ghost use Rattle.lg_base.specs.Parts.{byte_at};
    ghost use Rattle.lg_cpu.specs.RvStep.{begins};
    ghost use Rattle.lg_cpu.specs.Machines.{begun, rv_state, rv_inner};

    /// Returns the processor before its first step, with the number of arguments.
    pub fn new(code: DecodeCache<Instr>, board: Board, count: u64) -> Riscv64
        ensures state { rv_state result ≡ begins count board.trash (byte_at board.memory) board.heap }
        ensures code { result.code ≡ code }
        ensures board { result.board ≡ board }
    {
        Riscv64 {
            pc: CODE_BASE,
            registers: registers_at_start(count, board.trash),
            code,
            board,
        }
    }

    /// Is before the first step again, with the number of arguments, over the memory that it has.
    pub fn begin(&mut self, count: u64)
        ensures { rv_inner self.new ≡ begun (rv_inner self.old) count }
    {
        self.pc = CODE_BASE;
        self.registers = registers_at_start(count, self.board.trash);
    }
}
