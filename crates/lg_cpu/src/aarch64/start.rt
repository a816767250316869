// The processor at the start of a run.

ghost use Rattle.std.specs.Prelude.{◌≡◌, slice_index};
ghost use Rattle.lg_cpu.specs.A64Step.{start_registers, trash_flags};

use crate::aarch64::Aarch64;
use crate::aarch64::lazy_flags::LazyFlags;
use crate::board::{Board, STOP, trash_registers};
use crate::decode_cache::DecodeCache;
use lg_a64::Instr;
use lg_base::Flags;
use lg_base::layout::CODE_BASE;

// the first address of the argument part, and the address after the stack
const ARGS: u64 = 0x2800_0000;

const STACK_END: u64 = 0x4000_0000;

// Returns the low four bits of the trash word: N, Z, C and V.
pub(crate) fn trash_flags(trash: u64) -> Flags
    ensures { result ≡ trash_flags trash }
{
    Flags::Nzcv {
        negative: trash / 8 % 2 == 1,
        zero: trash / 4 % 2 == 1,
        carry: trash / 2 % 2 == 1,
        overflow: trash % 2 == 1,
    }
}

// Returns the registers at the start of a run with this many arguments.
fn registers_at_start(count: u64, trash: u64) -> [u64; 32]
    ensures { slice_index result ≡ start_registers count trash }
{
    let mut registers = trash_registers(trash);
    registers[1] = ARGS;
    registers[0] = count;
    registers[31] = STACK_END;
    registers[30] = STOP;
    registers
}

impl Aarch64 {
    ghost use Rattle.lg_base.specs.Parts.{byte_at};
    ghost use Rattle.lg_cpu.specs.A64Step.{begins};
    ghost use Rattle.lg_cpu.specs.Machines.{begun, a64_state, a64_inner};

    /// Returns the processor before its first step, with the number of arguments.
    pub fn new(code: DecodeCache<Instr>, board: Board, count: u64) -> Aarch64
        ensures state { a64_state result ≡ begins count board.trash (byte_at board.memory) board.heap }
        ensures code { result.code ≡ code }
        ensures board { result.board ≡ board }
    {
        Aarch64 {
            pc: CODE_BASE,
            flags: LazyFlags::of(trash_flags(board.trash)),
            registers: registers_at_start(count, board.trash),
            code,
            board,
        }
    }

    /// Is before the first step again, with the number of arguments, over the memory that it has.
    pub fn begin(&mut self, count: u64)
        ensures { a64_inner self.new ≡ begun (a64_inner self.old) count }
    {
        self.pc = CODE_BASE;
        self.registers = registers_at_start(count, self.board.trash);
        self.flags.set(trash_flags(self.board.trash));
    }
}
