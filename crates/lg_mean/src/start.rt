// The portable state at the start of a run.

ghost use Rattle.std.specs.Prelude.{◌≡◌, ◌≤◌, length, IfOk};
ghost use Rattle.lg_base.specs.Arguments.{argument_count, most_args};
ghost use Rattle.lg_meaning.specs.Starts.{start_state, entry_frame};
ghost use Rattle.lg_mean.specs.Machines.{state_of, frame_in};

use crate::frame::KeptFrame;
use crate::machine::Machine;
use lg_base::OutOfMemory;
use lg_base::args::argument_count;
use lg_cells::CellMemory;
use lg_host::HeapMark;
use lg_op::carry::Carry;
use std::alloc::Global;

// The most frames of a run: each but the entry's has at least 272 bytes of the 1,048,560 below the stack's end.
const MOST_FRAMES: usize = 3855;

// The first address of the argument part.
const ARGS: u64 = 0x2800_0000;

// The end of the stack.
const STACK_END: u64 = 0x4000_0000;

// Returns the frame of a function that is called from outside with this stack pointer and these words, at most 16.
pub(crate) fn entry_frame(sp: u64, words: &[u64]) -> KeptFrame
    requires { length words.now ≤ 16 }
    ensures { frame_in result ≡ entry_frame sp words.now }
{
    let mut args = [0; 16];
    args[..words.len()].copy_from_slice(words);
    KeptFrame {
        sp,
        back: 0,
        args,
        count: words.len() as u32,
        saved: [None; 7],
        size: 0,
        locals: 0,
    }
}

impl Machine {
    // Returns the state at the start, with these bytes of the data part and the argument part. It takes room for all frames.
    pub(crate) fn new(alloc: Global, image: &[u8], args: &[u8]) -> Result<Machine, OutOfMemory>
        requires image { length image.now ≤ 0x1000000 }
        requires args { length args.now ≤ most_args }
        ensures { IfOk result (λ m. state_of m ≡ start_state image.now args.now) }
    {
        Ok(Machine {
            at: 0,
            registers: [None; 7],
            carry: Carry::Undefined,
            answer: None,
            staged: [0; 16],
            count: 0,
            variadic: None,
            top: entry_frame(STACK_END, &[argument_count(args), ARGS]),
            below: Vec::with_capacity(alloc, MOST_FRAMES)?,
            memory: CellMemory::new(alloc, image, args)?,
            heap: HeapMark::new(),
            data_size: image.len() as u64,
            args_size: args.len() as u64,
        })
    }
}
