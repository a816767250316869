// Runs of the processors: that call host functions, over bytes that are no code, and from the first step to an answer that stays.

ghost use Rattle.std.specs.Prelude.{◌≤◌, length};

use lg_base::{ArgImage, CodeBytes, DataImage, FaultKind, OutOfMemory, Target};
use lg_cpu::{Cpu, CpuStep};
use lg_io::MemorySink;
use std::alloc::Global;
use std::test::Fail;

const TRASH: u64 = 0x5a5a_5a5a_5a5a_5a5a;

const CODE: u64 = 0x1000_0000;

const PRINTF: u64 = 0x0ff0_0000;

// The argument part of the one word `-`.
const ARGS: [u8; 18] = [16, 0, 0, 0x28, 0, 0, 0, 0, 0, 0, 0, 0, 0, 0, 0, 0, b'-', 0];

// What is done with a processor, or asked of it.
enum Act {
    // A register gets a word.
    Set(u8, u64),
    // This many bytes are stored at an address: the low ones of a number.
    Store(u64, u32, u64),
    // The program counter gets an address.
    Jump(u64),
    // The code becomes another.
    Code(&'static [u8]),
    // This many steps give this answer.
    Answer(u64, CpuStep),
    // The program counter, and how many steps were taken.
    At(u64, u64),
    // Eleven steps give this answer, and each leaves the program counter and the number of steps so.
    Stay(CpuStep, u64, u64),
    // A register holds a word.
    Hold(u8, u64),
    // This is all that was written.
    Write(&'static [u8]),
    // This many writes failed.
    Fail(u64),
    // Not all of the eight bytes at an address lie in one part of the memory.
    Lack(u64),
}

// A target, its code, the number of the write that fails or 0, and what is done and asked.
type Run = (Target, &'static [u8], u64, &'static [Act]);

// addi x10, x0, 65; addi x9, x1, 0; lui x6, 0x0ff00; jalr x1, [x6+32]; jalr x0, [x9]
const CALL: &[u8] = &[
    0x13, 0x05, 0x10, 0x04, 0x93, 0x84, 0x00, 0x00, 0x37, 0x03, 0xf0, 0x0f, 0xe7, 0x00, 0x03, 0x02,
    0x67, 0x80, 0x04, 0x00,
];

const RUNS: &[Run] = &[
    // the code writes a letter and ends, and stays at its end
    (
        Target::Riscv64,
        CALL,
        0,
        &[
            Act::Hold(10, 1),
            Act::Answer(5, CpuStep::Went),
            Act::Write(b"A"),
            Act::Hold(10, 65),
            Act::Hold(6, TRASH),
            Act::Hold(9, 0x0fe0_0000),
            Act::Answer(2, CpuStep::Ended(0)),
            Act::At(0x0fe0_0000, 6),
        ],
    ),
    // the format "%d%d%d%d%d%d%d%d", the last of which number lies in a stack word, and a stack without one
    (
        Target::Riscv64,
        &[],
        0,
        &[
            Act::Store(0x2000_0000, 2, 0x6425),
            Act::Store(0x2000_0002, 2, 0x6425),
            Act::Store(0x2000_0004, 2, 0x6425),
            Act::Store(0x2000_0006, 2, 0x6425),
            Act::Store(0x2000_0008, 2, 0x6425),
            Act::Store(0x2000_000a, 2, 0x6425),
            Act::Store(0x2000_000c, 2, 0x6425),
            Act::Store(0x2000_000e, 2, 0x6425),
            Act::Set(10, 0x2000_0000),
            Act::Set(11, 1),
            Act::Set(12, 2),
            Act::Set(13, 3),
            Act::Set(14, 4),
            Act::Set(15, 5),
            Act::Set(16, 6),
            Act::Set(17, 7),
            Act::Jump(PRINTF),
            Act::Answer(1, CpuStep::Fault(FaultKind::Host)),
            Act::Set(2, 0x3fff_fff0),
            Act::Store(0x3fff_fff0, 8, 8),
            Act::Jump(PRINTF),
            Act::Answer(1, CpuStep::Ended(0)),
            Act::Write(b"12345678"),
        ],
    ),
    // a write that fails is reported again and again where it failed, and the processor goes on with other code
    (
        Target::Riscv64,
        &[],
        1,
        &[
            Act::Jump(PRINTF + 32),
            Act::Answer(1, CpuStep::WriteFault),
            Act::At(PRINTF + 32, 0),
            Act::Fail(1),
            Act::Answer(1, CpuStep::WriteFault),
            Act::At(PRINTF + 32, 0),
            Act::Fail(1),
            Act::Code(&[0x13, 0, 0, 0]),
            Act::Jump(CODE),
            Act::Answer(1, CpuStep::Went),
            Act::Answer(1, CpuStep::Fault(FaultKind::Fetch)),
            Act::Lack(0x2000_003c),
        ],
    ),
    // nop, and a jump to it, go round for a thousand steps
    (
        Target::X86_64,
        &[0x90, 0xeb, 0xfd],
        0,
        &[Act::Answer(1_000, CpuStep::Went), Act::At(CODE, 1_000)],
    ),
    // bytes of no row, and none
    (
        Target::X86_64,
        &[0, 0, 0, 0],
        0,
        &[
            Act::Answer(0, CpuStep::Went),
            Act::Stay(CpuStep::Fault(FaultKind::Decode), CODE, 0),
        ],
    ),
    (
        Target::Aarch64,
        &[0, 0, 0, 0],
        0,
        &[
            Act::Answer(0, CpuStep::Went),
            Act::Stay(CpuStep::Fault(FaultKind::Decode), CODE, 0),
        ],
    ),
    (
        Target::Riscv64,
        &[0, 0, 0, 0],
        0,
        &[
            Act::Answer(0, CpuStep::Went),
            Act::Stay(CpuStep::Fault(FaultKind::Decode), CODE, 0),
        ],
    ),
    (
        Target::X86_64,
        &[],
        0,
        &[
            Act::Answer(0, CpuStep::Went),
            Act::Stay(CpuStep::Fault(FaultKind::Fetch), CODE, 0),
        ],
    ),
    (
        Target::Aarch64,
        &[],
        0,
        &[
            Act::Answer(0, CpuStep::Went),
            Act::Stay(CpuStep::Fault(FaultKind::Fetch), CODE, 0),
        ],
    ),
    (
        Target::Riscv64,
        &[],
        0,
        &[
            Act::Answer(0, CpuStep::Went),
            Act::Stay(CpuStep::Fault(FaultKind::Fetch), CODE, 0),
        ],
    ),
    // nop, with nothing after it
    (
        Target::X86_64,
        &[0x90],
        0,
        &[
            Act::Answer(1, CpuStep::Went),
            Act::Stay(CpuStep::Fault(FaultKind::Fetch), CODE + 1, 1),
        ],
    ),
    (
        Target::Aarch64,
        &[0x1f, 0x20, 0x03, 0xd5],
        0,
        &[
            Act::Answer(1, CpuStep::Went),
            Act::Stay(CpuStep::Fault(FaultKind::Fetch), CODE + 4, 1),
        ],
    ),
    (
        Target::Riscv64,
        &[0x13, 0, 0, 0],
        0,
        &[
            Act::Answer(1, CpuStep::Went),
            Act::Stay(CpuStep::Fault(FaultKind::Fetch), CODE + 4, 1),
        ],
    ),
    // a register gets 0, and a jump goes there
    (
        Target::X86_64,
        &[0xb8, 0, 0, 0, 0, 0xff, 0xe0],
        0,
        &[
            Act::Answer(2, CpuStep::Went),
            Act::Stay(CpuStep::Fault(FaultKind::Fetch), 0, 2),
        ],
    ),
    (
        Target::Aarch64,
        &[0x00, 0x00, 0x80, 0xd2, 0x00, 0x00, 0x1f, 0xd6],
        0,
        &[
            Act::Answer(2, CpuStep::Went),
            Act::Stay(CpuStep::Fault(FaultKind::Fetch), 0, 2),
        ],
    ),
    (
        Target::Riscv64,
        &[0x93, 0x02, 0x00, 0x00, 0x67, 0x80, 0x02, 0x00],
        0,
        &[
            Act::Answer(2, CpuStep::Went),
            Act::Stay(CpuStep::Fault(FaultKind::Fetch), 0, 2),
        ],
    ),
    // a register gets 8, and is stored there, which is in no part
    (
        Target::X86_64,
        &[0xb8, 8, 0, 0, 0, 0x48, 0x89, 0x40, 0x00],
        0,
        &[
            Act::Answer(1, CpuStep::Went),
            Act::Stay(CpuStep::Fault(FaultKind::Memory), CODE + 5, 1),
        ],
    ),
    (
        Target::Aarch64,
        &[0x00, 0x01, 0x80, 0xd2, 0x00, 0x00, 0x00, 0xf9],
        0,
        &[
            Act::Answer(1, CpuStep::Went),
            Act::Stay(CpuStep::Fault(FaultKind::Memory), CODE + 4, 1),
        ],
    ),
    (
        Target::Riscv64,
        &[0x93, 0x02, 0x80, 0x00, 0x23, 0xb0, 0x52, 0x00],
        0,
        &[
            Act::Answer(1, CpuStep::Went),
            Act::Stay(CpuStep::Fault(FaultKind::Memory), CODE + 4, 1),
        ],
    ),
];

// A processor of a target, with 64 bytes of data.
fn processor(alloc: Global, target: Target, code: &[u8]) -> Result<Cpu, OutOfMemory>
    requires { length code.now ≤ 64 }
{
    let code = CodeBytes::of(alloc, code)?;
    let image = DataImage::of(alloc, &[0; 64])?;
    let args = ArgImage::of(alloc, &ARGS)?;
    Cpu::new(alloc, target, &code, &image, &args, TRASH)
}

// A step of a processor that has taken few.
fn step(cpu: &mut Cpu, out: &mut MemorySink) -> CpuStep {
    if cpu.steps() < 10_000 {
        cpu.step(out)
    } else {
        CpuStep::Went
    }
}

// Returns whether this many steps give this answer.
fn answers(cpu: &mut Cpu, out: &mut MemorySink, steps: u64, answer: CpuStep) -> bool {
    for _ in 0..steps {
        if step(cpu, out) != answer {
            return false;
        }
    }
    true
}

// Returns whether eleven steps give this answer, and each leaves the program counter and the number of steps so.
fn stays(cpu: &mut Cpu, out: &mut MemorySink, answer: CpuStep, place: (u64, u64)) -> bool {
    for _ in 0..11 {
        if step(cpu, out) != answer || (cpu.pc(), cpu.steps()) != place {
            return false;
        }
    }
    true
}

// Replaces the code, where there is memory.
fn replace(alloc: Global, cpu: &mut Cpu, code: &[u8]) -> bool {
    if code.len() > 64 {
        return false;
    }
    match CodeBytes::of(alloc, code) {
        Ok(code) => {
            cpu.set_code(code);
            true
        }
        Err(_) => false,
    }
}

// Returns whether something that is asked is so.
fn is_so(cpu: &Cpu, out: &MemorySink, act: &Act) -> bool {
    match act {
        Act::At(pc, steps) => (cpu.pc(), cpu.steps()) == (*pc, *steps),
        Act::Hold(number, word) if *number < 32 => cpu.register(*number) == *word,
        Act::Write(bytes) => out.bytes() == *bytes,
        Act::Fail(writes) => out.faults() == *writes,
        Act::Lack(address) => cpu.load(*address, 8) == None,
        _ => false,
    }
}

// Does what is to be done, where that can be, or says whether what is asked is so.
fn holds(alloc: Global, cpu: &mut Cpu, out: &mut MemorySink, act: &Act) -> bool {
    match act {
        Act::Set(number, word) if *number < 32 => {
            cpu.set_register(*number, *word);
            true
        }
        Act::Store(address, width @ (2 | 8), word) => cpu.store(*address, *width, *word),
        Act::Jump(pc) => {
            cpu.set_pc(*pc);
            true
        }
        Act::Code(code) => replace(alloc, cpu, code),
        Act::Answer(steps, answer) => answers(cpu, out, *steps, *answer),
        Act::Stay(answer, pc, steps) => stays(cpu, out, *answer, (*pc, *steps)),
        _ => is_so(cpu, out, act),
    }
}

// Returns whether all of this is done and so, one after the other.
fn hold(alloc: Global, cpu: &mut Cpu, out: &mut MemorySink, acts: &[Act]) -> bool {
    for act in acts {
        if !holds(alloc, cpu, out, act) {
            return false;
        }
    }
    true
}

fn runs(alloc: Global, run: &Run) -> Result<bool, OutOfMemory> {
    let (target, code, fails, acts) = run;
    if code.len() > 64 {
        return Ok(false);
    }
    let mut cpu = processor(alloc, *target, code)?;
    let mut out = MemorySink::new(alloc, 64, &[*fails])?;
    Ok(hold(alloc, &mut cpu, &mut out, acts))
}

// Whether all runs are so.
fn all_run(alloc: Global) -> Result<bool, OutOfMemory> {
    for run in RUNS {
        if !runs(alloc, run)? {
            return Ok(false);
        }
    }
    Ok(true)
}

#[test]
fn runs_as_the_table_says(rt: HostRuntime) -> Result<(), Fail> {
    assert!(rt; all_run(rt.alloc())?);
    Ok(())
}
