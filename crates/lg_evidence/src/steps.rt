// What comes of a line on a run of few steps.

use crate::case::{Case, Item, parse_case, parse_item};
use crate::processor::{CODE, TRASH, run, set_code};
use lg_base::{Flags, OutOfMemory, Target};
use lg_cpu::{Cpu, CpuStep};
use lg_tally::Outcome;
use std::alloc::{AllocError, Global};

// Where a run is, but for its memory.
#[derive(Clone, Copy)]
struct State {
    pc: u64,
    steps: u64,
    registers: [u64; 32],
    flags: [Option<bool>; 4],
}

// What a run came to: what its last step answered, where it is, and whether all is as expected.
#[derive(Clone, Copy)]
struct Stands {
    answer: CpuStep,
    found: State,
    is_as_wanted: bool,
}

// What is done with a number in memory that an item names.
#[derive(Clone, Copy)]
enum Use {
    Store,
    Compare,
    Clear,
}

/// What comes of a line on a run of few steps of a target, on a processor that is set up anew for it.
pub fn step_outcome(
    alloc: Global,
    target: Target,
    cpu: &mut Cpu,
    line: &str,
) -> Result<Outcome, OutOfMemory> {
    let Some(case) = parse_case(line) else {
        return Ok(Outcome::unread(alloc)?);
    };
    if !begin(alloc, target, cpu, &case)? {
        return Ok(Outcome::unread(alloc)?);
    }
    let stands = go(alloc, target, cpu, &case)?;
    Ok(told(alloc, &stands)?)
}

// Sets up a run, where the case is of the form.
fn begin(
    alloc: Global,
    target: Target,
    cpu: &mut Cpu,
    case: &Case<'_>,
) -> Result<bool, AllocError> {
    match set_up(target, cpu, case.before) {
        Some(start) => {
            cpu.set_pc(start);
            set_code(alloc, cpu, start, case.hex)
        }
        None => Ok(false),
    }
}

// Runs a case that is set up, and sets the memory that it names to 0.
fn go(
    alloc: Global,
    target: Target,
    cpu: &mut Cpu,
    case: &Case<'_>,
) -> Result<Stands, OutOfMemory> {
    let before = state_of(cpu, 0);
    let answer = run(alloc, cpu, case.steps)?;
    let found = state_of(cpu, before.steps);
    let mut wanted = State {
        pc: 0,
        steps: 1,
        ..before
    };
    let is_memory = go_over(target, cpu, &mut wanted, case.after, Use::Compare);
    let is_as_wanted = is_memory && name_of(answer) == case.answer && are_alike(&found, &wanted);
    go_over(target, cpu, &mut wanted, case.before, Use::Clear);
    go_over(target, cpu, &mut wanted, case.after, Use::Clear);
    Ok(Stands {
        answer,
        found,
        is_as_wanted,
    })
}

fn are_alike(found: &State, wanted: &State) -> bool {
    found.pc == wanted.pc
        && found.steps == wanted.steps
        && found.registers == wanted.registers
        && found.flags == wanted.flags
}

// Where the processor is, and how many steps it has taken after this many.
fn state_of(cpu: &Cpu, steps: u64) -> State {
    let mut registers = [0; 32];
    for number in 0..32u8 {
        registers[number as usize] = cpu.register(number);
    }
    State {
        pc: cpu.pc(),
        steps: cpu.steps().saturating_sub(steps),
        registers,
        flags: flags(cpu),
    }
}

// the flags at the start of a run: those of AArch64 are the low bits of the trash word
fn first_flags(target: Target) -> [Option<bool>; 4] {
    match target {
        Target::Aarch64 => [Some(true), Some(false), Some(true), Some(false)],
        _ => [None; 4],
    }
}

fn set_flags(target: Target, cpu: &mut Cpu, flags: [Option<bool>; 4]) {
    let [a, b, c, d] = flags;
    let yes = Some(true);
    match target {
        Target::X86_64 => cpu.set_flags(Flags::Rflags {
            carry: a,
            overflow: b,
            zero: c,
            sign: d,
        }),
        Target::Aarch64 => cpu.set_flags(Flags::Nzcv {
            negative: a == yes,
            zero: b == yes,
            carry: c == yes,
            overflow: d == yes,
        }),
        Target::Riscv64 => {}
    }
}

fn flags(cpu: &Cpu) -> [Option<bool>; 4] {
    match cpu.flags() {
        Flags::NoFlags => [None; 4],
        Flags::Nzcv {
            negative,
            zero,
            carry,
            overflow,
        } => [Some(negative), Some(zero), Some(carry), Some(overflow)],
        Flags::Rflags {
            sign,
            zero,
            carry,
            overflow,
        } => [carry, overflow, zero, sign],
    }
}

// Sets what IN names, and gives the first program counter, where IN is of the form: it names no count of steps.
fn set_up(target: Target, cpu: &mut Cpu, items: &str) -> Option<u64> {
    let mut state = State {
        pc: CODE,
        steps: 0,
        registers: [TRASH; 32],
        flags: first_flags(target),
    };
    let is_set = items == "-" || go_over(target, cpu, &mut state, items, Use::Store);
    if !is_set {
        return None;
    }
    for number in 0..32u8 {
        cpu.set_register(number, state.registers[number as usize]);
    }
    set_flags(target, cpu, state.flags);
    Some(state.pc)
}

// Puts what items name into a state, and uses the memory that they name: whether all are of the form, and all memory can be used so.
fn go_over(target: Target, cpu: &mut Cpu, state: &mut State, items: &str, how: Use) -> bool {
    let mut are_used = true;
    for text in items.split(' ') {
        if !is_used(target, cpu, state, text, how) {
            are_used = false;
        }
    }
    are_used
}

// The same of one item. A count of steps may be in OUT alone.
fn is_used(target: Target, cpu: &mut Cpu, state: &mut State, text: &str, how: Use) -> bool {
    match parse_item(target, text) {
        Some(
            Item::Bytes {
                width,
                address,
                value,
            },
        ) => are_bytes_used(cpu, (width, address), value, how),
        Some(Item::Steps(_)) if matches!(how, Use::Store) => false,
        Some(item) => is_put(state, item),
        None => false,
    }
}

// Puts an item that is not in memory into a state, where it can be put there.
fn is_put(state: &mut State, item: Item) -> bool {
    match item {
        Item::Pc(pc) => state.pc = pc,
        Item::Steps(steps) => state.steps = steps,
        Item::Register { number, value } if number < 32 => {
            state.registers[number as usize] = value;
        }
        Item::Flag { number, value } if number < 4 => state.flags[number as usize] = value,
        _ => return false,
    }
    true
}

// Uses a number in memory, of a width at an address: whether it could be set, or is so.
fn are_bytes_used(cpu: &mut Cpu, (width, address): (u32, u64), value: u64, how: Use) -> bool {
    match width {
        1 | 2 | 4 | 8 => match how {
            Use::Store => cpu.store(address, width, value),
            Use::Compare => cpu.load(address, width) == Some(value),
            Use::Clear => cpu.store(address, width, 0),
        },
        _ => false,
    }
}

/// Returns the outcome of a step, as the evidence writes it.
pub fn name_of(answer: CpuStep) -> &'static str {
    match answer {
        CpuStep::Went => "Went",
        CpuStep::Ended(_) => "Ended",
        CpuStep::Fault(kind) => kind.name(),
        CpuStep::WriteFault => "WriteFault",
    }
}

// What a run came to, in words where that is not as expected.
fn told(alloc: Global, stands: &Stands) -> Result<Outcome, AllocError> {
    if stands.is_as_wanted {
        return Ok(Outcome::Agrees);
    }
    let mut text = String::new(alloc);
    write_stands(&mut text, name_of(stands.answer), &stands.found)?;
    Ok(Outcome::Differs(text))
}

fn write_stands(text: &mut String, name: &str, found: &State) -> Result<(), AllocError> {
    write!(text, "{name} steps={} pc={:x}", found.steps, found.pc)?;
    for number in 0..32usize {
        let value = found.registers[number];
        if value != TRASH {
            write!(text, " x{number}={value:x}")?;
        }
    }
    Ok(())
}
