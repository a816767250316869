// Calls code by its target's calling convention, from 32 states in which every register that is not part of the call holds another word, and compares what its
// caller relies on: where it returns, control is at the return address, the stack pointer is that of the call, the callee-saved registers hold what they held,
// and the result register has the text's result. Where a host function ends it, control is at that function's entry. Register numbers are those of the
// conventions' documents: System V for x86-64 (rbx, rbp, r12 to r15), AAPCS64 (x19 to x29), and the RISC-V calling convention (s0 to s11).

ghost use Rattle.std.specs.Prelude.{◌<◌};

use crate::disturbed::{MOST_STEPS, ROOM, code_of, unit_of};
use crate::held::start;
use lg_asm::Code;
use lg_base::{HostName, Stop};
use lg_cpu::{Cpu, CpuStep};
use lg_io::MemorySink;
use lg_node::Unit;
use lg_tally::count;
use std::alloc::Global;
use std::{fs, io};

// The return address of the entry.
const RETURN: u64 = 0x0FE0_0000;

// From how many states a text is called.
const STATES: u64 = 32;

// The registers of a calling convention: the stack pointer, those that a call sets besides (the return address and two arguments), the result, and those that
// the callee saves.
#[derive(Clone, Copy)]
pub(crate) struct Convention {
    pub(crate) stack: u8,
    set: &'static [u8],
    pub(crate) result: u8,
    saved: &'static [u8],
    popped: u64,
}

/// Returns the convention of a target, by its word.
pub(crate) fn convention_of(word: &str) -> Convention
    ensures stack { result.stack < 32 }
    ensures result { result.result < 32 }
{
    match word {
        "x86_64" => Convention {
            stack: 4,
            set: &[7, 6],
            result: 0,
            saved: &[3, 5, 12, 13, 14, 15],
            popped: 8,
        },
        "aarch64" => Convention {
            stack: 31,
            set: &[30, 0, 1],
            result: 0,
            saved: &[19, 20, 21, 22, 23, 24, 25, 26, 27, 28, 29],
            popped: 0,
        },
        _ => Convention {
            stack: 2,
            set: &[1, 10, 11],
            result: 10,
            saved: &[8, 9, 18, 19, 20, 21, 22, 23, 24, 25, 26, 27],
            popped: 0,
        },
    }
}

// Returns the word that a register holds in a state at the call.
fn word(state: u64, register: u8) -> u64 {
    state
        .wrapping_add(1)
        .wrapping_mul(0x9E37_79B9_7F4A_7C15)
        .wrapping_add((register as u64).wrapping_mul(0x0123_4567_89AB_CDEF))
}

// What a register holds, which may be any number.
fn held(cpu: &Cpu, register: u8) -> u64 {
    if register < 32 {
        cpu.register(register)
    } else {
        0
    }
}

/// Puts a word into each register that the call does not set.
pub(crate) fn fill(cpu: &mut Cpu, convention: Convention, state: u64) {
    for register in 0..32u8 {
        if register != convention.stack && !convention.set.contains(&register) {
            cpu.set_register(register, word(state, register));
        }
    }
}

/// How a call ended.
#[derive(Clone, Copy, PartialEq)]
pub(crate) enum End {
    Returned(u64),
    Exited,
    Otherwise,
}

// Returns whether the callee-saved registers hold what they held at the call.
fn are_kept(cpu: &Cpu, convention: Convention, state: u64) -> bool {
    convention
        .saved
        .iter()
        .all(|register| held(cpu, *register) == word(state, *register))
}

/// How the call ended of a processor that has ended, which had this stack pointer.
pub(crate) fn end_of(cpu: &Cpu, convention: Convention, stack: u64, state: u64) -> End
    requires stack { convention.stack < 32 }
    requires result { convention.result < 32 }
{
    if cpu.pc() != RETURN {
        return if HostName::from_address(cpu.pc()).is_some() {
            End::Exited
        } else {
            End::Otherwise
        };
    }
    let popped = stack.wrapping_add(convention.popped);
    if cpu.register(convention.stack) == popped && are_kept(cpu, convention, state) {
        End::Returned(cpu.register(convention.result))
    } else {
        End::Otherwise
    }
}

/// Takes the steps of a call until it has ended.
pub(crate) fn has_ended(cpu: &mut Cpu, out: &mut MemorySink) -> bool {
    for _ in 0..MOST_STEPS {
        if cpu.steps() == u64::MAX {
            return false;
        }
        match cpu.step(out) {
            CpuStep::Went => {}
            over => return matches!(over, CpuStep::Ended(_)),
        }
    }
    false
}

/// How a call from a state ends of a processor that is at its first instruction, and whose registers are filled for it.
pub(crate) fn ending(cpu: &mut Cpu, convention: Convention, state: u64, out: &mut MemorySink) -> End
    requires stack { convention.stack < 32 }
    requires result { convention.result < 32 }
{
    let stack = cpu.register(convention.stack);
    if has_ended(cpu, out) {
        end_of(cpu, convention, stack, state)
    } else {
        End::Otherwise
    }
}

// How the call of code from a state ends.
fn call(
    alloc: Global,
    code: &Code,
    unit: &Unit,
    convention: Convention,
    state: u64,
) -> Result<End, Stop>
    requires stack { convention.stack < 32 }
    requires result { convention.result < 32 }
{
    let mut out = MemorySink::new(alloc, ROOM, &[])?;
    let mut started = start(alloc, code, unit, "")?;
    fill(&mut started.cpu, convention, state);
    Ok(ending(&mut started.cpu, convention, state, &mut out))
}

// Whether the code of a unit ends as it should from every state.
fn ends_so(
    alloc: Global,
    code: &Code,
    unit: &Unit,
    convention: Convention,
    wanted: &str,
) -> Result<bool, Stop>
    requires stack { convention.stack < 32 }
    requires result { convention.result < 32 }
{
    for state in 0..STATES {
        let end = call(alloc, code, unit, convention, state)?;
        if !is_end(end, wanted) {
            return Ok(false);
        }
    }
    Ok(true)
}

/// Returns whether a call ended as a word says: with `exit`, with a return that has no result (`none`), with this number as its result, or
/// otherwise (`otherwise`), as where its meaning is undefined.
pub(crate) fn is_end(end: End, wanted: &str) -> bool {
    match end {
        End::Exited => wanted == "exit",
        End::Returned(value) => wanted == "none" || str::parse::<u64>(wanted) == Ok(value),
        End::Otherwise => wanted == "otherwise",
    }
}

// Whether the code of a text for a target ends as it should.
fn text_ends_so(alloc: Global, target: &str, text: &str, wanted: &str) -> Result<bool, Stop> {
    let parsed = unit_of(alloc, text.as_bytes())?;
    let assembled = code_of(alloc, target, text.as_bytes())?;
    ends_so(
        alloc,
        &assembled.code,
        &parsed.unit,
        convention_of(target),
        wanted,
    )
}

// Calls a text of the table, which has its name and its result in its first line.
fn try_block(rt: &HostRuntime, target: &str, block: &str, right: &mut u64) -> io::Result<()> {
    let (first, text) = block.split_once('\n').unwrap_or((block, ""));
    let (name, wanted) = first.split_once('\t').unwrap_or((first, ""));
    if text_ends_so(rt.alloc(), target, text, wanted).unwrap_or(false) {
        count(right);
        Ok(())
    } else {
        println!(rt; "{target}: {name}: does not end as it should")
    }
}

/// Calls the texts of the table on each target of a list, and prints of how many all calls ended as they should.
pub fn call_texts(rt: &HostRuntime, targets: &str) -> io::Result<()> {
    let texts = fs::read_to_string(rt, "called.txt")?;
    for target in targets.lines() {
        let mut right = 0;
        for block in texts.as_str().split("====\n") {
            try_block(rt, target, block, &mut right)?;
        }
        println!(rt;
            "{target}: {right} texts keep the calling convention from each of {STATES} states"
        )?;
    }
    Ok(())
}
