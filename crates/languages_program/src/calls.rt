// Functions of the stack language that the host calls: a text is compiled once, and each of its functions is called with words by the convention of the target.

ghost use Rattle.std.specs.Prelude.{◌≤◌, length, IfOk};
ghost use Rattle.lg_asm.specs.Addresses.{AreInside};
ghost use Rattle.lg_base.specs.Layout.{most_code};

use crate::code::code_with;
use crate::run::args_of;
use crate::stack::program_of;
use crate::targets::TARGETS;
use crate::trouble::{Trouble, print_trouble};
use lg_asm::Code;
use lg_base::{DataImage, OutOfMemory, Stop, Target};
use lg_cpu::{Cpu, CpuStep};
use lg_io::MemorySink;
use lg_node::Label;
use lg_stack_language::{Function, Program};
use std::alloc::Global;
use std::io;

// What registers hold at first. Code runs the same whatever it is.
const ANYTHING: u64 = 0x5A5A_5A5A_5A5A_5A5A;

// The most steps of a call.
const MOST_STEPS: u64 = 1_000_000;

// Returns the label of the function that a line calls: its first word is the name.
fn label_of(functions: &[Function], line: &str) -> Option<Label> {
    let name = line.split(' ').next().unwrap_or("");
    for function in functions {
        if function.name == name {
            return Some(function.label);
        }
    }
    None
}

// Returns the labels of the functions that some lines call.
fn entries_of(
    alloc: Global,
    functions: &[Function],
    lines: &str,
) -> Result<Vec<Label>, OutOfMemory> {
    let mut entries = Vec::new(alloc);
    for line in lines.lines() {
        if let Some(label) = label_of(functions, line) {
            entries.push(label)?;
        }
    }
    Ok(entries)
}

// Returns the numbers of a line, after the name.
fn words_in(alloc: Global, line: &str) -> Result<Vec<u64>, OutOfMemory> {
    let mut words = Vec::new(alloc);
    for word in line.split(' ') {
        if let Ok(number) = str::parse::<u64>(word) {
            words.push(number)?;
        }
    }
    Ok(words)
}

// Calls the function at an address with some words: the word that it returns, or None where it does not return.
fn call(cpu: &mut Cpu, address: u64, words: &[u64], out: &mut MemorySink) -> Option<u64> {
    if !cpu.enter(address, words) || cpu.steps() > MOST_STEPS * 1000 {
        return None;
    }
    match cpu.run(MOST_STEPS, out) {
        CpuStep::Ended(_) => Some(cpu.result()),
        _ => None,
    }
}

// Returns a processor of code with a data part.
fn processor_of(alloc: Global, code: &Code, image: &DataImage) -> Result<Cpu, Stop>
    requires code { length code.now.bytes ≤ most_code }
    requires image { length image.now ≤ 0x1000000 }
{
    let args = args_of(alloc, "")?;
    let cpu = Cpu::new(alloc, code.target(), code.bytes(), image, &args, ANYTHING)?;
    Ok(cpu)
}

// Makes the call of a line on a processor, and prints the word that it returns.
fn print_call(
    rt: &HostRuntime,
    cpu: &mut Cpu,
    address: u64,
    line: &str,
    out: &mut MemorySink,
) -> io::Result<()> {
    match words_in(rt.alloc(), line) {
        Ok(words) => match call(cpu, address, &words, out) {
            Some(word) => println!(rt; "  {line}: {word}"),
            None => println!(rt; "  {line}: no word"),
        },
        Err(error) => print_trouble(rt, &Trouble::Stop(Stop::from(error))),
    }
}

// Makes the calls of the lines on one processor.
fn print_calls(
    rt: &HostRuntime,
    functions: &[Function],
    code: &Code,
    cpu: &mut Cpu,
    lines: &str,
    out: &mut MemorySink,
) -> io::Result<()> {
    for line in lines.lines() {
        let label = label_of(functions, line).unwrap_or(Label(0));
        let address = code.labels().as_slice().get(label.0 as usize);
        print_call(rt, cpu, address.copied().unwrap_or(0), line, out)?;
    }
    Ok(())
}

// The same on a new processor of the code of a program.
fn call_code(rt: &HostRuntime, program: &Program, code: &Code, lines: &str) -> io::Result<()>
    requires code { length code.now.bytes ≤ most_code }
    requires image { length program.now.unit.image ≤ 0x1000000 }
{
    let made = processor_of(rt.alloc(), code, &program.unit.image);
    match (made, MemorySink::new(rt.alloc(), 0, &[])) {
        (Ok(mut cpu), Ok(mut out)) => {
            print_calls(rt, &program.functions, code, &mut cpu, lines, &mut out)
        }
        (Err(stop), _) => print_trouble(rt, &Trouble::Stop(stop)),
        (_, Err(error)) => print_trouble(rt, &Trouble::Stop(Stop::from(error))),
    }
}

// Returns the code of a program for a target, whose functions that the lines name are called from outside.
fn code_for(alloc: Global, program: &Program, target: Target, lines: &str) -> Result<Code, Stop>
    requires { AreInside program.now.unit.nodes (length program.now.unit.image) }
    ensures { IfOk result (λ c. length c.bytes ≤ most_code) }
{
    let entries = entries_of(alloc, &program.functions, lines)?;
    code_with(alloc, &program.unit, target, &entries)
}

// Makes the calls of the lines on the code of a program for a target.
fn call_on(rt: &HostRuntime, program: &Program, target: Target, lines: &str) -> io::Result<()>
    requires { AreInside program.now.unit.nodes (length program.now.unit.image) }
{
    match code_for(rt.alloc(), program, target, lines) {
        Ok(code) => call_code(rt, program, &code, lines),
        Err(stop) => print_trouble(rt, &Trouble::Stop(stop)),
    }
}

// The same on each target.
fn call_program(rt: &HostRuntime, program: &Program, lines: &str) -> io::Result<()>
    requires { AreInside program.now.unit.nodes (length program.now.unit.image) }
{
    for (target, name) in TARGETS {
        println!(rt; "{name}")?;
        call_on(rt, program, *target, lines)?;
    }
    Ok(())
}

/// Compiles a text, and calls its functions on each target: each line has the name of one and the words that it is called with.
pub fn call_functions(rt: &HostRuntime, text: &str, lines: &str) -> io::Result<()> {
    match program_of(rt.alloc(), text) {
        Ok(program) => call_program(rt, &program, lines),
        Err(trouble) => print_trouble(rt, &trouble),
    }
}
