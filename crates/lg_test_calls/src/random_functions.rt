// Random functions that are called from outside: each is compiled for a target and called some times over one memory, and so is its meaning, which has to return
// the same words.

ghost use Rattle.std.specs.Prelude.{◌<◌};
ghost use Rattle.lg_mean.specs.Machines.{state_of};
ghost use Rattle.lg_mean.specs.Programs.{IsTableOf};
ghost use Rattle.lg_meaning.specs.Fits.{Fits};
ghost use Rattle.lg_node.specs.Shapes.{IsShapeOf};
ghost use Rattle.lg_tst.specs.Answers.{IsWhole};

use crate::called::{Convention, End, convention_of};
use crate::disturbed::{ROOM, unit_of};
use crate::entered::{call, code_with, shape_of, target_of};
use crate::held::{meaning_of, start};
use lg_asm::Code;
use lg_base::{OutOfMemory, Stop};
use lg_cpu::Cpu;
use lg_io::MemorySink;
use lg_mean::{Portable, RunEnd};
use lg_node::{Label, Shape, Unit};
use lg_tally::{Random, count};
use std::alloc::Global;
use std::io;

// How many functions are made, and how often each is called.
const FUNCTIONS: u64 = 300;

const CALLS: u64 = 4;

// The most steps of the meaning of a call.
const MOST: u64 = 10_000;

// The label of the function of a text, which mentions it second.
const FUNCTION: Label = Label(1);

const REGISTERS: [&str; 6] = ["%r0", "%r1", "%r2", "%v0", "%v1", "%v2"];

const OPERATIONS: [&str; 8] = ["add", "sub", "mul", "and", "or", "xor", "lt", "ne"];

// A register.
fn register(random: &mut Random) -> &'static str {
    REGISTERS[random.below(6)]
}

// Adds pieces to a text.
fn push_all(text: &mut String, pieces: &[&str]) -> Result<(), OutOfMemory> {
    for piece in pieces {
        text.push_str(piece)?;
    }
    Ok(())
}

// Adds a number and a line feed to a text.
fn push_number(alloc: Global, text: &mut String, number: u64) -> Result<(), OutOfMemory> {
    let line = format!(in alloc; "{number}\n")?;
    text.push_str(&line)?;
    Ok(())
}

// Adds a line of a function's body: an operation on registers or with a number, a shift, or a store and a load of a word of the data part.
fn push_line(alloc: Global, text: &mut String, random: &mut Random) -> Result<(), OutOfMemory> {
    let to = register(random);
    let from = register(random);
    let operation = OPERATIONS[random.below(8)];
    match random.below(4) {
        0 => push_all(
            text,
            &[operation, "r ", to, " ", from, " ", register(random), "\n"],
        ),
        1 => {
            push_all(text, &[operation, "i ", to, " ", from, " "])?;
            push_number(alloc, text, random.word())
        }
        2 => {
            push_all(text, &["rshi ", to, " ", from, " "])?;
            push_number(alloc, text, random.below(64) as u64)
        }
        _ => push_all(
            text,
            &[
                "sti word ",
                from,
                " addi ",
                from,
                " ",
                from,
                " 1 ldi ",
                to,
                " word\n",
            ],
        ),
    }
}

// Adds what gives a register a word: one of this many arguments, or a number where there is none.
fn push_word(
    alloc: Global,
    text: &mut String,
    random: &mut Random,
    register: &str,
    arguments: usize,
) -> Result<(), OutOfMemory> {
    if arguments == 0 {
        push_all(text, &["movi ", register, " "])?;
        push_number(alloc, text, random.word())
    } else {
        push_all(text, &["getarg ", register, " $a"])?;
        push_number(alloc, text, random.below(arguments) as u64)
    }
}

// Adds what gives each register a word.
fn push_words(
    alloc: Global,
    text: &mut String,
    random: &mut Random,
    arguments: usize,
) -> Result<(), OutOfMemory> {
    for number in 0..arguments {
        push_all(text, &["arg $a"])?;
        push_number(alloc, text, number as u64)?;
    }
    for register in REGISTERS {
        push_word(alloc, text, random, register, arguments)?;
    }
    Ok(())
}

// Adds a function with this many arguments to a text.
fn push_function(
    alloc: Global,
    text: &mut String,
    random: &mut Random,
    arguments: usize,
) -> Result<(), OutOfMemory> {
    push_words(alloc, text, random, arguments)?;
    for _line in 0..16 {
        push_line(alloc, text, random)?;
    }
    push_all(text, &["retr ", register(random), "\nepilog\n"])
}

// Returns the text of a function with this many arguments.
fn text_of(alloc: Global, random: &mut Random, arguments: usize) -> Result<String, OutOfMemory> {
    let mut text = String::from_str(alloc, ".data 8\nword: .l 1\n.code\nfunction: prolog\n")?;
    push_function(alloc, &mut text, random, arguments)?;
    Ok(text)
}

// Returns some random words, small ones and large ones.
fn words_of(alloc: Global, random: &mut Random, number: usize) -> Result<Vec<u64>, OutOfMemory> {
    let mut words = Vec::new(alloc);
    for _word in 0..number {
        let shift = random.below(64);
        words.push(random.word() >> shift)?;
    }
    Ok(words)
}

// How the meaning of a call ends: with the word that it returns, or otherwise.
fn meant(
    machine: &mut Portable,
    unit: &Unit,
    shape: &Shape,
    words: &[u64],
    out: &mut MemorySink,
) -> End
    requires made { IsTableOf unit.now.nodes shape.now machine.old.labels }
    requires fits { Fits unit.now.nodes shape.now (state_of machine.old.machine) }
    ensures made { IsTableOf unit.now.nodes shape.now machine.new.labels }
    ensures fits { Fits unit.now.nodes shape.now (state_of machine.new.machine) }
{
    if machine.steps() > MOST * 1000 || !machine.enter(unit, shape, FUNCTION, words) {
        return End::Otherwise;
    }
    match machine.run(unit, shape, MOST, out) {
        RunEnd::Ended(_) => match machine.result(unit, shape) {
            Some(word) => End::Returned(word),
            None => End::Otherwise,
        },
        _ => End::Otherwise,
    }
}

// Calls the function some times, on the processor and in the meaning, and returns whether both return the same words.
fn calls_agree(
    alloc: Global,
    random: &mut Random,
    number: usize,
    unit: &Unit,
    shape: &Shape,
    address: u64,
    convention: Convention,
    machine: &mut Portable,
    cpu: &mut Cpu,
) -> Result<bool, OutOfMemory>
    requires made { IsTableOf unit.now.nodes shape.now machine.old.labels }
    requires fits { Fits unit.now.nodes shape.now (state_of machine.old.machine) }
    requires stack { convention.stack < 32 }
    requires result { convention.result < 32 }
{
    let mut out = MemorySink::new(alloc, ROOM, &[])?;
    let mut agree = true;
    for state in 0..CALLS {
        let words = words_of(alloc, random, number)?;
        let wanted = meant(machine, unit, shape, &words, &mut out);
        let end = call(cpu, convention, state, address, &words, &mut out);
        agree = agree && end == wanted && matches!(end, End::Returned(_));
    }
    Ok(agree)
}

// The same of the code of a unit, on a new processor and from the start of its meaning.
fn code_agrees(
    alloc: Global,
    unit: &Unit,
    shape: &Shape,
    code: &Code,
    convention: Convention,
    number: usize,
    random: &mut Random,
) -> Result<bool, Stop>
    requires shape { IsShapeOf unit.now.nodes shape.now }
    requires whole { IsWhole unit.now }
    requires stack { convention.stack < 32 }
    requires result { convention.result < 32 }
{
    let address = code
        .labels()
        .as_slice()
        .get(FUNCTION.0 as usize)
        .copied()
        .unwrap_or(0);
    let mut meant = meaning_of(alloc, unit, shape)?;
    let mut started = start(alloc, code, unit, "")?;
    Ok(calls_agree(
        alloc,
        random,
        number,
        unit,
        shape,
        address,
        convention,
        &mut meant.machine,
        &mut started.cpu,
    )?)
}

// Compiles a unit for a target, and returns whether its function agrees with its meaning.
fn unit_agrees(
    alloc: Global,
    unit: &Unit,
    target: &str,
    number: usize,
    random: &mut Random,
) -> Result<bool, Stop>
    requires { IsWhole unit.now }
{
    let checked = shape_of(alloc, unit)?;
    let assembled = code_with(alloc, unit, target_of(target), &[FUNCTION])?;
    code_agrees(
        alloc,
        unit,
        &checked.shape,
        &assembled.code,
        convention_of(target),
        number,
        random,
    )
}

// The same of a text.
fn text_agrees(
    alloc: Global,
    text: &str,
    target: &str,
    number: usize,
    random: &mut Random,
) -> Result<bool, Stop> {
    let parsed = unit_of(alloc, text.as_bytes())?;
    unit_agrees(alloc, &parsed.unit, target, number, random)
}

// Returns whether the next random function agrees with its meaning.
fn next_agrees(alloc: Global, target: &str, random: &mut Random) -> Result<bool, Stop> {
    let number = random.below(17);
    let text = text_of(alloc, random, number)?;
    text_agrees(alloc, text.as_str(), target, number, random)
}

/// Calls random functions on each target of a list, and prints how many always return the words that they mean.
pub fn call_random_functions(rt: &HostRuntime, targets: &str) -> io::Result<()> {
    for target in targets.lines() {
        let mut random = Random { state: 1 };
        let mut right = 0;
        for _function in 0..FUNCTIONS {
            if next_agrees(rt.alloc(), target, &mut random).unwrap_or(false) {
                count(&mut right);
            }
        }
        println!(rt; "{target}: {right} of {FUNCTIONS} random functions return what they mean")?;
    }
    Ok(())
}
