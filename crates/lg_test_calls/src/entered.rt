// Calls functions of texts from outside, as a host does that compiles a unit once: each text's functions are called one after the other on one processor, over the
// memory that the calls before left. Before each call every register that the call does not set gets another word, and after it the callee-saved ones are looked at.

ghost use Rattle.std.specs.Prelude.{◌<◌, IfOk};
ghost use Rattle.lg_node.specs.Shapes.{IsShapeOf};
ghost use Rattle.lg_tst.specs.Answers.{IsWhole};

use crate::called::{Convention, End, convention_of, ending, fill, is_end};
use crate::disturbed::{ROOM, unit_of};
use crate::held::{Assembled, Checked, start};
use lg_asm::{Code, assemble_with};
use lg_base::{OutOfMemory, Stop, Target};
use lg_cpu::Cpu;
use lg_io::MemorySink;
use lg_node::{Label, Op, Place, PlainOp, Unit, check};
use lg_tally::count;
use std::alloc::Global;
use std::{fs, io};

// The most bytes of code.
const MOST_CODE: u32 = 65_536;

// Returns whether a label is that of a function.
fn is_function(unit: &Unit, label: Label) -> bool {
    match unit.nodes.place_of(label) {
        Some(Place::Node(index)) if index < unit.nodes.len() => {
            matches!(unit.nodes.node(index).op, Op::Plain(PlainOp::Prolog))
        }
        _ => false,
    }
}

// Returns the labels of the functions of a unit, in the order of their first mention.
fn functions_of(alloc: Global, unit: &Unit) -> Result<Vec<Label>, OutOfMemory> {
    let mut functions = Vec::new(alloc);
    for number in 0..unit.nodes.labels() {
        if is_function(unit, Label(number)) {
            functions.push(Label(number))?;
        }
    }
    Ok(functions)
}

// Returns whether the name of a label begins with `inner`.
fn is_inner(unit: &Unit, label: Label) -> bool {
    label.0 < unit.nodes.labels() && unit.nodes.word(label).starts_with(b"inner")
}

// Returns those of some functions that are entries: all but those whose names begin with `inner`.
fn outward_of(alloc: Global, unit: &Unit, functions: &[Label]) -> Result<Vec<Label>, OutOfMemory> {
    let mut entries = Vec::new(alloc);
    for function in functions {
        if !is_inner(unit, *function) {
            entries.push(*function)?;
        }
    }
    Ok(entries)
}

/// Returns the target of a word.
pub(crate) fn target_of(word: &str) -> Target {
    match word {
        "x86_64" => Target::X86_64,
        "aarch64" => Target::Aarch64,
        _ => Target::Riscv64,
    }
}

/// Returns the shape of a unit.
pub(crate) fn shape_of(alloc: Global, unit: &Unit) -> Result<Checked, Stop>
    ensures { IfOk result (λ checked. IsShapeOf unit.now.nodes checked.shape) }
{
    let shape = check(alloc, unit)?;
    Ok(Checked { shape })
}

/// Returns the code of a unit whose functions at these labels are called from outside.
pub(crate) fn code_with(
    alloc: Global,
    unit: &Unit,
    target: Target,
    entries: &[Label],
) -> Result<Assembled, Stop>
    requires { IsWhole unit.now }
{
    let shape = check(alloc, unit)?;
    let code = assemble_with(alloc, unit, &shape, target, MOST_CODE, entries)?;
    Ok(Assembled { code })
}

// Returns the words of a call that are in a line.
fn words_in(alloc: Global, line: &str) -> Result<Vec<u64>, OutOfMemory> {
    let mut words = Vec::new(alloc);
    for word in line.split(' ') {
        if let Ok(number) = str::parse::<u64>(word) {
            words.push(number)?;
        }
    }
    Ok(words)
}

/// How a call of a function at an address ends.
pub(crate) fn call(
    cpu: &mut Cpu,
    convention: Convention,
    state: u64,
    address: u64,
    words: &[u64],
    out: &mut MemorySink,
) -> End
    requires stack { convention.stack < 32 }
    requires result { convention.result < 32 }
{
    fill(cpu, convention, state);
    if cpu.enter(address, words) {
        ending(cpu, convention, state, out)
    } else {
        End::Otherwise
    }
}

// Makes the calls of a line as often as its first word says, and returns whether the last one ended as it should. The second word is the number of the function.
fn make_calls(
    alloc: Global,
    cpu: &mut Cpu,
    addresses: &[u64],
    convention: Convention,
    line: &str,
    out: &mut MemorySink,
) -> Result<bool, OutOfMemory>
    requires stack { convention.stack < 32 }
    requires result { convention.result < 32 }
{
    let (calls, wanted) = line.split_once(" = ").unwrap_or((line, ""));
    let words = words_in(alloc, calls)?;
    let [times, function, arguments @ ..] = words.as_slice() else {
        return Ok(false);
    };
    let Some(address) = addresses.get(*function as usize) else {
        return Ok(false);
    };
    let mut end = End::Otherwise;
    for state in 0..*times {
        end = call(cpu, convention, state, *address, arguments, out);
    }
    Ok(is_end(end, wanted))
}

// Returns the addresses of some of the code's labels.
fn addresses_of(alloc: Global, code: &Code, functions: &[Label]) -> Result<Vec<u64>, OutOfMemory> {
    let mut addresses = Vec::new(alloc);
    for function in functions {
        addresses.push(
            code.labels()
                .as_slice()
                .get(function.0 as usize)
                .copied()
                .unwrap_or(0),
        )?;
    }
    Ok(addresses)
}

// Makes the calls of the lines on a processor, and returns whether all ended as they should.
fn make_lines(
    alloc: Global,
    cpu: &mut Cpu,
    addresses: &[u64],
    convention: Convention,
    calls: &str,
    out: &mut MemorySink,
) -> Result<bool, OutOfMemory>
    requires stack { convention.stack < 32 }
    requires result { convention.result < 32 }
{
    for line in calls.lines() {
        if !make_calls(alloc, cpu, addresses, convention, line, out)? {
            return Ok(false);
        }
    }
    Ok(true)
}

// The same on code, whose functions are at these labels.
fn make_all(
    alloc: Global,
    unit: &Unit,
    code: &Code,
    functions: &[Label],
    convention: Convention,
    calls: &str,
) -> Result<bool, Stop>
    requires stack { convention.stack < 32 }
    requires result { convention.result < 32 }
{
    let addresses = addresses_of(alloc, code, functions)?;
    let mut out = MemorySink::new(alloc, ROOM, &[])?;
    let mut started = start(alloc, code, unit, "")?;
    Ok(make_lines(
        alloc,
        &mut started.cpu,
        &addresses,
        convention,
        calls,
        &mut out,
    )?)
}

// The same on a unit for a target, whose functions are at these labels.
fn unit_ends_so(
    alloc: Global,
    target: &str,
    unit: &Unit,
    functions: &[Label],
    calls: &str,
) -> Result<bool, Stop>
    requires { IsWhole unit.now }
{
    let entries = outward_of(alloc, unit, functions)?;
    let assembled = code_with(alloc, unit, target_of(target), &entries)?;
    make_all(
        alloc,
        unit,
        &assembled.code,
        functions,
        convention_of(target),
        calls,
    )
}

// Whether all calls of the lines on a text end as they should on a target.
fn text_ends_so(alloc: Global, target: &str, text: &str, calls: &str) -> Result<bool, Stop> {
    let parsed = unit_of(alloc, text.as_bytes())?;
    let functions = functions_of(alloc, &parsed.unit)?;
    unit_ends_so(alloc, target, &parsed.unit, &functions, calls)
}

// Makes the calls of a block of the table: its name, lines of calls, and the text, which begins with a point.
fn try_block(rt: &HostRuntime, target: &str, block: &str, right: &mut u64) -> io::Result<()> {
    let (name, rest) = block.split_once('\n').unwrap_or((block, ""));
    let (calls, text) = rest.split_once("\n.").unwrap_or((rest, ""));
    let text = format!(in rt.alloc(); ".{text}")?;
    if text_ends_so(rt.alloc(), target, text.as_str(), calls).unwrap_or(false) {
        count(right);
        Ok(())
    } else {
        println!(rt; "{target}: {name}: a call does not end as it should")
    }
}

/// Makes the calls of the table on each target of a list, and prints of how many texts all of them ended as they should.
pub fn enter_texts(rt: &HostRuntime, targets: &str) -> io::Result<()> {
    let texts = fs::read_to_string(rt, "entered.txt")?;
    for target in targets.lines() {
        let mut right = 0;
        for block in texts.as_str().split("====\n") {
            try_block(rt, target, block, &mut right)?;
        }
        println!(rt; "{target}: the functions of {right} texts are called from outside")?;
    }
    Ok(())
}
