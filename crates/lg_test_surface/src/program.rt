// lg_asm, lg_list, lg_mean and lg_run: code, its listing, the portable meaning, and the whole program.

ghost use Rattle.std.specs.Prelude.{◌≡◌, ◌≤◌, None, length};
ghost use Rattle.lg_live.specs.Liveness.{AreLive};
ghost use Rattle.lg_mean.specs.Machines.{state_of};
ghost use Rattle.lg_mean.specs.Programs.{IsTableOf};
ghost use Rattle.lg_meaning.specs.Fits.{Fits};
ghost use Rattle.lg_node.specs.Shapes.{IsShapeOf};
ghost use Rattle.lg_tst.specs.Answers.{IsWhole};

use crate::nodes::{TEXT, unit_of};
use lg_asm::{Code, assemble, lower};
use lg_base::{ArgImage, OutOfMemory, Places, Stop, Target};
use lg_buf::CodeBuf;
use lg_io::{MemorySink, MemoryTexts, Sink, SinkFault, Texts};
use lg_list::list;
use lg_live::Live;
use lg_mean::{MeanStep, Portable};
use lg_node::{LabelAddresses, NodeList, Shape, Unit, check};
use lg_run::{Answer, CodeText, Done, lightning, made, status};
use lg_temp::Choices;
use std::alloc::{AllocError, Global};
use std::test::Fail;

// Returns the code of a unit. What it is promised to be is for proofs.
fn code_of(alloc: Global, unit: &Unit) -> Result<Code, Stop>
    requires { IsWhole unit.now }
{
    let shape: Shape = check(alloc, unit)?;
    assemble(alloc, unit, &shape, Target::Riscv64, 4096)
}

// Returns the parts of code.
fn are_parts_right(code: &Code) -> bool {
    if code.nodes().len() == 0 {
        return false;
    }
    let choices: Choices = code.choices(0);
    let spills: u32 = code.spills();
    code.target() == Target::Riscv64
        && code.bytes().len() > 0
        && code.shape().functions() == 1
        && code.places().len() == code.nodes().len() + 1
        && code.labels().len() == 1
        && code.origin().len() == code.nodes().len()
        && choices.as_slice().is_empty()
        && spills == 0
}

// Writes the listing of code.
fn listed<O: Sink>(code: &Code, out: &mut O) -> Result<(), SinkFault> {
    list(
        code.target(),
        code.bytes(),
        code.nodes(),
        code.places(),
        code.labels(),
        out,
    )
}

fn is_code_right(alloc: Global) -> Result<bool, Stop> {
    let unit = unit_of(alloc, TEXT)?;
    let code: Code = code_of(alloc, &unit)?;
    let mut out = MemorySink::new(alloc, 4096, &[])?;
    let written = listed(&code, &mut out);
    Ok(are_parts_right(&code) && written == Ok(()))
}

// Whether the nodes of a text can be lowered into a buffer.
fn is_lowered(
    alloc: Global,
    nodes: &NodeList,
    shape: &Shape,
    live: &Live,
) -> Result<bool, OutOfMemory>
    requires shape { IsShapeOf nodes.now shape.now }
    requires live { AreLive nodes.now shape.now live.now }
{
    let count = nodes.len();
    if count > 100 {
        return Ok(false);
    }
    let mut buf = CodeBuf::new(alloc, 4096, nodes.labels(), count)?;
    let mut places = Places::with_room(alloc, count + 1)?;
    let done: bool = lower(nodes, shape, live, Target::X86_64, &mut buf, &mut places);
    Ok(done)
}

fn is_unit_lowered(alloc: Global, unit: &Unit) -> Result<bool, Stop> {
    let shape = check(alloc, unit)?;
    let live = Live::of(alloc, &unit.nodes, &shape)?;
    let done = is_lowered(alloc, &unit.nodes, &shape, &live)?;
    Ok(done)
}

// The first step of the portable meaning.
fn is_step_right(machine: &mut Portable, unit: &Unit, shape: &Shape, out: &mut MemorySink) -> bool
    requires made { IsTableOf unit.now.nodes shape.now machine.old.labels }
    requires fits { Fits unit.now.nodes shape.now (state_of machine.old.machine) }
    requires steps { machine.old.steps ≡ 0 }
{
    let step: MeanStep = machine.step(unit, shape, out);
    let steps: u64 = machine.steps();
    matches!(step, MeanStep::Went) && steps == 1
}

// Returns the portable meaning of a unit.
fn is_meant(alloc: Global, unit: &Unit, shape: &Shape) -> Result<bool, OutOfMemory>
    requires shape { IsShapeOf unit.now.nodes shape.now }
{
    let labels = LabelAddresses::of(alloc, &[0x1000_0008])?;
    let args = ArgImage::of(alloc, &[0; 16])?;
    if labels.len() != unit.nodes.labels() || unit.image.len() > 16 {
        return Ok(false);
    }
    let mut machine: Portable = Portable::new(alloc, unit, shape, &labels, &args)?;
    let mut out = MemorySink::new(alloc, 0, &[])?;
    Ok(is_step_right(&mut machine, unit, shape, &mut out))
}

fn is_meaning_right(alloc: Global) -> Result<bool, Stop> {
    let unit = unit_of(alloc, TEXT)?;
    let shape = check(alloc, &unit)?;
    let meant = is_meant(alloc, &unit, &shape)?;
    Ok(meant && is_unit_lowered(alloc, &unit)?)
}

// The whole program. What it is promised to be is for proofs.
fn done_on<T: Texts, O: Sink, E: Sink>(
    alloc: Global,
    words: &Vec<String>,
    texts: &mut T,
    out: &mut O,
    err: &mut E,
) -> Done {
    lightning(alloc, words, texts, out, err)
}

fn words(alloc: Global) -> Result<Vec<String>, AllocError> {
    let mut words: Vec<String> = Vec::new(alloc);
    words.push(String::from_str(alloc, "lightning")?)?;
    words.push(String::from_str(alloc, "t.tst")?)?;
    Ok(words)
}

// A call of the program over a text that ends with 7.
fn is_program_right(alloc: Global) -> Result<bool, OutOfMemory> {
    let Ok(words) = words(alloc) else {
        return Err(OutOfMemory);
    };
    let mut texts = MemoryTexts::new(alloc, &[])?;
    texts.add("t.tst", b"prolog prepare pushargi 7 finishi @exit epilog")?;
    let mut out = MemorySink::new(alloc, 0, &[])?;
    let mut err = MemorySink::new(alloc, 0, &[])?;
    let done: Done = done_on(alloc, &words, &mut texts, &mut out, &mut err);
    let answer: Answer = done.answer;
    let number: u8 = status(&answer);
    let steps: u64 = done.steps;
    Ok(number == 7 && steps > 0 && done.code.is_some())
}

// Returns the generator's text.
fn is_text_made(alloc: Global) -> Result<bool, OutOfMemory> {
    let text: CodeText = made(alloc, 1)?;
    Ok(text.as_slice().len() > 1000)
}

#[test]
fn calls_lg_asm_lg_list_lg_mean_and_lg_run(rt: HostRuntime) -> Result<(), Fail> {
    assert!(rt; is_code_right(rt.alloc()) == Ok(true));
    assert!(rt; is_meaning_right(rt.alloc()) == Ok(true));
    assert!(rt; is_program_right(rt.alloc())? && is_text_made(rt.alloc())?);
    Ok(())
}
