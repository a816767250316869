// The code of a unit on each target, run with some arguments.

ghost use Rattle.std.specs.Prelude.{◌≡◌, ◌≤◌, length, IfOk};
ghost use Rattle.lg_asm.specs.Addresses.{AreInside};
ghost use Rattle.lg_base.specs.Layout.{most_code};

use crate::code::code_of;
use crate::run::run;
use crate::trouble::{Trouble, print_trouble};
use lg_asm::Code;
use lg_base::{DataImage, Stop, Target};
use lg_cpu::{Cpu, CpuStep};
use lg_io::MemorySink;
use lg_node::Unit;
use std::io;

/// The targets, by their names.
pub const TARGETS: &[(Target, &str)] = &[
    (Target::X86_64, "x86_64"),
    (Target::Aarch64, "aarch64"),
    (Target::Riscv64, "riscv64"),
];

// Room for what a run prints: some numbers.
const ROOM: usize = 256;

// Prints what a run wrote, in one line, and how it ended where the status is not 0.
fn print_run(rt: &HostRuntime, argument: &str, out: &[u8], end: CpuStep) -> io::Result<()> {
    print!(rt; "  {argument}:")?;
    for number in str::from_utf8(out).unwrap_or("").lines() {
        print!(rt; " {number}")?;
    }
    match end {
        CpuStep::Ended(0) => println!(rt; ""),
        end => println!(rt; " {end:?}"),
    }
}

// Runs code with an argument, and prints the outcome of the run.
fn run_one(
    rt: &HostRuntime,
    code: &Code,
    image: &DataImage,
    argument: &str,
    last: &mut Option<Cpu>,
) -> io::Result<()>
    requires code { length code.now.bytes ≤ most_code }
    requires image { length image.now ≤ 0x1000000 }
{
    match MemorySink::new(rt.alloc(), ROOM, &[]) {
        Ok(mut out) => match run(rt.alloc(), code, image, argument, last, &mut out) {
            Ok(end) => print_run(rt, argument, out.bytes(), end),
            Err(stop) => print_trouble(rt, &Trouble::Stop(stop)),
        },
        Err(error) => print_trouble(rt, &Trouble::Stop(Stop::from(error))),
    }
}

// Runs code with each of the arguments, which have spaces between, on one processor as far as its memory has room: `last` is that of the last run.
fn run_each(
    rt: &HostRuntime,
    code: &Code,
    image: &DataImage,
    arguments: &str,
    last: &mut Option<Cpu>,
) -> io::Result<()>
    requires code { length code.now.bytes ≤ most_code }
    requires image { length image.now ≤ 0x1000000 }
{
    for argument in arguments.split(' ') {
        run_one(rt, code, image, argument, last)?;
    }
    Ok(())
}

// The same from a first run on.
fn run_all(rt: &HostRuntime, code: &Code, image: &DataImage, arguments: &str) -> io::Result<()>
    requires code { length code.now.bytes ≤ most_code }
    requires image { length image.now ≤ 0x1000000 }
{
    let mut last = None;
    run_each(rt, code, image, arguments, &mut last)
}

// Makes the code of a unit for a target, and runs it with each of the arguments.
fn run_on(rt: &HostRuntime, unit: &Unit, target: Target, arguments: &str) -> io::Result<()>
    requires { AreInside unit.now.nodes (length unit.now.image) }
{
    match code_of(rt.alloc(), unit, target) {
        Ok(code) => run_all(rt, &code, &unit.image, arguments),
        Err(stop) => print_trouble(rt, &Trouble::Stop(stop)),
    }
}

// The same on each target.
fn run_unit(rt: &HostRuntime, unit: &Unit, arguments: &str) -> io::Result<()>
    requires { AreInside unit.now.nodes (length unit.now.image) }
{
    for (target, name) in TARGETS {
        println!(rt; "{name}")?;
        run_on(rt, unit, *target, arguments)?;
    }
    Ok(())
}

/// Makes the code of a unit for each target, runs it with each of the arguments, which have spaces between, and prints the outcomes of the runs; or what is
/// wrong where there is no unit.
pub fn run_made(rt: &HostRuntime, made: Result<Unit, Trouble>, arguments: &str) -> io::Result<()>
    requires { IfOk made (λ u. AreInside u.nodes (length u.image)) }
{
    match made {
        Ok(unit) => run_unit(rt, &unit, arguments),
        Err(trouble) => print_trouble(rt, &trouble),
    }
}
