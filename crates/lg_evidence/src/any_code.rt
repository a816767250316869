// Runs any bytes as code on each of the modelled processors: for each target 10,000 buffers of up to 64 bytes of a fixed generator, and 10,000 of code, one
// to four bytes of which were changed, at most 1,000 steps each. Each run gives an answer by name, which ten more calls repeat. Prints for each target how
// many runs came to what.

mod bytes;
mod runs;
mod seeds;
mod tally;

use lg_base::{OutOfMemory, Target};
use runs::{Outcome, run_target};
use std::io;
use tally::Tally;

// Prints what the runs of a target came to.
fn print(rt: &HostRuntime, name: &str, outcome: &Outcome) -> io::Result<()> {
    let Tally {
        ended,
        went_on,
        write,
        fetch,
        decode,
        memory,
        align,
        divide,
        flag,
        host,
    } = outcome.tally;
    let Outcome {
        steps,
        sum,
        changed,
        ..
    } = outcome;
    println!(rt;
        "{name}: {ended} ended, {went_on} went on, {write} failed to write\n\
        {name}: Fetch {fetch}, Decode {decode}, Memory {memory}, Align {align}\n\
        {name}: Divide {divide}, Flag {flag}, Host {host}\n\
        {name}: {steps} steps, {changed} answers changed, sum {sum}"
    )
}

/// Runs any bytes on each processor, and prints what the runs came to.
pub fn run_any_code(rt: &HostRuntime) -> io::Result<()> {
    let targets = [
        (Target::X86_64, "x86_64"),
        (Target::Aarch64, "aarch64"),
        (Target::Riscv64, "riscv64"),
    ];
    for (target, name) in targets {
        match run_target(rt.alloc(), target) {
            Ok(outcome) => print(rt, name, &outcome)?,
            Err(OutOfMemory) => println!(rt; "{name}: out of memory")?,
        }
    }
    Ok(())
}
