// Compares the tables and the models of the processors with evidence from outside, the files of
// `data`: what assemblers make of each instruction, bytes that are no instruction, runs of a few steps, and
// whole programs. Prints a line for each file, and first, for each of up to twenty lines that differ, the
// line and what was found in its place. Each line of the files whose names begin with `wrong` is to differ. Then it runs any bytes as code on each model
// (`any_code`), and prints the outcome of these runs.
#![tactic(auto)]

mod aarch64;
mod any_code;
mod case;
mod check;
mod processor;
mod programs;
mod riscv64;
mod steps;
mod table;
mod vector;
mod x86_64;

use any_code::run_any_code;
use check::{Evidence, Lines, check_file};
use lg_base::Target;
use std::io;

// The files of evidence, in the order in which they are compared, each with its target and what its lines are.
const FILES: &[Evidence] = &[
    ("encode_aarch64.tsv", Target::Aarch64, Lines::Spelled),
    ("decode_none_aarch64.tsv", Target::Aarch64, Lines::Refused),
    ("encode_riscv64.tsv", Target::Riscv64, Lines::Spelled),
    ("decode_none_riscv64.tsv", Target::Riscv64, Lines::Refused),
    ("encode_x86_64.tsv", Target::X86_64, Lines::Spelled),
    ("decode_none_x86_64.tsv", Target::X86_64, Lines::Refused),
    ("step_aarch64.tsv", Target::Aarch64, Lines::Steps),
    ("prog_aarch64.tsv", Target::Aarch64, Lines::Programs),
    ("step_riscv64.tsv", Target::Riscv64, Lines::Steps),
    ("prog_riscv64.tsv", Target::Riscv64, Lines::Programs),
    ("step_x86_64.tsv", Target::X86_64, Lines::Steps),
    ("prog_x86_64.tsv", Target::X86_64, Lines::Programs),
    ("wrong_encode_riscv64.tsv", Target::Riscv64, Lines::Spelled),
    (
        "wrong_decode_none_riscv64.tsv",
        Target::Riscv64,
        Lines::Refused,
    ),
    ("wrong_step_riscv64.tsv", Target::Riscv64, Lines::Steps),
];

fn main(rt: HostRuntime) -> io::Result<()> {
    for evidence in FILES {
        check_file(&rt, evidence)?;
    }
    run_any_code(&rt)
}
