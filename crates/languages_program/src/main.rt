// Compiles texts of two small languages to machine code, and runs it on the three processors: how a program uses the assembler without the command and its
// texts. `expressions` has a language of expressions, `stack` one with functions, loops and recursion. For each text it prints what each target's code writes
// for each argument; at last the listing of one expression, the words that functions of the stack language return to `calls`, and what is wrong with texts that
// are none.
#![tactic(auto)]

mod calls;
mod code;
mod expressions;
mod run;
mod stack;
mod targets;
mod trouble;

use calls::call_functions;
use expressions::{list_expression, run_expressions};
use stack::{print_faults, run_program};
use std::{fs, io};

// Runs the expressions of a file, and writes the listing of one.
fn work_expressions(rt: &HostRuntime) -> io::Result<()> {
    let lines = fs::read_to_string(rt, "expressions.txt")?;
    run_expressions(rt, lines.as_str())?;
    list_expression(rt, "x * x + 1")
}

// Runs the program of a file, and prints what is wrong with the texts of another.
fn work_programs(rt: &HostRuntime) -> io::Result<()> {
    let text = fs::read_to_string(rt, "program.txt")?;
    run_program(rt, text.as_str(), "0 1 5 20")?;
    call_functions(rt, text.as_str(), "fact 10\nsum 1000\npower 3 20")?;
    let faults = fs::read_to_string(rt, "faults.txt")?;
    print_faults(rt, faults.as_str())
}

fn main(rt: HostRuntime) -> io::Result<()> {
    work_expressions(&rt)?;
    work_programs(&rt)
}
