// The generator's text.

ghost use Rattle.std.specs.Prelude.{◌≡◌, ◌++◌, OnOk, IfOk};
ghost use Rattle.lg_run.specs.Made.{calls, functions, made, one_function, pieces};

use crate::code_text::CodeText;
use crate::made_lines::{drawn, next, push_call, push_end, push_piece, push_start};
use lg_base::OutOfMemory;
use std::alloc::Global;

// How many functions there are beside `main`.
const FUNCTIONS: u64 = 18;

// The pieces of a function: the state after them.
fn push_pieces(text: &mut CodeText, from: u64) -> Result<u64, OutOfMemory>
    ensures { IfOk result (λ s. (text.new ≡ text.old ++ (pieces 64 from).0) × (s ≡ (pieces 64 from).1)) }
{
    let mut state = from;
    for _ in 0..64u32 {
        state = push_piece(text, state)?;
    }
    Ok(state)
}

// A function: the state after it.
#[tactic(auto, unfolding(crate::specs::Made::one_function))]
fn push_function(text: &mut CodeText, function: u64, state: u64) -> Result<u64, OutOfMemory>
    ensures { IfOk result (λ s. (text.new ≡ text.old ++ (one_function function state).0) × (s ≡ (one_function function state).1)) }
{
    let state = next(state);
    push_start(text, function, drawn(state))?;
    let state = push_pieces(text, state)?;
    push_end(text, function)?;
    Ok(state)
}

// The functions.
fn push_functions(text: &mut CodeText, seed: u64) -> Result<(), OutOfMemory>
    ensures { OnOk result (text.new ≡ text.old ++ functions 18 0 seed) }
{
    let mut state = seed;
    for function in 0..FUNCTIONS {
        state = push_function(text, function, state)?;
    }
    Ok(())
}

// The calls of the functions.
fn push_calls(text: &mut CodeText) -> Result<(), OutOfMemory>
    ensures { OnOk result (text.new ≡ text.old ++ calls 18 0) }
{
    for function in 0..FUNCTIONS {
        push_call(text, function)?;
    }
    Ok(())
}

/// Returns the generator's text for a seed: eighteen functions, each of a loop of 64 pieces that are drawn, and `main`, which calls them ten times over and
/// prints the word that is left. Its steps are few, and its output is one line.
#[tactic(auto, unfolding(crate::specs::Made::made))]
pub fn made(alloc: Global, seed: u64) -> Result<CodeText, OutOfMemory>
    ensures { IfOk result (λ t. t ≡ made seed) }
{
    let mut text = CodeText::new(alloc);
    text.push_row(&[b".data 16\nfmt: .c \"sum %lx\\n\"\n.code\njmpi main\n"])?;
    push_functions(&mut text, seed)?;
    text.push_row(&[b"main:\nprolog\nmovi %v0 1\nmovi %v1 10\nagain:\n"])?;
    push_calls(&mut text)?;
    text.push_row(&[
        b"subi %v1 %v1 1\nbgti again %v1 0\nprepare pushargi fmt ellipsis pushargr %v0 finishi @printf\nret\nepilog\n",
    ])?;
    Ok(text)
}
