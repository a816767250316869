// The numbers of lines.

ghost use Rattle.std.specs.Prelude.{◌≡◌, ◌<◌, ℕ, IfOk, length, replicate, slice_index_or};
ghost use Rattle.lg_io.specs.Wrote.{Wrote};
ghost use Rattle.lg_prof.specs.Tables.{table, told_line, numbers_line};
ghost use Rattle.lg_prof.specs.Tallies.{AreBelow, no_counts, ran_at, spent_at};

use lg_base::OutOfMemory;
use lg_io::{Digits, Radix, Sink, SinkFault, write_parts};
use lg_node::NodeList;
use std::alloc::Global;
use std::marker::Model;

/// The numbers of one line.
#[derive(Clone, Copy)]
pub struct Counts {
    ran: u64,
    spent: u64,
}

/// For each line of a text the number of steps of the text and the number of steps of its code.
#[derive(Drop)]
pub struct Tally {
    pub(crate) ran: Vec<u64>,
    pub(crate) spent: Vec<u64>,
}

impl Model for Tally {
    ghost use Rattle.std.specs.Prelude.{◌≡◌, List, length};
    ghost use Rattle.lg_prof.specs.declared.tally.Counts.{Counts};
    ghost use Rattle.lg_prof.specs.Tallies.{zipped};

    ghost Value = { List Counts };

    ghost view = { λ t. zipped t.ran.items t.spent.items };

    ghost invariant = { λ t. length t.spent.items ≡ length t.ran.items };
}

// One more than the greatest line of nodes, and 1 where there are none.
fn top_of(nodes: &NodeList) -> usize
    ensures below { AreBelow nodes.now.nodes result }
    ensures some { 0 < result }
{
    let mut top = 1;
    for index in 0..nodes.len() {
        top = top.max(nodes.node(index).line as usize + 1);
    }
    top
}

// Returns this many numbers, all of them 0.
fn zeros(alloc: Global, count: usize) -> Result<Vec<u64>, OutOfMemory>
    ensures { IfOk result (λ v. v.items ≡ replicate count 0) }
{
    Ok(vec![in alloc; 0; count]?)
}

// Writes the numbers of a line, by their digits.
fn write_numbers<E: Sink>(line: u64, ran: u64, spent: u64, err: &mut E) -> Result<(), SinkFault>
    ensures { Wrote (E.taken err.old) (E.taken err.new) (E.faults err.old) (E.faults err.new) result (numbers_line line ran spent) }
{
    let line = Digits::of(line, Radix::Decimal);
    let ran = Digits::of(ran, Radix::Decimal);
    let spent = Digits::of(spent, Radix::Decimal);
    write_parts(
        err,
        &[
            b"line ",
            line.as_slice(),
            b" steps ",
            ran.as_slice(),
            b" instructions ",
            spent.as_slice(),
            b"\n",
        ],
    )
}

// Writes the numbers of a line, where one of them is not 0.
fn write_line<E: Sink>(line: u64, ran: u64, spent: u64, err: &mut E) -> Result<(), SinkFault>
    ensures { Wrote (E.taken err.old) (E.taken err.new) (E.faults err.old) (E.faults err.new) result (told_line line ran spent) }
{
    if ran == 0 && spent == 0 {
        return Ok(());
    }
    write_numbers(line, ran, spent, err)
}

impl Tally {
    /// Returns the numbers of the lines of nodes, all of them 0. It takes 16 bytes for each line up to the greatest.
    pub fn new(alloc: Global, nodes: &NodeList) -> Result<Tally, OutOfMemory>
        ensures below { IfOk result (λ t. AreBelow nodes.now.nodes (length t)) }
        ensures some { IfOk result (λ t. 0 < length t) }
        ensures ran { IfOk result (λ t. (line : ℕ) → ran_at t line ≡ 0) }
        ensures spent { IfOk result (λ t. (line : ℕ) → spent_at t line ≡ 0) }
    {
        let top = top_of(nodes);
        let ran = zeros(alloc, top)?;
        let spent = zeros(alloc, top)?;
        Ok(Tally { ran, spent })
    }

    // Returns the numbers of a line, which are 0 where it has none.
    fn counts(&self, line: usize) -> Counts
        ensures { result ≡ slice_index_or self.now line no_counts }
    {
        if line < self.ran.len() {
            return Counts {
                ran: self.ran[line],
                spent: self.spent[line],
            };
        }
        Counts { ran: 0, spent: 0 }
    }

    /// Returns the steps of the text and those of the code at a line: both are 0 at a line that no node has.
    pub fn of(&self, line: u32) -> (u64, u64)
        ensures { result ≡ (ran_at self.now line, spent_at self.now line) }
    {
        let Counts { ran, spent } = self.counts(line as usize);
        (ran, spent)
    }

    /// Writes `line L steps S instructions I` for each line one of whose numbers is not 0, rising. After a fault some of the bytes were written, from the
    /// first one on, and not all.
    pub fn write<E: Sink>(&self, err: &mut E) -> Result<(), SinkFault>
        ensures { Wrote (E.taken err.old) (E.taken err.new) (E.faults err.old) (E.faults err.new) result (table self.now) }
    {
        for line in 0..self.ran.len() {
            let Counts { ran, spent } = self.counts(line);
            match write_line(line as u64, ran, spent, err) {
                Ok(()) => {}
                Err(fault) => return Err(fault),
            }
        }
        Ok(())
    }
}
