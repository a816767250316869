// The body of a macro with arguments in place of its parameters.

ghost use Rattle.std.specs.Prelude.{◌≡◌, ◌+◌, ◌++◌, ◌∷◌, [], ◌<◌, length, drop, OnOk, IfOk};
ghost use Rattle.lg_macro.specs.Cutting.{cut};
ghost use Rattle.lg_macro.specs.Pasting.{joined};
ghost use Rattle.lg_macro.specs.Pieces.{piece_at};
ghost use Rattle.lg_macro.specs.Substitution.{argument_at, stands, glued_at, filled, substituted};

use crate::cutting::push_cut;
use crate::macros::{Macro, Mark};
use crate::marks::Marks;
use crate::pieces::Pieces;
use crate::spare::Spare;
use lg_base::OutOfMemory;
use std::alloc::Global;

// Adds what a piece of a body denotes.
fn push_part(
    out: &mut Pieces,
    raw: &[Pieces],
    full: &[Pieces],
    body: &Pieces,
    at: usize,
    mark: Mark,
    line: u32,
) -> Result<(), OutOfMemory>
    requires { at < length body.now }
    ensures { OnOk result (out.new ≡ out.old ++ stands raw.now full.now line (piece_at body.now at) mark) }
{
    match mark.parameter {
        None => out.push_on(body, at, line),
        Some(n) => {
            let arguments = if mark.glued || mark.glues { raw } else { full };
            push_argument(out, arguments, n)
        }
    }
}

// Adds the argument of a number, or nothing where there are fewer.
fn push_argument(out: &mut Pieces, arguments: &[Pieces], n: usize) -> Result<(), OutOfMemory>
    ensures { OnOk result (out.new ≡ out.old ++ argument_at arguments.now n) }
{
    if n < arguments.len() {
        return out.append(&arguments[n]);
    }
    Ok(())
}

// What a piece of a body denotes.
fn stands(
    alloc: Global,
    raw: &[Pieces],
    full: &[Pieces],
    body: &Pieces,
    at: usize,
    mark: Mark,
    line: u32,
) -> Result<Pieces, OutOfMemory>
    requires { at < length body.now }
    ensures { IfOk result (λ r. r ≡ stands raw.now full.now line (piece_at body.now at) mark) }
{
    let mut part = Pieces::new(alloc);
    push_part(&mut part, raw, full, body, at, mark, line)?;
    Ok(part)
}

// One text and another after it.
fn glued(alloc: Global, first: &[u8], second: &[u8]) -> Result<Vec<u8>, OutOfMemory>
    ensures { IfOk result (λ r. r.items ≡ first.now ++ second.now) }
{
    let mut text = Vec::from_slice(alloc, first)?;
    text.extend_from_slice(second)?;
    Ok(text)
}

// Adds the pieces of one text and another after it.
fn push_glued(
    out: &mut Pieces,
    alloc: Global,
    first: &[u8],
    second: &[u8],
    line: u32,
) -> Result<(), OutOfMemory>
    ensures { OnOk result (out.new ≡ out.old ++ cut line (first.now ++ second.now)) }
{
    let text = glued(alloc, first, second)?;
    push_cut(out, &text, line)
}

// Adds pieces, and others that `##` puts after them, to none.
fn push_joined(
    out: &mut Pieces,
    alloc: Global,
    now: &Pieces,
    part: &Pieces,
    line: u32,
) -> Result<(), OutOfMemory>
    requires { out.old ≡ [] }
    ensures { OnOk result (out.new ≡ joined line now.now part.now) }
{
    let n = now.len();
    let m = part.len();
    if n == 0 {
        return out.append(part);
    }
    if m == 0 {
        return out.append(now);
    }
    out.append_between(now, 0, n - 1)?;
    push_glued(out, alloc, now.text(n - 1), part.text(0), line)?;
    out.append_between(part, 1, m)
}

// Pieces, and others that `##` puts after them.
fn joined(alloc: Global, now: &Pieces, part: &Pieces, line: u32) -> Result<Pieces, OutOfMemory>
    ensures { IfOk result (λ r. r ≡ joined line now.now part.now) }
{
    let mut all = Pieces::new(alloc);
    push_joined(&mut all, alloc, now, part, line)?;
    Ok(all)
}

// Returns whether `##` is before a piece of a body.
fn is_glued(marks: &Marks, at: usize) -> bool
    ensures { result ≡ glued_at (drop at marks.now) }
{
    if at < marks.len() {
        return marks.at(at).glued;
    }
    false
}

// Adds what a piece of a body becomes to what is done, or to what a further `##` may yet change.
fn fill_one(
    done: &mut Pieces,
    now: &mut Pieces,
    alloc: Global,
    entry: &Macro,
    line: u32,
    raw: &[Pieces],
    full: &[Pieces],
    at: usize,
) -> Result<(), OutOfMemory>
    requires body { at < length entry.now.body }
    requires marks { at < length entry.now.marks }
    ensures { OnOk result (filled line (drop (at + 1) entry.now.body) (drop (at + 1) entry.now.marks) raw.now full.now done.new now.new
        ≡ filled line (drop at entry.now.body) (drop at entry.now.marks) raw.now full.now done.old now.old) }
{
    let _end = entry.marks.len();
    let mark = entry.marks.at(at);
    if mark.glued {
        let part = stands(alloc, raw, full, &entry.body, at, mark, line)?;
        *now = joined(alloc, now, &part, line)?;
        return Ok(());
    }
    done.append(now)?;
    now.clear();
    if is_glued(&entry.marks, at + 1) {
        push_part(now, raw, full, &entry.body, at, mark, line)?;
        return Ok(());
    }
    push_part(done, raw, full, &entry.body, at, mark, line)?;
    Ok(())
}

/// The body of a macro with its arguments, as they are and expanded.
#[tactic(auto, unfolding(crate::specs::Substitution::substituted))]
pub fn substituted(
    alloc: Global,
    spare: &mut Spare,
    entry: &Macro,
    line: u32,
    raw: &[Pieces],
    full: &[Pieces],
) -> Result<Pieces, OutOfMemory>
    ensures { IfOk result (λ r. r ≡ substituted line entry.now.body entry.now.marks raw.now full.now) }
{
    let end = entry.body.len().min(entry.marks.len());
    let mut done = spare.take();
    let mut now = Pieces::new(alloc);
    'body: for at in 0..end {
        fill_one(&mut done, &mut now, alloc, entry, line, raw, full, at)?;
    }
    done.append(&now)?;
    Ok(done)
}
