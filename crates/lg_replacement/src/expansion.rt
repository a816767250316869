// The replacement of macros in a list of pieces.

ghost use Rattle.std.specs.Prelude.{◌≡◌, ◌+◌, ◌<◌, ◌≤◌, ◌++◌, ◌∷◌, [], length, take, drop, OnOk, IfOk, IfSome};
ghost use Rattle.lg_macro.specs.Macros.{CountsAs, StepsAs, Reads};
ghost use Rattle.lg_macro.specs.Pieces.{piece_at};
ghost use Rattle.lg_replacement.specs.Expansion.{named, put, object, each, called, opened, by_arity, at_name, step, expand_in};
ghost use Rattle.std.specs.Prelude.{Ok, Some};
ghost use Rattle.lg_macro.specs.Substitution.{substituted};
ghost use Rattle.lg_macro.specs.Pieces.{froze};
ghost use Rattle.lg_macro.specs.Arguments.{arguments_of, closing, opening};
ghost use Rattle.lg_replacement.specs.Expansion.{EachAs, replaced, at_macro};
ghost use Rattle.lg_replacement.specs.Replacements.{NameNothing};
ghost use Rattle.std.specs.List.{AllByRecursion};
ghost use Rattle.std.specs.Prelude.{true};

use lg_base::{RefusalKind, Stop};
use lg_macro::arguments::{arguments, closing, opening, push_feeds};
use lg_macro::{
    Macro, PieceKind, Pieces, Table, Work, count, hold, is_hidden, refused, substituted,
};

// Returns the macro that a piece names.
fn named(table: &Table, pieces: &Pieces, at: usize) -> Option<usize>
    requires { at < length pieces.now }
    ensures value { result ≡ named table.now (piece_at pieces.now at) }
    ensures inside { IfSome result (λ place. place < length table.now) }
{
    match pieces.kind(at) {
        PieceKind::Word if !pieces.is_frozen(at) => table.place_in(pieces.text(at)),
        _ => None,
    }
}

/// Expands pieces, with at most this many expansions nested.
#[cycle(expand)]
pub fn expand(
    table: &Table,
    work: &mut Work,
    pieces: &Pieces,
    line: u32,
    levels: u32,
    out: &mut Pieces,
) -> Result<(), Stop>
    requires { levels < 1000 }
    ensures gives { CountsAs result (out.new, work.new.sum) (expand_in table.now levels line work.old.hidden.items pieces.now (out.old, work.old.sum)) }
    ensures hidden { OnOk result (work.new.hidden.items ≡ work.old.hidden.items) }
{
    if levels == 0 {
        return Err(refused(RefusalKind::ExpandTooMuch, line));
    }
    let end = pieces.len();
    let mut at = 0;
    'pieces: while at < end {
        let n = step(table, work, pieces, at, levels - 1, out)?;
        at += 1 + n;
    }
    Ok(())
}

/// One piece, and what belongs to it: how many pieces more.
#[tactic(auto, unfolding(crate::specs::Expansion::step, crate::specs::Expansion::at_name))]
#[cycle(expand)]
pub fn step(
    table: &Table,
    work: &mut Work,
    pieces: &Pieces,
    at: usize,
    levels: u32,
    out: &mut Pieces,
) -> Result<usize, Stop>
    requires few { levels < 1000 }
    requires inside { at < length pieces.now }
    ensures gives { StepsAs result (out.new, work.new.sum)
        (step table.now (expand_in table.now levels) work.old.hidden.items (piece_at pieces.now at) (drop (at + 1) pieces.now) (out.old, work.old.sum)) }
    ensures hidden { OnOk result (work.new.hidden.items ≡ work.old.hidden.items) }
    ensures end { IfOk result (λ n. at + 1 + n ≤ length pieces.now) }
{
    match named(table, pieces, at) {
        None => kept(pieces, at, out),
        Some(place) => at_macro(table, work, pieces, at, place, table.at(place), levels, out),
    }
}

// The name of a macro.
#[tactic(auto, unfolding(crate::specs::Expansion::at_macro))]
#[cycle(expand)]
fn at_macro(
    table: &Table,
    work: &mut Work,
    pieces: &Pieces,
    at: usize,
    place: usize,
    entry: &Macro,
    levels: u32,
    out: &mut Pieces,
) -> Result<usize, Stop>
    requires few { levels < 1000 }
    requires inside { at < length pieces.now }
    ensures gives { StepsAs result (out.new, work.new.sum)
        (at_macro (expand_in table.now levels) (piece_at pieces.now at)
        work.old.hidden.items place (out.old, work.old.sum) (drop (at + 1) pieces.now) (Some entry.now)) }
    ensures hidden { OnOk result (work.new.hidden.items ≡ work.old.hidden.items) }
    ensures end { IfOk result (λ n. at + 1 + n ≤ length pieces.now) }
{
    if is_hidden(&work.hidden, place) {
        return frozen(pieces, at, out);
    }
    match entry.arity {
        None => object(table, work, pieces, at, place, entry, levels, out),
        Some(arity) => opened(table, work, pieces, at, place, entry, arity, levels, out),
    }
}

// A piece that stays.
fn kept(pieces: &Pieces, at: usize, out: &mut Pieces) -> Result<usize, Stop>
    requires { at < length pieces.now }
    ensures gives { StepsAs result out.new (Ok (0, out.old ++ piece_at pieces.now at ∷ [])) }
    ensures none { IfOk result (λ n. n ≡ 0) }
{
    out.push_same(pieces, at)?;
    Ok(0)
}

// A word that is frozen.
fn frozen(pieces: &Pieces, at: usize, out: &mut Pieces) -> Result<usize, Stop>
    requires { at < length pieces.now }
    ensures gives { StepsAs result out.new (Ok (0, out.old ++ froze (piece_at pieces.now at) ∷ [])) }
    ensures none { IfOk result (λ n. n ≡ 0) }
{
    out.push_frozen(pieces, at)?;
    Ok(0)
}

// A name without parameters.
#[tactic(auto, unfolding(crate::specs::Expansion::object))]
#[cycle(expand)]
fn object(
    table: &Table,
    work: &mut Work,
    pieces: &Pieces,
    at: usize,
    place: usize,
    entry: &Macro,
    levels: u32,
    out: &mut Pieces,
) -> Result<usize, Stop>
    requires few { levels < 1000 }
    requires inside { at < length pieces.now }
    ensures gives { StepsAs result (out.new, work.new.sum)
        (object (expand_in table.now levels) (piece_at pieces.now at) work.old.hidden.items place entry.now (out.old, work.old.sum)) }
    ensures hidden { OnOk result (work.new.hidden.items ≡ work.old.hidden.items) }
    ensures none { IfOk result (λ n. n ≡ 0) }
{
    let line = pieces.line(at);
    let room = work.room;
    count(work, entry, line)?;
    put(table, work, place, entry, line, &[], &[], levels, out)?;
    work.room = room;
    Ok(0)
}

// A name with parameters: without its parenthesis it stays.
#[tactic(auto, unfolding(crate::specs::Expansion::opened))]
#[cycle(expand)]
fn opened(
    table: &Table,
    work: &mut Work,
    pieces: &Pieces,
    at: usize,
    place: usize,
    entry: &Macro,
    arity: usize,
    levels: u32,
    out: &mut Pieces,
) -> Result<usize, Stop>
    requires few { levels < 1000 }
    requires inside { at < length pieces.now }
    ensures gives { StepsAs result (out.new, work.new.sum)
        (opened (expand_in table.now levels) (piece_at pieces.now at)
        work.old.hidden.items place entry.now (out.old, work.old.sum) (drop (at + 1) pieces.now) arity (opening (drop (at + 1) pieces.now))) }
    ensures hidden { OnOk result (work.new.hidden.items ≡ work.old.hidden.items) }
    ensures end { IfOk result (λ n. at + 1 + n ≤ length pieces.now) }
{
    let _end = pieces.len();
    match opening(pieces, at + 1) {
        None => kept(pieces, at, out),
        Some(begun) => match closing(pieces, at + 1 + begun) {
            None => Err(refused(RefusalKind::BadMacro, pieces.line(at))),
            Some(len) => called(
                table, work, pieces, at, place, entry, arity, begun, len, levels, out,
            ),
        },
    }
}

// A call, by the places of its parentheses.
#[tactic(auto, unfolding(crate::specs::Expansion::called))]
#[cycle(expand)]
fn called(
    table: &Table,
    work: &mut Work,
    pieces: &Pieces,
    at: usize,
    place: usize,
    entry: &Macro,
    arity: usize,
    begun: usize,
    len: usize,
    levels: u32,
    out: &mut Pieces,
) -> Result<usize, Stop>
    requires few { levels < 1000 }
    requires inside { at + 1 + begun + len < length pieces.now }
    ensures gives { StepsAs result (out.new, work.new.sum)
        (called (expand_in table.now levels) (piece_at pieces.now at)
        work.old.hidden.items place entry.now (out.old, work.old.sum)
        (take (begun + len + 1) (drop (at + 1) pieces.now)) (arguments_of arity (piece_at pieces.now at).line (take len (drop (at + 1 + begun) pieces.now)))) }
    ensures hidden { OnOk result (work.new.hidden.items ≡ work.old.hidden.items) }
    ensures end { IfOk result (λ n. at + 1 + n ≤ length pieces.now) }
{
    let _end = pieces.len();
    let line = pieces.line(at);
    let from = at + 1 + begun;
    match arguments(
        work.alloc,
        &mut work.spare,
        pieces,
        from,
        from + len,
        arity,
        line,
    )? {
        None => Err(refused(RefusalKind::BadMacro, line)),
        Some(raw) => {
            let room = work.room;
            with_arguments(table, work, place, entry, line, &raw, levels, out)?;
            work.room = room;
            work.spare.give_all(raw);
            push_feeds(out, pieces, at + 1, from + len + 1, line)?;
            Ok(begun + len + 1)
        }
    }
}

// Returns whether pieces name no macro.
fn names_nothing(table: &Table, pieces: &Pieces) -> bool
    ensures { result ≡ true → NameNothing table.now pieces.now }
{
    'pieces: for at in 0..pieces.len() {
        if named(table, pieces, at).is_some() {
            return false;
        }
    }
    true
}

// Returns whether arguments name no macro: then they are expanded as they are.
fn name_nothing(table: &Table, raw: &[Pieces]) -> bool
    ensures { result ≡ true → AllByRecursion (NameNothing table.now) raw.now }
{
    'raw: for i in 0..raw.len() {
        if !names_nothing(table, &raw[i]) {
            return false;
        }
    }
    true
}

// A call with its arguments.
#[tactic(auto, unfolding(crate::specs::Expansion::replaced))]
#[cycle(expand)]
fn with_arguments(
    table: &Table,
    work: &mut Work,
    place: usize,
    entry: &Macro,
    line: u32,
    raw: &[Pieces],
    levels: u32,
    out: &mut Pieces,
) -> Result<(), Stop>
    requires few { levels < 1000 }
    ensures gives { CountsAs result (out.new, work.new.sum)
        (replaced (expand_in table.now levels) line work.old.hidden.items place entry.now (out.old, work.old.sum) raw.now) }
    ensures hidden { OnOk result (work.new.hidden.items ≡ work.old.hidden.items) }
{
    count(work, entry, line)?;
    if levels > 0 && name_nothing(table, raw) {
        return put(table, work, place, entry, line, raw, raw, levels, out);
    }
    let room = work.room;
    let behind = room.saturating_sub(out.size());
    work.room = behind;
    let full = each(table, work, line, raw, levels)?;
    work.room = room.saturating_sub(behind.saturating_sub(work.room));
    let done = put(table, work, place, entry, line, raw, &full, levels, out);
    work.spare.give_all(full);
    done
}

// The arguments expanded, one after the other.
#[cycle(expand)]
fn each(
    table: &Table,
    work: &mut Work,
    line: u32,
    raw: &[Pieces],
    levels: u32,
) -> Result<Vec<Pieces>, Stop>
    requires { levels < 1000 }
    ensures gives { EachAs result work.new.sum (each (expand_in table.now levels) line work.old.hidden.items raw.now [] work.old.sum) }
    ensures hidden { OnOk result (work.new.hidden.items ≡ work.old.hidden.items) }
{
    let mut done: Vec<Pieces> = Vec::new(work.alloc);
    'raw: for i in 0..raw.len() {
        let mut full = work.spare.take();
        expand(table, work, &raw[i], line, levels, &mut full)?;
        add(&mut done, full, &mut work.room)?;
    }
    Ok(done)
}

// Adds an argument, where its bytes have room.
fn add(done: &mut Vec<Pieces>, full: Pieces, room: &mut usize) -> Result<(), Stop>
    ensures { CountsAs result done.new.items (Ok (done.old.items ++ full ∷ [])) }
{
    if !hold(room, &full) {
        return Err(Stop::OutOfMemory);
    }
    match done.push(full) {
        Ok(()) => Ok(()),
        Err(_) => Err(Stop::OutOfMemory),
    }
}

// The body with its arguments, expanded with the name hidden besides.
#[tactic(auto, unfolding(crate::specs::Expansion::put))]
#[cycle(expand)]
fn put(
    table: &Table,
    work: &mut Work,
    place: usize,
    entry: &Macro,
    line: u32,
    raw: &[Pieces],
    full: &[Pieces],
    levels: u32,
    out: &mut Pieces,
) -> Result<(), Stop>
    requires few { levels < 1000 }
    ensures gives { CountsAs result (out.new, work.new.sum)
        (put (expand_in table.now levels) line work.old.hidden.items place entry.now raw.now full.now (out.old, work.old.sum)) }
    ensures hidden { OnOk result (work.new.hidden.items ≡ work.old.hidden.items) }
{
    let body = hide(work, place, entry, line, raw, full)?;
    expand(table, work, &body, line, levels, out)?;
    work.spare.give(body);
    let _ = work.hidden.pop();
    Ok(())
}

// Hides a name, and gives its body with the arguments.
fn hide(
    work: &mut Work,
    place: usize,
    entry: &Macro,
    line: u32,
    raw: &[Pieces],
    full: &[Pieces],
) -> Result<Pieces, Stop>
    ensures body { Reads result (Ok (substituted line entry.now.body entry.now.marks raw.now full.now)) }
    ensures hidden { OnOk result (work.new.hidden.items ≡ work.old.hidden.items ++ place ∷ []) }
    ensures sum { work.new.sum ≡ work.old.sum }
{
    if work.hidden.push(place).is_err() {
        return Err(Stop::OutOfMemory);
    }
    match substituted(work.alloc, &mut work.spare, entry, line, raw, full) {
        Ok(body) if hold(&mut work.room, &body) => Ok(body),
        _ => Err(Stop::OutOfMemory),
    }
}
