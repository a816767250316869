// The lines of a text and its directives, and the expansion of a text.

ghost use Rattle.std.specs.Prelude.{◌≡◌, ◌+◌, ◌<◌, ◌≤◌, [], length, drop, codes, IfOk, IfSome, OnOk};
ghost use Rattle.lg_macro.specs.Arguments.{stripped};
ghost use Rattle.lg_macro.specs.Cutting.{cut};
ghost use Rattle.lg_macro.specs.Defines.{spliced, written};
ghost use Rattle.lg_pre.specs.Directive.{directive_of};
ghost use Rattle.lg_pre.specs.Expanded.{lines_in, defines, undefines, opens_named, opens_if, read, obeyed, obeys, is_as_wanted, gives_lines, feeds_lines, flushes, waits, directed, directs, one_line, ended, finishes, start, table_by, start_table, expanded};
ghost use Rattle.lg_pre.specs.Conditions.{skipping};
ghost use Rattle.lg_pre.specs.Windows.{line_end, rest_of, LeadsTo, ReadsOn};
ghost use Rattle.lg_macro.specs.Text.{mark_in, pieces_on};
ghost use Rattle.lg_macro.specs.Macros.{CountsAs, StepsAs, Reads};
ghost use Rattle.std.specs.Prelude.{Ok};
ghost use Rattle.lg_macro.specs.Pieces.{piece_at, between};
ghost use Rattle.lg_pre.specs.PlainTexts.{IsPlain};
ghost use Rattle.std.specs.Prelude.{true, false};

use crate::conditions::Conditions;
use crate::directive::{Directive, directive_of};
use crate::flush::{feed, flush, flush_front};
use crate::questions::asks;
use lg_base::{OutOfMemory, RefusalKind, Stop};
use lg_lex::bytes::behind;
use lg_macro::arguments::without_ends;
use lg_macro::{
    MOST_HELD, Pieces, PlainText, Spare, Table, Work, first_pieces, line_len, mark_in, one_word,
    push_cut, refused, spliced, stripped_from, written,
};
use memchr::memchr;
use memchr::memmem::find;
use std::alloc::Global;

/// The outcome of a text has: macros, open conditions, the lines that wait for the next directive, bytes given, and the sum of replacements.
#[derive(Drop)]
pub struct Expander {
    pub table: Table,
    pub conditions: Conditions,
    pub lines: Pieces,
    pub given: PlainText,
    pub sum: usize,
}

// Reads a `#define`.
fn define(alloc: Global, table: &mut Table, line: u32, rest: &Pieces) -> Result<(), Stop>
    ensures { CountsAs result table.new (defines table.old line rest.now) }
{
    match written(alloc, rest)? {
        None => Err(refused(RefusalKind::BadDirective, line)),
        Some(entry) => Ok(table.define(entry)?),
    }
}

// Reads an `#undef`.
fn undefine(alloc: Global, table: &mut Table, line: u32, rest: &Pieces) -> Result<(), Stop>
    ensures { CountsAs result table.new (undefines table.old line rest.now) }
{
    match one_word(alloc, rest)? {
        None => Err(refused(RefusalKind::BadDirective, line)),
        Some(name) => {
            table.undefine(name.as_slice());
            Ok(())
        }
    }
}

// Returns whether a name is defined or not, as expected.
fn is_as_wanted(wanted: bool, is: bool) -> bool
    ensures { result ≡ is_as_wanted wanted is }
{
    if wanted { is } else { !is }
}

// Reads an `#ifdef` or `#ifndef`.
fn open_named(
    alloc: Global,
    table: &Table,
    conditions: &mut Conditions,
    line: u32,
    rest: &Pieces,
    wanted: bool,
) -> Result<(), Stop>
    ensures { CountsAs result conditions.new (opens_named table.now conditions.old line rest.now wanted) }
{
    match one_word(alloc, rest)? {
        None => Err(refused(RefusalKind::BadDirective, line)),
        Some(name) => {
            let is = table.place_in(name.as_slice()).is_some();
            conditions.open(line, true, is_as_wanted(wanted, is))
        }
    }
}

impl Expander {
    // Reads an `#if`.
    fn open_if(&mut self, alloc: Global, line: u32, rest: &Pieces) -> Result<(), Stop>
        ensures { CountsAs result self.new (opens_if self.old line rest.now) }
    {
        if self.conditions.is_full() {
            return Err(refused(RefusalKind::BadDirective, line));
        }
        let chosen = asks(alloc, &self.table, line, rest, &mut self.sum)?;
        self.conditions.open(line, true, chosen)
    }

    // Reads a directive of a group that is chosen.
    fn read(
        &mut self,
        alloc: Global,
        line: u32,
        rest: &Pieces,
        directive: Directive,
    ) -> Result<(), Stop>
        ensures { CountsAs result self.new (read self.old line rest.now directive) }
    {
        match directive {
            Directive::Nothing => Ok(()),
            Directive::Define => define(alloc, &mut self.table, line, rest),
            Directive::Undefine => undefine(alloc, &mut self.table, line, rest),
            Directive::IfDefined(wanted) => open_named(
                alloc,
                &self.table,
                &mut self.conditions,
                line,
                rest,
                wanted,
            ),
            Directive::If => self.open_if(alloc, line, rest),
            Directive::Else => self.conditions.turn(line, rest),
            Directive::EndIf => self.conditions.close(line, rest),
            Directive::Unknown => Err(refused(RefusalKind::BadDirective, line)),
        }
    }

    // Reads a directive by its name and what is after that.
    fn obeyed(
        &mut self,
        alloc: Global,
        line: u32,
        rest: &Pieces,
        directive: Directive,
    ) -> Result<(), Stop>
        ensures { CountsAs result self.new (obeyed self.old line rest.now directive) }
    {
        if self.conditions.is_skipping() {
            self.conditions.skip(line, rest, directive)
        } else {
            self.read(alloc, line, rest, directive)
        }
    }

    // Reads a directive by the pieces after its `#`.
    fn obey(&mut self, work: &mut Work, line: u32, body: Pieces) -> Result<(), Stop>
        ensures { CountsAs result self.new (obeys self.old line body) }
    {
        let directive = directive_of(&body);
        let name = body.len().min(1);
        let rest = stripped_from(body, name);
        let done = self.obeyed(work.alloc, line, &rest, directive);
        work.spare.give(rest);
        done
    }

    // Gives the lines that wait, expanded.
    fn give_lines(&mut self, work: &mut Work) -> Result<(), Stop>
        ensures { CountsAs result self.new (gives_lines self.old) }
    {
        work.hidden.clear();
        work.sum = self.sum;
        work.room = MOST_HELD;
        flush(&self.table, work, &self.lines, &mut self.given)?;
        self.sum = work.sum;
        self.lines.clear();
        Ok(())
    }

    // Gives the line feeds of the lines that wait.
    fn feed_lines(&mut self, alloc: Global) -> Result<(), Stop>
        ensures { CountsAs result self.new (feeds_lines self.old) }
    {
        let end = self.lines.len();
        feed(alloc, &self.lines, 0, end, &mut self.given)?;
        self.lines.clear();
        Ok(())
    }

    // Gives what becomes of the lines that wait.
    fn flush_lines(&mut self, work: &mut Work) -> Result<(), Stop>
        ensures { CountsAs result self.new (flushes self.old) }
    {
        if self.conditions.is_skipping() {
            self.feed_lines(work.alloc)
        } else {
            self.give_lines(work)
        }
    }

    // Reads a directive by its pieces, and gives its line feeds.
    fn directed(
        &mut self,
        work: &mut Work,
        text: &Pieces,
        at: usize,
        end: usize,
        line: u32,
        body: Pieces,
    ) -> Result<usize, Stop>
        requires order { at ≤ end }
        requires inside { end ≤ length text.now }
        ensures gives { StepsAs result self.new (directed text.now self.old at end line body) }
        ensures end { IfOk result (λ n. n ≡ end) }
    {
        self.obey(work, line, body)?;
        feed(work.alloc, text, at, end, &mut self.given)?;
        Ok(end)
    }

    // Reads a directive, its `#` at a place.
    fn direct(
        &mut self,
        work: &mut Work,
        text: &Pieces,
        at: usize,
        sign: usize,
        end: usize,
    ) -> Result<usize, Stop>
        requires order { at ≤ sign }
        requires some { sign < end }
        requires inside { end ≤ length text.now }
        ensures gives { StepsAs result self.new (directs text.now self.old at sign end) }
        ensures end { IfOk result (λ n. n ≡ end) }
    {
        self.flush_lines(work)?;
        let body = body_between(&mut work.spare, text, sign + 1, end)?;
        self.directed(work, text, at, end, text.line(sign), body)
    }

    // Reads a line between two places, by the pieces before its `#`.
    #[tactic(auto, unfolding(crate::specs::Expanded::one_line))]
    fn line_by(
        &mut self,
        work: &mut Work,
        text: &Pieces,
        at: usize,
        mark: Option<usize>,
        end: usize,
    ) -> Result<usize, Stop>
        requires mark { mark ≡ mark_in true (drop at text.now) }
        requires end { end ≡ line_end text.now at mark }
        requires order { at < end }
        requires sign { IfSome mark (λ n. at + n < end) }
        requires inside { end ≤ length text.now }
        ensures line { StepsAs result self.new (one_line text.now self.old at) }
        ensures end { IfOk result (λ n. n ≡ end) }
    {
        match mark {
            None => {
                self.lines.append_between(text, at, end)?;
                Ok(end)
            }
            Some(n) => self.direct(work, text, at, at + n, end),
        }
    }

    // Reads the line that begins at a place: the place after it.
    fn one_line(&mut self, work: &mut Work, text: &Pieces, at: usize) -> Result<usize, Stop>
        requires { at < length text.now }
        ensures line { StepsAs result self.new (one_line text.now self.old at) }
        ensures inside { IfOk result (λ n. (at < n) × (n ≤ length text.now)) }
    {
        let mark = mark_in(text, at);
        let end = line_end(text, at, mark);
        self.line_by(work, text, at, mark, end)
    }

    // Reads the lines that end before the last piece: the place after them.
    fn read_front(&mut self, work: &mut Work, text: &Pieces) -> Result<usize, Stop>
        ensures reads { ReadsOn result text.now self.old self.new }
        ensures inside { IfOk result (λ n. n ≤ length text.now) }
    {
        let end = text.len();
        let mut at = 0;
        'lines: while at < end {
            let mark = mark_in(text, at);
            let next = line_end(text, at, mark);
            if next >= end {
                return Ok(at);
            }
            at = self.line_by(work, text, at, mark, next)?;
        }
        Ok(at)
    }

    // Gives what is left at the end of a text.
    #[tactic(auto, unfolding(crate::specs::Expanded::finishes))]
    fn finish(&mut self, work: &mut Work) -> Result<(), Stop>
        ensures { CountsAs result self.new.given (finishes self.old) }
    {
        self.flush_lines(work)?;
        match self.conditions.innermost() {
            None => Ok(()),
            Some(condition) => Err(refused(RefusalKind::BadDirective, condition.line)),
        }
    }

    // Reads the lines of pieces, and gives what they expand to.
    fn read_lines(&mut self, work: &mut Work, text: &Pieces) -> Result<(), Stop>
        ensures { CountsAs result self.new.given (lines_in (length text.now) text.now self.old 0) }
    {
        let end = text.len();
        let mut at = 0;
        'lines: while at < end {
            let next = self.one_line(work, text, at)?;
            at = next;
        }
        self.finish(work)
    }

    // Gives of the lines that wait, in a group that is chosen, what no line after them can change.
    fn give_front(&mut self, work: &mut Work) -> Result<(), Stop>
        requires { skipping self.old.conditions ≡ false }
        ensures { LeadsTo result [] self.old [] self.new }
    {
        work.hidden.clear();
        work.sum = self.sum;
        work.room = MOST_HELD;
        let n = flush_front(&self.table, work, &self.lines, &mut self.given)?;
        self.sum = work.sum;
        self.lines.drop_first(n);
        Ok(())
    }

    // Gives of the lines that wait what no line after them can change.
    fn give_early(&mut self, work: &mut Work) -> Result<(), Stop>
        ensures { LeadsTo result [] self.old [] self.new }
    {
        if self.conditions.is_skipping() {
            self.feed_lines(work.alloc)
        } else {
            self.give_front(work)
        }
    }

    // Gives early where more pieces wait than there is room for: the room from then on.
    fn give_where_full(&mut self, work: &mut Work, room: usize) -> Result<usize, Stop>
        ensures { LeadsTo result [] self.old [] self.new }
    {
        if self.lines.len() < room {
            return Ok(room);
        }
        self.give_early(work)?;
        let left = self.lines.len();
        Ok(left.saturating_add(left).saturating_add(PART))
    }

    // Reads the lines of a part of a text that are whole, and takes them out of it: the room for lines that wait.
    fn read_part(
        &mut self,
        work: &mut Work,
        pieces: &mut Pieces,
        room: usize,
    ) -> Result<usize, Stop>
        ensures { LeadsTo result pieces.old self.old pieces.new self.new }
    {
        let n = self.read_front(work, pieces)?;
        pieces.drop_first(n);
        self.give_where_full(work, room)
    }

    // Reads all lines of a text, part after part, and gives what they expand to.
    fn read_text(&mut self, alloc: Global, text: &[u8]) -> Result<(), Stop>
        requires { length text.now ≤ 16777216 }
        ensures { CountsAs result self.new.given (rest_of (pieces_on 1 text.now) self.old) }
    {
        let end = text.len();
        let mut work = Work {
            alloc,
            hidden: Vec::new(alloc),
            sum: 0,
            room: MOST_HELD,
            spare: Spare::new(alloc),
        };
        let mut pieces = Pieces::new(alloc);
        let mut at = 0;
        let mut line: u32 = 1;
        let mut room = PART;
        'parts: while at < end {
            let most = pieces.len().saturating_add(PART);
            let front = first_pieces(alloc, behind(text, at), line, most)?;
            pieces.append(&front.pieces)?;
            room = self.read_part(&mut work, &mut pieces, room)?;
            line = front.line;
            at += front.len;
        }
        self.read_lines(&mut work, &pieces)
    }
}

// How many pieces of a text are cut at once, where none are left of those before.
const PART: usize = 1024;

// Returns the place after a line that begins at a place, by the pieces before its `#`.
fn line_end(text: &Pieces, at: usize, mark: Option<usize>) -> usize
    requires begins { at < length text.now }
    requires sign { IfSome mark (λ n. at + n < length text.now) }
    ensures value { result ≡ line_end text.now at mark }
    ensures after { at < result }
    ensures sign { IfSome mark (λ n. at + n < result) }
    ensures inside { result ≤ length text.now }
{
    let _len = text.len();
    match mark {
        None => at + line_len(text, at, false),
        Some(n) => at + n + line_len(text, at + n, true),
    }
}

// The pieces of a directive between two places, white space at their ends taken off.
fn body_between(
    spare: &mut Spare,
    text: &Pieces,
    from: usize,
    end: usize,
) -> Result<Pieces, OutOfMemory>
    requires order { from ≤ end }
    requires inside { end ≤ length text.now }
    ensures { IfOk result (λ r. r ≡ stripped (spliced (between from end text.now))) }
{
    let body = spliced(spare, text, from, end)?;
    Ok(without_ends(body))
}

// Returns the pieces of the definition of `__WORDSIZE`.
fn word_size(alloc: Global) -> Result<Pieces, OutOfMemory>
    ensures { IfOk result (λ r. r ≡ cut 0 (codes "__WORDSIZE 64")) }
{
    let mut pieces = Pieces::new(alloc);
    push_cut(&mut pieces, b"__WORDSIZE 64", 0)?;
    Ok(pieces)
}

// Adds the macro that pieces write to no macros.
fn define_first(alloc: Global, table: &mut Table, pieces: &Pieces) -> Result<(), OutOfMemory>
    requires { table.old ≡ [] }
    ensures { OnOk result (table.new ≡ table_by (written pieces.now)) }
{
    match written(alloc, pieces)? {
        None => Ok(()),
        Some(entry) => table.define(entry),
    }
}

// Defines `__WORDSIZE` in a table of no macros.
fn define_word_size(alloc: Global, table: &mut Table) -> Result<(), OutOfMemory>
    requires { table.old ≡ [] }
    ensures { OnOk result (table.new ≡ start_table) }
{
    let pieces = word_size(alloc)?;
    define_first(alloc, table, &pieces)
}

// Returns the table that defines `__WORDSIZE`.
fn start_table(alloc: Global) -> Result<Table, OutOfMemory>
    ensures { IfOk result (λ r. r ≡ start_table) }
{
    let mut table = Table::new(alloc);
    define_word_size(alloc, &mut table)?;
    Ok(table)
}

// What a text begins with.
fn start(alloc: Global) -> Result<Expander, OutOfMemory>
    ensures { IfOk result (λ r. r ≡ start) }
{
    let table = start_table(alloc)?;
    Ok(Expander {
        table,
        conditions: Conditions::new(alloc),
        lines: Pieces::new(alloc),
        given: PlainText::new(alloc),
        sum: 0,
    })
}

// Returns the expansion of a text, whose lines are read.
#[tactic(auto, unfolding(crate::specs::Expanded::expanded))]
fn expand_lines(alloc: Global, text: &[u8]) -> Result<PlainText, Stop>
    requires { length text.now ≤ 16777216 }
    ensures { Reads result (expanded text.now) }
{
    let mut expander = start(alloc)?;
    expander.read_text(alloc, text)?;
    Ok(expander.given)
}

// Returns whether no byte of a text is a `#`, and the name that is defined at the start is bound nowhere in it.
fn is_plain(text: &[u8]) -> bool
    ensures { result ≡ true → IsPlain text.now }
{
    memchr(b'#', text).is_none() && find(text, b"__WORDSIZE").is_none()
}

// A plain text as it is.
#[tactic(auto, using(crate::proofs::PlainScans::plain_expands))]
fn stay(alloc: Global, text: &[u8]) -> Result<PlainText, Stop>
    requires short { length text.now ≤ 16777216 }
    requires plain { IsPlain text.now }
    ensures { Reads result (expanded text.now) }
{
    Ok(PlainText::of(alloc, text)?)
}

/// Returns the expansion of a text of at most 16,777,216 bytes, or its first fault, `BadDirective`, `BadMacro` or `ExpandTooMuch`, with its line.
pub fn expand(alloc: Global, text: &[u8]) -> Result<PlainText, Stop>
    requires { length text.now ≤ 16777216 }
    ensures { Reads result (expanded text.now) }
{
    if is_plain(text) {
        return stay(alloc, text);
    }
    expand_lines(alloc, text)
}
