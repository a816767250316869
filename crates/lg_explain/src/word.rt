// The word that a refusal blames.

ghost use Rattle.std.specs.Prelude.{◌≡◌, ◌≤◌, length, IfOk};
ghost use Rattle.std.specs.Option.{option_and_then, option_map};
ghost use Rattle.lg_explain.specs.Blames.{label_of, word_in, word_of};
ghost use Rattle.lg_explain.specs.Lines.{shown};
ghost use Rattle.lg_explain.specs.Words.{blamed_as, blamed_by, names_word, token_in, word_told};
ghost use Rattle.lg_pre.specs.Expanded.{expanded};
ghost use Rattle.lg_tst.specs.Units.{unit_of};

use crate::bad_byte::bad_byte;
use crate::calls::first_between;
use crate::line::Shown;
use crate::misfit::first_misfit;
use crate::targets::{first_astray, first_missing};
use crate::twice::made_twice;
use crate::unknown::first_unknown;
use lg_base::{OutOfMemory, RefusalKind, Stop};
use lg_node::tables::homes;
use lg_node::{Label, NodeList};
use lg_pre::expand;
use lg_tst::parse;
use std::alloc::Global;

// ---- of nodes

// Returns the label that a kind blames at the first node that it refuses.
fn label_of(
    alloc: Global,
    kind: RefusalKind,
    nodes: &NodeList,
) -> Result<Option<Label>, OutOfMemory>
    ensures { IfOk result (λ label. label ≡ label_of kind nodes.now) }
{
    match kind {
        RefusalKind::LabelMissing => Ok(first_missing(nodes)),
        RefusalKind::TargetOutside => {
            let homes = homes(alloc, nodes)?;
            Ok(first_astray(nodes, &homes))
        }
        RefusalKind::BadCall => Ok(first_between(nodes)),
        _ => Ok(None),
    }
}

// Returns the word of a label, as it is shown.
fn word_of(nodes: &NodeList, label: Label) -> Option<Shown>
    ensures { result ≡ option_map shown (word_of nodes.now label) }
{
    if label.0 < nodes.labels() {
        Some(Shown::of(nodes.word(label)))
    } else {
        None
    }
}

// Returns the word of that label.
fn word_in(alloc: Global, kind: RefusalKind, nodes: &NodeList) -> Result<Option<Shown>, OutOfMemory>
    ensures { IfOk result (λ word. word ≡ option_map shown (word_in kind nodes.now)) }
{
    match label_of(alloc, kind, nodes)? {
        Some(label) => Ok(word_of(nodes, label)),
        None => Ok(None),
    }
}

// ---- of texts

// Returns the word of a text's tokens that a kind blames, or what is said of them.
fn token_in(alloc: Global, kind: RefusalKind, text: &[u8]) -> Result<Option<Shown>, OutOfMemory>
    requires { length text.now ≤ 16777216 }
    ensures { IfOk result (λ word. word ≡ option_map shown (token_in kind text.now)) }
{
    match kind {
        RefusalKind::BadToken => Ok(bad_byte(text)),
        RefusalKind::UnknownName => Ok(first_unknown(text)),
        RefusalKind::BadOperand => Ok(first_misfit(text)),
        RefusalKind::LabelTwice => made_twice(alloc, text),
        _ => Ok(None),
    }
}

// Returns the word that a kind blames in a text.
fn blamed_as(alloc: Global, kind: RefusalKind, text: &[u8]) -> Result<Option<Shown>, OutOfMemory>
    requires { length text.now ≤ 16777216 }
    ensures { IfOk result (λ word. word ≡ option_map shown (blamed_as kind text.now (unit_of text.now))) }
{
    match parse(alloc, text) {
        Ok(unit) => word_in(alloc, kind, &unit.nodes),
        Err(Stop::Refused(_)) => token_in(alloc, kind, text),
        Err(Stop::OutOfMemory) => Err(OutOfMemory),
    }
}

// Returns the word that a kind blames in what was read.
fn blamed_by(alloc: Global, kind: RefusalKind, read: &[u8]) -> Result<Option<Shown>, OutOfMemory>
    requires { length read.now ≤ 16777216 }
    ensures { IfOk result (λ word. word ≡ option_map shown (blamed_by kind (expanded read.now))) }
{
    match expand(alloc, read) {
        Ok(text) => blamed_as(alloc, kind, text.as_slice()),
        Err(Stop::Refused(_)) => Ok(None),
        Err(Stop::OutOfMemory) => Err(OutOfMemory),
    }
}

// Returns whether a kind is about a word.
fn names_word(kind: RefusalKind) -> bool
    ensures { result ≡ names_word kind }
{
    matches!(
        kind,
        RefusalKind::BadToken
            | RefusalKind::UnknownName
            | RefusalKind::BadOperand
            | RefusalKind::LabelTwice
            | RefusalKind::LabelMissing
            | RefusalKind::TargetOutside
            | RefusalKind::BadCall
    )
}

/// Returns the word that a refusal of what was read blames, by its kind, as it is shown: what was read, which has at most 16,777,216 bytes, is expanded and
/// read once more for it.
pub fn blamed_word(
    alloc: Global,
    kind: RefusalKind,
    read: &[u8],
) -> Result<Option<Shown>, OutOfMemory>
    requires { length read.now ≤ 16777216 }
    ensures { IfOk result (λ word. word ≡ word_told read.now kind) }
{
    if names_word(kind) {
        blamed_by(alloc, kind, read)
    } else {
        Ok(None)
    }
}
