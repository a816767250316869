// The lines after the first, read back.

ghost use Rattle.std.specs.Prelude.{◌≡◌, ◌++◌, ℕ, List, length, codes, IfSome, IfNone};
ghost use Rattle.std.specs.List.{list_all};
ghost use Rattle.lg_base.specs.WordBytes.{is_word_byte};
ghost use Rattle.lg_base.specs.declared.target.Target.{Target as AnyTarget};
ghost use Rattle.lg_node.specs.Nodes.{is_word};
ghost use Rattle.lg_op.specs.declared.op.Op.{Op as AnyOp};
ghost use Rattle.lg_list.specs.Lines.{Entry, line_of, bytes_of, address, node_line, label_line};
ghost use Rattle.lg_list.specs.Lines.Entry.{Label, Node};
ghost use Rattle.lg_back.specs.Reading.{HasLine, HasNoLine, HasNodeLine, HasLabelLine};

use crate::digits::{behind, comment_words, read_decimal, until};
use crate::instruction::read_instruction;
use crate::line_bytes::LineBytes;
use lg_base::Target;
use lg_base::word_bytes::{is_word_byte, is_word_start};
use lg_list::Line;
use lg_list::lines::write_node_line;
use lg_node::Op;

// The length of the line of a node that a text begins with. What the line has is not looked at.
fn read_node(text: &[u8], line: &mut Line) -> Option<usize>
    ensures found { IfSome result (HasNodeLine text.now) }
    ensures none { IfNone result ((t : AnyTarget) (at line : ℕ) (op : AnyOp) → ¬ HasLine t at text.now (Node line op)) }
{
    let (digits, name) = comment_words(text);
    let number = read_decimal(digits)?;
    let op = Op::by_name(name)?;
    write_node_line(number, op, line);
    let line = line.as_slice();
    if text.starts_with(line) {
        Some(line.len())
    } else {
        None
    }
}

// Returns whether a word may go on with all of these bytes.
fn are_word_bytes(bytes: &[u8]) -> bool
    ensures { result ≡ list_all is_word_byte bytes.now }
{
    bytes.iter().all(|byte| is_word_byte(*byte))
}

// Returns whether bytes are a word of a text.
fn is_word(bytes: &[u8]) -> bool
    ensures { result ≡ is_word bytes.now }
{
    match bytes {
        [] => false,
        [first, rest @ ..] => is_word_start(*first) && are_word_bytes(rest),
    }
}

// Puts how the line of a label at an address begins in the place of what a line has.
fn write_label_front(at: u32, line: &mut Line)
    ensures { line.new ≡ address at ++ codes " " }
{
    line.clear();
    line.push_hex(&at.to_be_bytes());
    line.push(b" ");
}

// The length of the line of a label at an address that a text begins with. What the line has is not looked at.
fn read_label(at: u32, text: &[u8], line: &mut Line) -> Option<usize>
    ensures found { IfSome result (HasLabelLine at text.now) }
    ensures none { IfNone result ((t : AnyTarget) (word : List ℕ) → ¬ HasLine t at text.now (Label word)) }
{
    write_label_front(at, line);
    let rest = behind(text, 9);
    let word = until(rest, b':');
    if !text.starts_with(line.as_slice()) {
        return None;
    }
    if !is_word(word) {
        return None;
    }
    if behind(rest, word.len()).starts_with(b":\n") {
        Some(11 + word.len())
    } else {
        None
    }
}

/// Returns the length of the line that a text begins with, its line feed included: one after the first of a listing for a target, at an address. The bytes are
/// replaced by those that the line denotes, none but of an instruction. Lines to compare with are written into one that is given; what it has is not looked at.
pub fn read_entry(
    target: Target,
    at: u32,
    text: &[u8],
    line: &mut Line,
    bytes: &mut LineBytes,
) -> Option<usize>
    ensures found { IfSome result (λ len. (e : Entry) × HasLine target at text.now e × (bytes.new ≡ bytes_of e) × (len ≡ length (line_of at e))) }
    ensures none { IfNone result (HasNoLine target at text.now) }
{
    if text.starts_with(b";") {
        bytes.clear();
        return read_node(text, line);
    }
    if behind(text, 9).starts_with(b" ") {
        return read_instruction(target, at, text, line, bytes);
    }
    bytes.clear();
    read_label(at, text, line)
}
