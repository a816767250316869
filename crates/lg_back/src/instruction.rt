// The lines of instructions, read back.

ghost use Rattle.std.specs.Prelude.{◌≡◌, length, IfSome, IfNone};
ghost use Rattle.lg_list.specs.Instructions.{spelling};
ghost use Rattle.lg_list.specs.Lines.{instruction_line};
ghost use Rattle.lg_list.specs.Lines.Entry.{Code};
ghost use Rattle.lg_list.specs.declared.instruction.Instruction.{Instruction};
ghost use Rattle.lg_back.specs.Reading.{HasLine, HasCodeLine};

use crate::digits::{behind, read_hex};
use crate::line_bytes::LineBytes;
use lg_base::Target;
use lg_list::Line;
use lg_list::instruction::decode;

/// Returns the length of the line of an instruction at an address that a text begins with, and replaces the bytes by those of the instruction. The line to
/// compare with is written into one that is given; what it has is not looked at.
pub fn read_instruction(
    target: Target,
    at: u32,
    text: &[u8],
    line: &mut Line,
    bytes: &mut LineBytes,
) -> Option<usize>
    ensures found { IfSome result (HasCodeLine target at text.now bytes.new) }
    ensures none { IfNone result ((i : Instruction) → ¬ HasLine target at text.now (Code i)) }
{
    if !read_hex(behind(text, 10), bytes) {
        return None;
    }
    match &decode(target, bytes.as_slice()) {
        None => None,
        Some((instruction, length)) => {
            instruction.write_line(at, &bytes.as_slice()[..*length as usize], line);
            let line = line.as_slice();
            if text.starts_with(line) {
                Some(line.len())
            } else {
                None
            }
        }
    }
}
