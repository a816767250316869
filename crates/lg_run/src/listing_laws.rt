// Laws of the listings of assembled code. The functions do nothing, or call once: their contracts are the laws.

ghost use Rattle.std.specs.Prelude.{◌≡◌, ◌≤◌, ◌+◌, ◌++◌, ℕ, List, length};
ghost use Rattle.lg_base.specs.Layout.{code_base};
ghost use Rattle.lg_base.specs.declared.target.Target.{Target as AnyTarget};
ghost use Rattle.lg_back.specs.Answers.{GivesBack};
ghost use Rattle.lg_back.specs.Refused.{HasBadLine};
ghost use Rattle.lg_list.specs.Back.{Back as IsBack, IsEntry};
ghost use Rattle.lg_list.specs.Lines.{Entry, first_line, line_of, rendered};
ghost use Rattle.lg_list.specs.Listing.{listing};
ghost use Rattle.lg_run.specs.Feeds.{IsLine, feeds};

use lg_asm::Code;
use lg_back::{Back, read_back};
use lg_base::Stop;
use lg_list::laws::listing_reads_back;
use std::alloc::Global;

/// The listing of code that was assembled, read back, gives its target and its bytes.
pub fn code_listings_read_back(code: &Code)
    ensures { IsBack (listing code.now.target code.now.bytes code.now.places code.now.nodes) code.now.target code.now.bytes }
{
    let target = code.target();
    let nodes = code.nodes();
    nodes.what_holds();
    listing_reads_back(target, code.bytes(), nodes, code.places(), code.labels());
}

/// The call reads the listing of code that was assembled back: its target and its bytes, or memory runs out.
pub fn code_listings_are_read_back(alloc: Global, text: &[u8], code: &Code) -> Result<Back, Stop>
    requires text { text.now ≡ listing code.now.target code.now.bytes code.now.places code.now.nodes }
    requires small { length text.now ≤ 4294967294 }
    ensures { GivesBack result code.now.target code.now.bytes }
{
    code_listings_read_back(code);
    read_back(alloc, text)
}

/// Each line of a listing ends with its one line feed: the first, and whatever is after it.
pub fn lines_are_lines()
    ensures first { (t : AnyTarget) (count : ℕ) → IsLine (first_line t count) }
    ensures other { (t : AnyTarget) (at : ℕ) (e : Entry) → IsEntry t e → IsLine (line_of at e) }
{}

/// So the line that is to blame where a line is not of the form has the number of the text's line: one more than the line feeds in front of it.
pub fn bad_lines_are_lines()
    ensures { (text : List ℕ) (line : ℕ) (bad : HasBadLine text line) → line ≡ feeds (first_line bad.t bad.count ++ rendered code_base bad.lines) + 1 }
{}
