// The first line of a listing, read back.

ghost use Rattle.std.specs.Prelude.{◌≡◌, ℕ, length, IfSome, IfNone};
ghost use Rattle.lg_base.specs.declared.target.Target.{Target as AnyTarget};
ghost use Rattle.lg_list.specs.Lines.{first_line, target_word};
ghost use Rattle.lg_back.specs.Reading.{HasHead};

use crate::digits::{comment_words, read_decimal};
use lg_base::Target;
use lg_list::lines::first_line;

// The most bytes of code.
const MOST_CODE: u32 = 0x400_0000;

/// The first line of a listing.
#[derive(Clone, Copy)]
pub struct Head {
    /// The target that it names.
    pub target: Target,
    /// The number of bytes that it names, at most 67,108,864.
    pub count: u32,
    /// The length of the line, its line feed included.
    pub len: usize,
}

// Returns the target whose option word a first line has, if it has one.
fn read_target(word: &[u8]) -> Option<Target>
    ensures { (t : AnyTarget) → word.now ≡ target_word t → result ≡ Some t }
{
    match word {
        [b'x', ..] => Some(Target::X86_64),
        [b'a', ..] => Some(Target::Aarch64),
        [b'r', ..] => Some(Target::Riscv64),
        _ => None,
    }
}

/// Returns the first line of a listing, which a text begins with.
pub fn read_head(text: &[u8]) -> Option<Head>
    ensures found { IfSome result (λ head. HasHead text.now head.target head.count × (head.len ≡ length (first_line head.target head.count))) }
    ensures none { IfNone result ((t : AnyTarget) (count : ℕ) → ¬ HasHead text.now t count) }
{
    let (word, number) = comment_words(text);
    let target = read_target(word)?;
    let count = read_decimal(number)?;
    if count > MOST_CODE {
        return None;
    }
    let line = first_line(target, count);
    let line = line.as_slice();
    if text.starts_with(line) {
        Some(Head {
            target,
            count,
            len: line.len(),
        })
    } else {
        None
    }
}
