// Changes of a text.

ghost use Rattle.std.specs.Prelude.{◌≤◌, length};

use lg_base::OutOfMemory;
use lg_tally::Random;
use std::alloc::Global;

// Bytes that mean something in a text.
const MARKS: &[u8] = b"\"'#%@$:.,()\\\n\t /*-+0x9_ZdfDF\x00\xff";

// The place of a byte of a text, or after its last.
fn place(random: &mut Random, text: &[u8]) -> usize
    ensures { result ≤ length text.now }
{
    random.below(text.len().min(1 << 20) + 1).min(text.len())
}

// A text with some bytes in place of those between two places.
fn replaced(
    alloc: Global,
    text: &[u8],
    from: usize,
    to: usize,
    by: &[u8],
) -> Result<Vec<u8>, OutOfMemory>
    requires order { from ≤ to }
    requires inside { to ≤ length text.now }
{
    let mut out = Vec::new(alloc);
    out.extend_from_slice(&text[..from])?;
    out.extend_from_slice(by)?;
    out.extend_from_slice(&text[to..])?;
    Ok(out)
}

// A text in which one place was changed: a byte is any, or a mark, some bytes are gone, or some are there that are elsewhere.
fn changed_once(alloc: Global, text: &[u8], random: &mut Random) -> Result<Vec<u8>, OutOfMemory> {
    let from = place(random, text);
    let some = random.below(16).min(text.len() - from);
    let one = some.min(1);
    match random.below(4) {
        0 => replaced(
            alloc,
            text,
            from,
            from + one,
            &[(random.word() >> 56) as u8],
        ),
        1 => {
            let mark = MARKS[random.below(MARKS.len())];
            replaced(alloc, text, from, from + one, &[mark])
        }
        2 => replaced(alloc, text, from, from + some, b""),
        _ => {
            let start = place(random, text);
            let end = start + random.below(32).min(text.len() - start);
            replaced(alloc, text, from, from, &text[start..end])
        }
    }
}

/// A text in which one to four places were changed.
pub fn changed(alloc: Global, text: &[u8], random: &mut Random) -> Result<Vec<u8>, OutOfMemory> {
    let mut out = changed_once(alloc, text, random)?;
    for _ in 0..random.below(4) {
        out = changed_once(alloc, &out, random)?;
    }
    Ok(out)
}
