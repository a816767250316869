// Bytes that are run as code.

ghost use Rattle.std.specs.Prelude.{◌≤◌, length};

use lg_tally::Random;

/// The most bytes of a run's code.
pub const MOST: usize = 64;

/// Any bytes.
pub fn any(random: &mut Random) -> [u8; MOST] {
    let mut bytes = [0; MOST];
    for place in 0..MOST {
        bytes[place] = (random.word() >> 56) as u8;
    }
    bytes
}

/// The bytes of some code with zeros after it, one to four bytes of which were changed.
pub fn changed(random: &mut Random, code: &[u8]) -> [u8; MOST]
    requires { length code.now ≤ 64 }
{
    let mut bytes = [0; MOST];
    for place in 0..code.len() {
        bytes[place] = code[place];
    }
    for _ in 0..1 + random.below(4) {
        let place = random.below(MOST);
        bytes[place] = (random.word() >> 56) as u8;
    }
    bytes
}
