// Whether the prefixes are those that a row asks for: REX with W, for two registers or for one; REX without W, for one, where it
// is needed; REX for the low byte of one; REX with W or without, for two; none.

ghost use Rattle.std.specs.Prelude.{◌≡◌, ◌==◌, ◌&&◌, not};
ghost use Rattle.lg_x86.specs.Reading.{is_wide, is_wide_one, is_plain_one, is_low_one, is_marked, is_low};
ghost use Rattle.lg_x86.specs.Reading.{mark_in};

use crate::rows::Mark;

#[inline(always)]
#[tactic(auto, unfolding(crate::specs::Reading::is_wide))]
pub(crate) fn asks_wide(is_word_sized: bool, rex: u8) -> bool
    ensures { result ≡ (not is_word_sized && is_wide rex) }
{
    !is_word_sized && rex / 8 % 2 == 1 && rex / 2 % 2 == 0
}

#[inline(always)]
#[tactic(auto, unfolding(crate::specs::Reading::is_wide_one))]
pub(crate) fn asks_wide_one(is_word_sized: bool, rex: u8) -> bool
    ensures { result ≡ (not is_word_sized && is_wide_one rex) }
{
    !is_word_sized && rex / 8 % 2 == 1 && rex / 2 % 4 == 0
}

#[inline(always)]
#[tactic(auto, unfolding(crate::specs::Reading::is_plain_one))]
pub(crate) fn asks_plain_one(is_word_sized: bool, rex: u8) -> bool
    ensures { result ≡ (not is_word_sized && is_plain_one rex) }
{
    !is_word_sized && (rex == 0 || rex == 0x41)
}

#[inline(always)]
#[tactic(auto, unfolding(crate::specs::Reading::is_low_one))]
pub(crate) fn asks_low_one(is_word_sized: bool, rex: u8) -> bool
    ensures { result ≡ (not is_word_sized && is_low_one rex) }
{
    !is_word_sized && (rex == 0x40 || rex == 0x41)
}

#[inline(always)]
pub(crate) fn asks_marked(is_word_sized: bool, rex: u8) -> bool
    ensures { result ≡ (not is_word_sized && is_marked rex) }
{
    !is_word_sized && is_marked(rex)
}

#[inline(always)]
pub(crate) fn asks_none(is_word_sized: bool, rex: u8) -> bool
    ensures { result ≡ (not is_word_sized && (rex == 0)) }
{
    !is_word_sized && rex == 0
}

#[inline(always)]
#[tactic(auto, unfolding(crate::specs::Reading::is_marked))]
pub(crate) fn is_marked(rex: u8) -> bool
    ensures { result ≡ is_marked rex }
{
    rex / 2 % 2 == 0 && rex != 0x40
}

// and for the low bytes of two
#[inline(always)]
#[tactic(auto, unfolding(crate::specs::Reading::is_low))]
pub(crate) fn is_low(rex: u8) -> bool
    ensures { result ≡ is_low rex }
{
    rex / 8 == 8 && rex / 2 % 2 == 0
}

// what REX asks for, or the lack of it
#[inline(always)]
pub(crate) fn mark(rex: u8) -> Mark
    ensures { result ≡ mark_in rex }
{
    if rex / 8 % 2 == 1 {
        Mark::Wide
    } else {
        Mark::Plain
    }
}
