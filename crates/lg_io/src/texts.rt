// Sources of texts.

ghost use Rattle.std.specs.Prelude.{◌≡◌, ℕ, ◌≤◌, Bool, List, Option, length, IfOk, OnOk, OnErr, is_ok};
ghost use Rattle.std.specs.Io.KnownBytes.{ReadConsumes};
ghost use Rattle.lg_io.specs.Counts.{HasCause};
ghost use Rattle.lg_io.specs.NamedTexts.{NamedTexts, ReadsSurely, Selects, SelectsSurely};
ghost use Rattle.lg_io.specs.Readings.{behind_read, behind_select, ends_reading};
ghost use Rattle.lg_io.specs.declared.reading.Reading.{Reading};

use thiserror::Error;

/// Why a text could not be selected or read.
#[derive(Clone, Copy, Debug, PartialEq, Eq, Error)]
pub enum TextFault {
    /// The call failed, and the source's count of faults rose.
    #[error("a read failed")]
    Failed,
}

/// Gives texts by their names, the selected one piece by piece.
pub trait Texts {
    /// The texts by name, where the source shows them.
    ghost held: { Self → Option NamedTexts };

    /// What is left of the selected text, where the source shows it.
    ghost left: { Self → Option (List ℕ) };

    /// How often a call failed.
    ghost faults: { Self → ℕ };

    /// Whether the source is sure: no call of it fails but a select of a name that it does not hold.
    ghost sure: { Self → Bool };

    /// How often a text was asked for, whether reading the selected one is over, and how often it was read after that.
    ghost reading: { Self → Reading };

    /// Selects the text of a name, from its first byte on. After a fault what is left is as before.
    fn select(&mut self, name: &str) -> Result<(), TextFault>
        ensures held { held self.new ≡ held self.old }
        ensures left { OnOk result (Selects (held self.old) (left self.new) name.now) }
        ensures err { OnErr result (left self.new ≡ left self.old) }
        ensures sure { SelectsSurely (sure self.old) (sure self.new) (held self.old) name.now result }
        ensures reading { reading self.new ≡ behind_select (reading self.old) (is_ok result) }
        ensures cause { HasCause (faults self.old) (faults self.new) result };

    /// Moves bytes from the front of what is left into the front of the slice, and says how many: none only at the end, or where
    /// the slice is empty. After a fault none were taken. What the rest of the slice then holds is left open.
    fn read(&mut self, into: &mut [u8]) -> Result<usize, TextFault>
        ensures held { held self.new ≡ held self.old }
        ensures bound { IfOk result (λ n. n ≤ length into.old) }
        ensures bytes { ReadConsumes (left self.old) (left self.new) result into.new }
        ensures sure { ReadsSurely (sure self.old) (sure self.new) result }
        ensures reading { reading self.new ≡ behind_read (reading self.old) (ends_reading result) }
        ensures cause { HasCause (faults self.old) (faults self.new) result };
}
