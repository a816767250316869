//! Laws of the words that are reported. The functions do nothing: their contracts are the laws.

ghost use Rattle.lg_explain.specs.Blamed.{LabelsAreBlamed, WordsAreBlamed};
ghost use Rattle.lg_explain.specs.FormsTaken.{FormsAreTaken};
ghost use Rattle.lg_explain.specs.MisfitsRefused.{MisfitsAreRefused};
ghost use Rattle.lg_explain.specs.ReasonsHold.{ReasonsHold};
ghost use Rattle.lg_explain.specs.TwiceMade.{FirstIsMadeTwice, FirstIsTold, TwiceIsWhereReadingStops};

/// The label that is reported of nodes that are refused is the one that the kind blames at the first node that is refused, whose line the refusal has: the
/// first operand that is a label which nothing binds, the first that leads where it may not, or the first label that is bound there while a call is being
/// prepared. None is reported exactly where there is no such label.
pub fn labels_are_blamed()
    ensures { LabelsAreBlamed }
{}

/// The word that is reported of what was read, whose unit is refused, is that of this label.
pub fn words_are_blamed()
    ensures { WordsAreBlamed }
{}

/// The word that a text makes a second time is that of the first token that makes a label again, or a name again in its function: no token before it does.
pub fn first_is_made_twice()
    ensures { FirstIsMadeTwice }
{}

/// And it is the word that is reported of what was read, whose expansion has no unit.
pub fn first_is_told()
    ensures { FirstIsTold }
{}

/// And that token is where the reading stops: a text that is refused because a word is made twice is refused in the line of the first token that makes one
/// again.
pub fn twice_is_where_reading_stops()
    ensures { TwiceIsWhereReadingStops }
{}

/// A token counts as no operand of a form exactly where the reading of operands refuses it for its form, whatever labels and names the text has made.
pub fn misfits_are_refused()
    ensures { MisfitsAreRefused }
{}

/// The reason that is given for an undefined step holds of the state before it, in the words of its row of the table: an operand's register has no word, the
/// carry is not one that the operation takes in, and so on.
pub fn reasons_hold()
    ensures { ReasonsHold }
{}

/// A statement that begins with a word, but for `note`, is read from that token and one for each form that counts as left after it: so the words that a text
/// makes twice are looked for in the statements of the reading.
pub fn forms_are_taken()
    ensures { FormsAreTaken }
{}
