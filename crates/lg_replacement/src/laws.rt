// What replacement is in the words of the C standard. The functions do nothing: their contracts are the laws.

ghost use Rattle.lg_replacement.specs.Calls.{BodiesAreFilled, CallsReplaceNames, PastedBodiesReplaceNames};
ghost use Rattle.lg_replacement.specs.Replacements.{BodiesReplaceNames, HiddenNamesStay, OthersStay};

/// Pieces that name no macro stay as they are.
pub fn other_pieces_stay()
    ensures { OthersStay }
{}

/// A name inside of its own replacement stays, and is never replaced later.
pub fn hidden_names_stay()
    ensures { HiddenNamesStay }
{}

/// A name without parameters, whose body has no `##`, is replaced by its body, which is scanned again with the name hidden.
pub fn bodies_replace_names()
    ensures { BodiesReplaceNames }
{}

/// Such a body may have `##`: what is on both sides of it is put together first.
pub fn pasted_bodies_replace_names()
    ensures { PastedBodiesReplaceNames }
{}

/// A name with parameters and a call of it are replaced by the body, with an argument in place of each parameter: expanded, and beside `##` as it is written,
/// with what is on both sides of a `##` put together. The body is scanned again with the name hidden, and the line feeds of the call follow it. Each body can
/// be filled so, where no `##` begins it.
pub fn calls_replace_names()
    ensures replaced { CallsReplaceNames }
    ensures filled { BodiesAreFilled }
{}
