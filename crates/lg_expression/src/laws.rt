// Laws of the grammar.

ghost use Rattle.lg_expression.specs.Grammar.{SpellOnce};

/// A text spells one list of steps at most.
pub fn texts_spell_once()
    ensures { SpellOnce }
{}
