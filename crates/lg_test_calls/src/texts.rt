// Texts as they are in `examples`, with what they mean by the definitions.

ghost use Rattle.std.specs.Prelude.{◌∷◌, []};
ghost use Rattle.lg_test_calls.specs.Meant.{Means};

/// Writes `A`, which is 60 + 5, and ends with status 3 at its tenth node.
pub fn first_letter() -> &'static [u8]
    ensures means { Means result.now 10 3 (65 ∷ []) }
{
    b".code\n\tprolog\n\tmovi\t%r0 60\n\taddi\t%r0 %r0 5\n\tprepare\n\t\tpushargr\t%r0\n\tfinishi\t@putchar\n\tmovi\t%r0 3\n\tprepare\n\t\tpushargr\t%r0\n\tfinishi\t@exit\n\tret\n\tepilog\n"
}

/// Writes `Hi!` and a line feed from registers that calls keep, and ends with status 0 at `ret`.
pub fn kept_registers() -> &'static [u8]
    ensures means { Means result.now 18 0 (72 ∷ 105 ∷ 33 ∷ 10 ∷ []) }
{
    b".code\n\tprolog\n\tmovi\t%v0 72\n\tmovi\t%v1 33\n\tprepare\n\t\tpushargr\t%v0\n\tfinishi\t@putchar\n\taddi\t%v0 %v0 33\n\tprepare\n\t\tpushargr\t%v0\n\tfinishi\t@putchar\n\tprepare\n\t\tpushargr\t%v1\n\tfinishi\t@putchar\n\tmovi\t%r0 10\n\tprepare\n\t\tpushargr\t%r0\n\tfinishi\t@putchar\n\tret\n\tepilog\n"
}

/// Ends with the sum of -1 and 43, which wraps at 64 bits.
pub fn wrapped_sum() -> &'static [u8]
    ensures means { Means result.now 7 42 [] }
{
    b".code\n\tprolog\n\tmovi\t%r0 -1\n\tmovi\t%r1 43\n\taddr\t%r2 %r0 %r1\n\tprepare\n\t\tpushargr\t%r2\n\tfinishi\t@exit\n\tret\n\tepilog\n"
}
