// The number of a point, or none, in one word.

ghost use Rattle.std.specs.Prelude.{◌≡◌, ◌<◌, ◌^◌, Some, None};

use std::marker::Model;

/// The number of a point, or none. It takes one word, where an `Option<usize>` takes two.
#[derive(Clone, Copy)]
pub struct Link {
    word: usize,
}

impl Model for Link {
    ghost use Rattle.std.specs.Prelude.{ℕ, Option};

    ghost Value = { Option ℕ };

    ghost use Rattle.lg_live.specs.Links.{link_of, linked, is_kept};

    ghost view = { link_of };

    ghost inverse = { linked };

    ghost inverse_ok = { λ l h. is_kept l };
}

impl Link {
    /// No point.
    pub fn none() -> Link
        ensures { result ≡ None }
    {
        Link { word: 0 }
    }

    /// Returns a point.
    pub fn to(point: usize) -> Link
        requires { point < 2 ^ 63 }
        ensures { result ≡ Some point }
    {
        Link { word: point + 1 }
    }

    /// Returns the point, if there is one.
    pub fn point(self) -> Option<usize>
        ensures { result ≡ self }
    {
        self.word.checked_sub(1)
    }
}
