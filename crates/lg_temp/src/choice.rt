// What a node's temporaries need, and which registers they take.

ghost use Rattle.std.specs.Prelude.{◌≡◌, ◌<◌, ◌≤◌, ◌+◌, ◌==◌, ◌↔◌, ℕ, [], ◌∷◌, ◌++◌, length, replicate, slice_set};
ghost use Rattle.std.specs.Prelude.{slice_index_or, count_by, true, false, IsTrue};
ghost use Rattle.std.specs.List.{All, list_any};

use std::marker::Model;

/// What a temporary of a node's code needs.
#[derive(Clone, Copy, PartialEq, Eq)]
pub enum Need {
    /// Any register that can be had.
    Any,
    /// This register of the processor.
    Only(u8),
}

/// The register that a temporary takes.
#[derive(Clone, Copy, Debug, PartialEq, Eq)]
pub enum Choice {
    /// A register that holds nothing that is needed after the node.
    Free(u8),
    /// A register that the node writes.
    Own(u8),
    /// A register that is saved in a spill slot before the node's code and restored after it.
    Spill { reg: u8, slot: u32 },
}

/// A list of at most 3 needs, held inline.
#[derive(Drop)]
pub struct Needs {
    list: [Need; 3],
    len: usize,
}

impl Model for Needs {
    ghost use Rattle.std.specs.Prelude.{◌≤◌, List, take};
    ghost use Rattle.lg_temp.specs.declared.choice.Need.{Need};

    ghost Value = { List Need };

    ghost view = { λ needs. take needs.len needs.list };

    ghost invariant = { λ needs. needs.len ≤ 3 };
}

impl Needs {
    /// The list of these needs (at most 3).
    pub fn of(list: &[Need]) -> Needs
        requires { length list.now ≤ 3 }
        ensures { result ≡ list.now }
    {
        match list {
            [] => Needs {
                list: [Need::Any, Need::Any, Need::Any],
                len: 0,
            },
            [a] => Needs {
                list: [*a, Need::Any, Need::Any],
                len: 1,
            },
            [a, b] => Needs {
                list: [*a, *b, Need::Any],
                len: 2,
            },
            _ => Needs {
                list: [list[0], list[1], list[2]],
                len: 3,
            },
        }
    }

    /// The needs.
    pub fn as_slice(&self) -> &[Need]
        ensures value { result.now ≡ self.now }
        ensures few { length result.now ≤ 3 }
    {
        &self.list[..self.len]
    }
}

// What is after the last choice.
const UNUSED: Choice = Choice::Free(0);

/// A list of at most 3 choices, held inline.
#[derive(Drop)]
pub struct Choices {
    list: [Choice; 3],
    len: usize,
}

impl Model for Choices {
    ghost use Rattle.std.specs.Prelude.{◌≤◌, List, take};
    ghost use Rattle.lg_temp.specs.declared.choice.Choice.{Choice};

    ghost Value = { List Choice };

    ghost view = { λ choices. take choices.len choices.list };

    ghost invariant = { λ choices. choices.len ≤ 3 };
}

impl Choices {
    /// No choices.
    pub fn new() -> Choices
        ensures { result ≡ [] }
    {
        Choices {
            list: [UNUSED, UNUSED, UNUSED],
            len: 0,
        }
    }

    /// Returns the list of these choices (at most 3).
    pub fn of(list: &[Choice]) -> Choices
        requires { length list.now ≤ 3 }
        ensures { result ≡ list.now }
    {
        match list {
            [] => Choices::new(),
            [a] => Choices {
                list: [*a, UNUSED, UNUSED],
                len: 1,
            },
            [a, b] => Choices {
                list: [*a, *b, UNUSED],
                len: 2,
            },
            _ => Choices {
                list: [list[0], list[1], list[2]],
                len: 3,
            },
        }
    }

    /// Returns the list with a choice more. There are at most 2 before.
    pub fn with(self, choice: Choice) -> Choices
        requires { length self < 3 }
        ensures { result ≡ self ++ choice ∷ [] }
    {
        match self.as_slice() {
            [] => Choices {
                list: [choice, UNUSED, UNUSED],
                len: 1,
            },
            [a] => Choices {
                list: [*a, choice, UNUSED],
                len: 2,
            },
            [a, b] => Choices {
                list: [*a, *b, choice],
                len: 3,
            },
            _ => self,
        }
    }

    /// Returns the choices.
    pub fn as_slice(&self) -> &[Choice]
        ensures value { result.now ≡ self.now }
        ensures few { length result.now ≤ 3 }
    {
        &self.list[..self.len]
    }
}

/// A set of arguments of a call, by their numbers from 0 to 15.
#[derive(Clone, Copy, PartialEq, Eq)]
pub struct Staged {
    /// Whether each is in the set.
    pub arguments: [bool; 16],
}

impl Staged {
    /// Returns the set without arguments.
    pub fn none() -> Staged
        ensures { result.arguments ≡ replicate 16 false }
    {
        Staged {
            arguments: [false; 16],
        }
    }

    /// Returns the set of these arguments. Each number is below 16.
    pub fn of(list: &[u32]) -> Staged
        requires { All (λ index. index < 16) list.now }
        ensures each { (index : ℕ) → slice_index_or result.arguments index false ≡ list_any (λ k. k == index) list.now }
        ensures count { length result.arguments ≡ 16 }
    {
        let mut staged = Staged::none();
        for index in list {
            staged = staged.with(*index);
        }
        staged
    }

    /// Returns whether an argument is in the set. None is from number 16 on.
    pub fn has(self, index: u32) -> bool
        ensures { result ≡ slice_index_or self.arguments index false }
    {
        self.arguments.get(index as usize).copied().unwrap_or(false)
    }

    /// Returns how many arguments are in the set.
    pub fn len(self) -> u32
        ensures value { result ≡ count_by (λ argument. argument) self.arguments }
        ensures few { result ≤ 16 }
    {
        self.arguments.iter().filter(|argument| **argument).count() as u32
    }

    /// Returns whether no argument is in the set.
    pub fn is_empty(self) -> bool
        ensures { IsTrue result ↔ (count_by (λ argument. argument) self.arguments ≡ 0) }
    {
        self.len() == 0
    }

    /// Returns the set with an argument more. Its number is below 16.
    pub fn with(self, index: u32) -> Staged
        requires { index < 16 }
        ensures { result.arguments ≡ slice_set self.arguments index true }
    {
        let mut arguments = self.arguments;
        arguments[index as usize] = true;
        Staged { arguments }
    }
}
