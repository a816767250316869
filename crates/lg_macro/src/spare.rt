// Lists of pieces that are not in use.

ghost use Rattle.std.specs.Prelude.{◌≡◌, []};

use crate::pieces::Pieces;
use std::alloc::Global;

// How many lists are kept at most, and how many bytes and pieces a list has that is kept.
const MOST_LISTS: usize = 64;

const MOST_SIZE: usize = 4096;

/// Lists of pieces that are not in use, whose memory is used again: a call of a macro makes some ten lists.
#[derive(Drop)]
pub struct Spare {
    alloc: Global,
    lists: Vec<Pieces>,
}

// Takes all pieces out of a list.
fn emptied(list: Pieces) -> Pieces
    ensures { result ≡ [] }
{
    let mut list = list;
    list.clear();
    list
}

impl Spare {
    /// No lists. No memory is taken yet.
    pub fn new(alloc: Global) -> Spare {
        Spare {
            alloc,
            lists: Vec::new(alloc),
        }
    }

    /// Returns a list without pieces.
    pub fn take(&mut self) -> Pieces
        ensures { result ≡ [] }
    {
        match self.lists.pop() {
            Some(list) => emptied(list),
            None => Pieces::new(self.alloc),
        }
    }

    /// Keeps a list to be used again, or drops it if it is large or there are many.
    pub fn give(&mut self, list: Pieces) {
        let is_small = list.size() <= MOST_SIZE && list.len() <= MOST_SIZE;
        if is_small && self.lists.len() < MOST_LISTS {
            let _ = self.lists.push(list);
        }
    }

    /// Keeps each of several lists.
    pub fn give_all(&mut self, lists: Vec<Pieces>) {
        let mut lists = lists;
        for _ in 0..lists.len() {
            if let Some(list) = lists.pop() {
                self.give(list);
            }
        }
    }
}
