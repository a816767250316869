// The bytes of the memory, each of which may be absent.

ghost use Rattle.std.specs.Prelude.{◌≡◌};
ghost use Rattle.lg_cells.specs.Cells.{byte_in, is_room};

/// What is at an address.
#[derive(Clone, Copy, Debug, PartialEq, Eq)]
pub enum Cell {
    /// No byte can be there.
    Closed,
    /// A byte can be written there, and none was.
    Fresh,
    /// This byte is there.
    Holds(u8),
}

impl Cell {
    /// Returns the byte that is there.
    pub fn byte(self) -> Option<u8>
        ensures { result ≡ byte_in self }
    {
        match self {
            Cell::Closed | Cell::Fresh => None,
            Cell::Holds(byte) => Some(byte),
        }
    }

    /// Returns whether a byte can be written there.
    pub fn is_room(self) -> bool
        ensures { result ≡ is_room self }
    {
        match self {
            Cell::Closed => false,
            Cell::Fresh | Cell::Holds(_) => true,
        }
    }
}
