//! The code of a node on every target: the items that it is made of and how they are appended to a buffer, what it promises, when a
//! finished buffer keeps it, and the code of nodes that lead elsewhere (control).
#![tactic(auto)]

mod backend;
mod bytes;
mod chosen;
pub mod control;
mod emission;
mod item;
mod items;
pub mod operands;
mod reach;
mod selection;
mod shortest;
mod site;

pub use backend::{Backend, ItemList};
pub use bytes::Bytes;
pub use chosen::{append_node, choices_for};
pub use emission::append;
pub use item::Item;
pub use items::Items;
pub use reach::{NEAR_SIZE, Reach, SMALL_SIZE, lead};
pub use selection::select;
pub use shortest::shortest_items;
pub use site::{Frame, Site};
