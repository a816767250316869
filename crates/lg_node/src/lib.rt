//! The nodes of a text with its labels, the text as a unit, and laws of its functions.
#![tactic(auto)]

mod bindings;
mod chain;
mod checks;
mod function;
pub mod function_laws;
mod label_addresses;
pub mod labels;
pub mod laws;
mod locals;
mod node_list;
mod place;
mod preparation;
mod ranges;
pub mod refusals;
mod shape;
pub mod tables;
mod taken;
mod unit;
mod unused;
pub mod walk;

pub use checks::{check, reshape};
pub use function::Function;
pub use label_addresses::LabelAddresses;
pub use lg_op::{
    Addressing, BinaryOp, BranchSumOp, Condition, ControlOp, Form, Label, LastOperand, Node, Op,
    Operand, Operands, PlainOp, Reg, StoreType, UnaryOp, ValueType, WideOp,
};
pub use locals::{Local, Locals};
pub use node_list::NodeList;
pub use place::Place;
pub use shape::Shape;
pub use unit::Unit;
