//! The instructions of a text: operations with their names, operands and their forms, nodes, and what the operations make of words:
//! the arithmetic of the portable meaning.
#![tactic(auto)]

pub mod carry;
pub mod form;
mod name_table;
mod names;
pub mod node;
pub mod op;
pub mod operand;
pub mod operators;

pub use form::Form;
pub use node::Node;
pub use op::{
    Addressing, BinaryOp, BranchSumOp, Condition, ControlOp, LastOperand, Op, PlainOp, StoreType,
    UnaryOp, ValueType, WideOp,
};
pub use operand::{Label, Operand, Operands, Reg};
