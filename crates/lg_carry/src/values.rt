// When code that only computes carries the nodes that compute values, on any target.

mod extensions;
mod parts;

pub use extensions::extension;
pub use parts::operand_in;
