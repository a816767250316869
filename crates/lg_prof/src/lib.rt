//! A profile of a text by its lines: two numbers for each line, which node's bytes hold a place of the code, and the runs whose steps are counted: of the
//! code on a processor, and of the portable meaning.
#![tactic(auto)]

pub mod code;
pub mod laws;
mod line_table;
pub mod meaning;
mod nowhere;
mod places;
mod tally;

pub use code::run_counted;
pub use line_table::LineTable;
pub use meaning::count_meaning;
pub use nowhere::Nowhere;
pub use places::node_at;
pub use tally::Tally;
