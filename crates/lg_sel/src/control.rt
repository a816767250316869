// What `.align` appends.

mod paddings;

pub use paddings::{gap, put_idle};
