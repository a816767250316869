// The RV64IM processor, as the laws of lg_carry ask for one.

pub mod laws;
