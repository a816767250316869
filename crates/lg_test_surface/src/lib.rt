//! Each call of the public surface once, with the types that it has: code that calls these crates compiles as it is written here.
#![tactic(auto)]

#[cfg(test)]
mod base;
#[cfg(test)]
mod code;
#[cfg(test)]
mod nodes;
#[cfg(test)]
mod outside;
#[cfg(test)]
mod program;
#[cfg(test)]
mod targets;
