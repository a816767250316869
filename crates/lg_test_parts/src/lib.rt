//! Tests of the crates below the top call: texts with what they expand to, what they are read as or what they are refused for; values computed elsewhere; host
//! functions, streams and texts, memories, the buffer, the processor, and the choices of registers.
#![tactic(auto)]

#[cfg(test)]
mod arguments;
#[cfg(test)]
mod buffer;
#[cfg(test)]
mod cells;
#[cfg(test)]
mod check_rows;
#[cfg(test)]
mod expansion;
#[cfg(test)]
mod host;
#[cfg(test)]
mod lists;
#[cfg(test)]
mod live;
#[cfg(test)]
mod memory;
#[cfg(test)]
mod nodes;
#[cfg(test)]
mod operations;
#[cfg(test)]
mod parse_rows;
#[cfg(test)]
mod processor;
#[cfg(test)]
mod readings;
#[cfg(test)]
mod rows;
#[cfg(test)]
mod streams;
#[cfg(test)]
mod temporaries;
#[cfg(test)]
mod tokens;
#[cfg(test)]
mod units;
#[cfg(test)]
mod wide;
