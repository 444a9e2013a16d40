//! Tests of the lowest crates and of programs: rows that were worked out manually, and one call of each function that allocates memory.
#![tactic(auto)]

#[cfg(test)]
mod base;
#[cfg(test)]
mod choices;
#[cfg(test)]
mod names;
#[cfg(test)]
mod numbers;
#[cfg(test)]
mod programs;
#[cfg(test)]
mod records;
#[cfg(test)]
mod tables;
#[cfg(test)]
mod traps;
#[cfg(test)]
mod words;
