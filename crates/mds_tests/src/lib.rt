//! Tests of what no run of the program shows: a check whose reader or writer fails in mid-stream, and calls that no program makes.
//!
//! It decides nothing, and no crate uses it. What a run of the program shows is tried by the scripts in `tests/`.
//! Must not change: the expected results, which are written out here.
#![tactic(auto)]

#[cfg(test)]
mod checking;
#[cfg(test)]
mod failing;
#[cfg(test)]
mod marks;
#[cfg(test)]
mod packs;
#[cfg(test)]
mod rows;
#[cfg(test)]
mod runs;
#[cfg(test)]
mod sources;
#[cfg(test)]
mod terms;
#[cfg(test)]
mod versions;
#[cfg(test)]
mod written;
