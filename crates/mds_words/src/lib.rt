//! The words of a call: what they ask for, or what is printed if they ask for nothing.
//!
//! It decides the commands with their arguments (`names.rt`), their grammar and the version (`commands.rt`). `clap` reads the words by that
//! grammar. A call without words is `check -`, and takes no memory.
//! Callers: `mdstore`. `mds_full` re-exports `read_words`.
//! Must not change: commands, flags and help, which `docs/USE.md`, the manual page and the completions of the shells repeat.
#![tactic(auto)]

mod commands;
mod grammar;
mod names;
mod words;

pub use words::{Input, Words, WordsFault, read_words};
