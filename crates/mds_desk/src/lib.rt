//! What the program does over any keeper and writer: it does a request or imports a NEM12 file, and prints the result.
//!
//! It decides what a command prints of an answer (`performing.rt`), and which status a run ends with (`outcome.rt`). It says what each
//! printed code means (`explaining.rt`).
//! Callers: `mdstore` alone.
//! Must not change: the printed lines and the statuses 0 to 3, which `docs/USE.md` lists, and the contracts of `perform` and `import_file`,
//! which README names. Printing a change takes no memory.
#![tactic(auto)]

mod explaining;
mod importing;
mod outcome;
mod performing;

pub use explaining::{EXPLANATIONS, section_of};
pub use importing::{ImportFault, import_file, import_read};
pub use outcome::{Outcome, Status};
pub use performing::{PerformFault, perform};
