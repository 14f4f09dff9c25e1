//! A call of the program.

ghost use Rattle.std.specs.Prelude.{◌≡◌};
ghost use Rattle.std.specs.IoError.{error_kind};

use crate::commands::serve;
use crate::inputs::{ask_input, check_input, import_inputs};
use crate::queries::{ask_query, query_export};
use crate::store_file::{make_store, migrate_store};
use crate::why::Why;
use mds_desk::{EXPLANATIONS, Outcome, Status, section_of};
use mds_requests::FileCommand;
use mds_words::{Words, WordsFault, read_words};
use std::io::ErrorKind;
use std::{env, io};

/// What is printed if no code is spelled like the words.
const NO_SUCH_CODE: &str =
    "unknown code; the codes are L1 to L12, M1 to M12, H1, U1 to U3, bad job, bad argument, a word is not UTF-8, cannot read file and cannot listen\n";

/// Runs the program, and returns the status to end with.
pub(crate) fn run(rt: &HostRuntime) -> Status {
    let mut why = Why::new(rt);
    let outcome = outcome_of_call(rt, &mut why);
    match print!(rt; "{outcome}") {
        Ok(()) => {
            why.print(rt, outcome);
            outcome.status()
        }
        Err(_) => Status::Unavailable,
    }
}

/// Does what the words of the call ask for. The outcome is yet to be printed.
fn outcome_of_call(rt: &HostRuntime, why: &mut Why) -> Outcome {
    let words = match env::args(rt) {
        Ok(words) => words,
        Err(error) => return without_words(&error),
    };
    let words: Result<Vec<String>, _> = words.skip(1).collect(rt.alloc());
    let Ok(words) = words else {
        return Outcome::Unavailable;
    };
    why.look_at(words.as_slice());
    match read_words(rt.alloc(), words.as_slice()) {
        Ok(words) => outcome_of_words(rt, words, why),
        Err(WordsFault::Memory) => Outcome::Unavailable,
        Err(WordsFault::Text(text)) => tell(rt, text.as_str(), Outcome::Usage),
        Err(WordsFault::Version(text)) => tell(rt, text.as_str(), Outcome::Done),
    }
}

/// Does what words ask for.
fn outcome_of_words(rt: &HostRuntime, words: Words<'_>, why: &mut Why) -> Outcome {
    match words {
        Words::Check { kind, input } => check_input(rt, kind, input, why),
        Words::Init { store, has_sums } => make_store(rt, store, has_sums, why),
        Words::Migrate { store } => migrate_store(rt, store, why),
        Words::Import {
            store,
            kind,
            inputs,
        } => import_inputs(rt, store, kind, &inputs, why),
        Words::Substitute { store, input } => ask_input(
            rt,
            store,
            FileCommand::Substitute,
            input,
            why,
        ),
        Words::Holidays { store, input } => ask_input(rt, store, FileCommand::Holidays, input, why),
        Words::Query {
            store,
            query,
            words,
        } => ask_query(rt, store, query, &words, why),
        Words::Export { store, arguments } => query_export(rt, store, &arguments, why),
        Words::Serve {
            store,
            port,
            count,
            has_log,
        } => serve(rt, store, port, count, has_log, why),
        Words::Explain { code } => explain(rt, &code),
    }
}

/// The outcome of a call whose words can't be read.
fn without_words(error: &io::Error) -> Outcome
    ensures memory { error_kind error.now ≡ ErrorKind.OutOfMemory → result ≡ Outcome.Unavailable }
{
    match error.kind() {
        ErrorKind::OutOfMemory => Outcome::Unavailable,
        _ => Outcome::NoText,
    }
}

/// Prints the meaning of the code that words name, or without words of all codes.
fn explain(rt: &HostRuntime, words: &[&str]) -> Outcome {
    match words.join(rt.alloc(), " ") {
        Ok(code) => explain_code(rt, code.as_str()),
        Err(_) => Outcome::Unavailable,
    }
}

/// Prints the meaning of a code, or if it is empty of all codes.
fn explain_code(rt: &HostRuntime, code: &str) -> Outcome {
    if code.is_empty() {
        return tell(rt, EXPLANATIONS, Outcome::Done);
    }
    let Some(section) = section_of(EXPLANATIONS, code) else {
        return tell(rt, NO_SUCH_CODE, Outcome::Usage);
    };
    let section = section.trim_end();
    match print!(rt; "##{section}\n") {
        Ok(()) => Outcome::Done,
        Err(_) => Outcome::NoOutput,
    }
}

/// Prints a text, and returns this outcome if that succeeds.
fn tell(rt: &HostRuntime, text: &str, outcome: Outcome) -> Outcome {
    match print!(rt; "{text}") {
        Ok(()) => outcome,
        Err(_) => Outcome::NoOutput,
    }
}
