//! Why a call was refused: a line on standard error, beside the code on standard output.
//!
//! A function that knows a cause puts it here, where the library's error would be dropped. The causes are plain texts, and no contract speaks
//! of them. Nothing of this changes what is printed on standard output, or the status.

use crate::cause::{Cause, form_of};
use crate::terminal::has_terminal;
use mds_desk::{Outcome, Status};
use mds_words::Input;
use std::io;

/// What is known of why a call was refused.
#[derive(Drop)]
pub(crate) struct Why {
    /// Whether the words of the call ask for it.
    is_asked: bool,
    /// Whether the line of each code was printed already.
    is_printed: bool,
    /// The name of the store's file, as it was given.
    store: String,
    /// The name of the file that was read last.
    input: String,
    cause: Cause,
}

impl Why {
    /// Nothing was refused yet.
    pub(crate) fn new(rt: &HostRuntime) -> Why {
        Why {
            is_asked: false,
            is_printed: false,
            store: String::new(rt.alloc()),
            input: String::new(rt.alloc()),
            cause: Cause::Unknown,
        }
    }

    /// Notes whether the words of the call ask for it.
    pub(crate) fn look_at(&mut self, words: &[String]) {
        self.is_asked = has_why(words);
    }

    /// Whether the line is printed: where the words ask for it, or a terminal shows it.
    pub(crate) fn is_wanted(&self, rt: &HostRuntime) -> bool {
        self.is_asked || has_terminal(rt)
    }

    /// Names the file of the store.
    pub(crate) fn name_store(&mut self, rt: &HostRuntime, path: &str) {
        self.store = copy_of(rt, path);
    }

    /// Names the file that is read next. What was known of the one before is forgotten.
    pub(crate) fn name_input(&mut self, rt: &HostRuntime, input: Input<'_>) {
        self.cause = Cause::Unknown;
        self.input = match input {
            Input::Standard => copy_of(rt, "standard input"),
            Input::File(name) => copy_of(rt, name),
        };
    }

    /// Notes a cause.
    pub(crate) fn put(&mut self, cause: Cause) {
        self.cause = cause;
    }

    /// Notes the cause of a failed call on a file.
    pub(crate) fn put_file(&mut self, error: io::Error) {
        self.cause = Cause::File(error);
    }

    /// Notes the error of a reader, if it had one.
    pub(crate) fn put_read(&mut self, error: Option<io::Error>) {
        if let Some(error) = error {
            self.cause = Cause::File(error);
        }
    }

    /// Notes that memory ran out, if that is the only way to this outcome. An answer of U1 has other causes too.
    pub(crate) fn put_memory(&mut self, outcome: Outcome) {
        match outcome {
            Outcome::Unavailable => self.cause = Cause::NoMemory,
            _ => (),
        }
    }

    /// Notes a cause, if there is none yet.
    pub(crate) fn put_if_unknown(&mut self, cause: Cause) {
        if matches!(self.cause, Cause::Unknown) {
            self.cause = cause;
        }
    }

    /// Notes that the last input was read, and whether each code has its line by now.
    pub(crate) fn end_inputs(&mut self, is_printed: bool) {
        self.cause = Cause::Unknown;
        self.is_printed = is_printed;
    }

    /// Prints the line for the code of an outcome, if it has one, and the line is wanted. Whether that succeeds changes nothing.
    pub(crate) fn print(&self, rt: &HostRuntime, outcome: Outcome) {
        let Some(code) = code_of(outcome) else {
            return;
        };
        if self.is_printed || !self.is_wanted(rt) {
            return;
        }
        if let Outcome::BadArgument(argument) = outcome {
            let form = form_of(argument);
            let _ = eprint!(rt; "{form} (mdstore explain {code})\n");
            return;
        }
        let (name, cause) = (self.name_for(outcome), &self.cause);
        let _ = if name.is_empty() {
            eprint!(rt; "{cause} (mdstore explain {code})\n")
        } else {
            eprint!(rt; "{name}: {cause} (mdstore explain {code})\n")
        };
    }

    /// The name of the file that an outcome is about. It is empty if there is none.
    fn name_for(&self, outcome: Outcome) -> &str {
        match outcome {
            Outcome::NoInput | Outcome::BadJob => self.input.as_str(),
            Outcome::NoPort => "",
            _ => self.store.as_str(),
        }
    }
}

/// The printed code of an outcome, if it is one with a cause of its own.
fn code_of(outcome: Outcome) -> Option<&'static str> {
    match outcome {
        Outcome::Unavailable | Outcome::Answered(Status::Unavailable) => Some("U1"),
        Outcome::EarlierSchema => Some("U2"),
        Outcome::OtherSchema => Some("U3"),
        Outcome::NoInput => Some("cannot read file"),
        Outcome::NoPort => Some("cannot listen"),
        Outcome::BadArgument(_) => Some("bad argument"),
        Outcome::BadJob => Some("bad job"),
        _ => None,
    }
}

/// Whether the words of a call have the flag that asks for a cause. No word after `--` is a flag. The grammar takes this word as nothing else.
fn has_why(words: &[String]) -> bool {
    for word in words {
        match word.as_str() {
            "--" => return false,
            "--why" => return true,
            _ => (),
        }
    }
    false
}

/// A copy of a text. It is empty without memory.
fn copy_of(rt: &HostRuntime, text: &str) -> String {
    match String::from_str(rt.alloc(), text) {
        Ok(copy) => copy,
        Err(_) => String::new(rt.alloc()),
    }
}
