//! Commands on inputs: files, and standard input.

use crate::asking::{ask_keeper, read_whole};
use crate::commands::ask;
use crate::importing::{import, import_over};
use crate::noted::Noted;
use crate::progress::Progress;
use crate::store_file::{Task, in_store};
use crate::why::Why;
use mds_check::check;
use mds_desk::{Outcome, Status};
use mds_keeper::Keeper;
use mds_lines::Counted;
use mds_records::FileKind;
use mds_requests::FileCommand;
use mds_words::Input;
use std::io::Read;
use std::{fs, io};

/// Checks an input, a file of a kind, and prints its lines.
pub(crate) fn check_input(
    rt: &HostRuntime,
    kind: FileKind,
    input: Input<'_>,
    why: &mut Why,
) -> Outcome {
    why.name_input(rt, input);
    match input {
        Input::Standard => check_reader(rt, kind, rt.reader(), why),
        Input::File(name) => match fs::open(rt, name) {
            Ok(file) => check_reader(rt, kind, file, why),
            Err(error) => unopened(error, why),
        },
    }
}

/// Checks what a reader brings, and prints its lines.
fn check_reader<R: Read + Drop>(
    rt: &HostRuntime,
    kind: FileKind,
    reader: R,
    why: &mut Why,
) -> Outcome {
    let mut reader = Noted::new(reader);
    let mut writer = Counted::new(io::writer(rt));
    let mut counted = Counted::new(&mut reader);
    let outcome = Outcome::of_check(check(rt.alloc(), kind, &mut counted, &mut writer));
    why.put_read(reader.error());
    why.put_memory(outcome);
    outcome
}

/// The outcome for a file that can't be opened.
fn unopened(error: io::Error, why: &mut Why) -> Outcome {
    why.put_file(error);
    Outcome::NoInput
}

/// Asks a store for what an input says.
pub(crate) fn ask_input(
    rt: &HostRuntime,
    store: &str,
    command: FileCommand,
    input: Input<'_>,
    why: &mut Why,
) -> Outcome {
    why.name_input(rt, input);
    match input {
        Input::Standard => ask(rt, store, command, rt.reader(), why),
        Input::File(name) => match fs::open(rt, name) {
            Ok(file) => ask(rt, store, command, file, why),
            Err(error) => unopened(error, why),
        },
    }
}

/// Imports inputs of a kind into a store, one after the other, with one open of it. If there are several, each line begins with the
/// name of its input.
pub(crate) fn import_inputs(
    rt: &HostRuntime,
    store: &str,
    kind: FileKind,
    inputs: &[Input<'_>],
    why: &mut Why,
) -> Outcome {
    match inputs {
        [input] => import_input(rt, store, kind, *input, why),
        _ => in_store(rt, store, Importing { kind, inputs }, why),
    }
}

/// Imports an input of a kind into a store. A NEM12 file is imported as it is read, a NEM13 file after it was read.
fn import_input(
    rt: &HostRuntime,
    store: &str,
    kind: FileKind,
    input: Input<'_>,
    why: &mut Why,
) -> Outcome {
    why.name_input(rt, input);
    match (kind, input) {
        (FileKind::Nem12, Input::Standard) => import(rt, store, rt.reader(), why),
        (FileKind::Nem12, Input::File(name)) => match fs::open(rt, name) {
            Ok(file) => import(rt, store, file, why),
            Err(error) => unopened(error, why),
        },
        (FileKind::Nem13, _) => ask_input(rt, store, FileCommand::Import(kind), input, why),
    }
}

/// Imports several inputs. All are tried, and the run ends with the greatest of their statuses. If a line can't be printed, it ends
/// there.
#[derive(Drop)]
struct Importing<'a> {
    kind: FileKind,
    inputs: &'a [Input<'a>],
}

impl<'a> Task for Importing<'a> {
    fn perform<K: Keeper>(self, rt: &HostRuntime, keeper: K, why: &mut Why) -> (K, Outcome) {
        let mut keeper = keeper;
        let mut status = Status::Done;
        let progress = Progress::new(rt);
        let mut is_answered = true;
        for k in 0..self.inputs.len() {
            progress.show(rt, k + 1, self.inputs.len());
            let Some(outcome) = import_named(rt, &mut keeper, self.kind, self.inputs[k], why) else {
                return (keeper, Outcome::NoOutput);
            };
            progress.clear(rt);
            status = greater(status, outcome.status());
            let is_known = has_line(rt, outcome, why);
            is_answered = is_answered && is_known;
        }
        why.end_inputs(is_answered);
        (keeper, Outcome::Answered(status))
    }
}

/// Prints why an input was refused, where that is known by now. It isn't if the store answered U1: what its files met is looked at when it is
/// closed.
fn has_line(rt: &HostRuntime, outcome: Outcome, why: &Why) -> bool {
    match outcome {
        Outcome::Answered(Status::Unavailable) => false,
        _ => {
            why.print(rt, outcome);
            true
        }
    }
}

/// Imports an input, and prints its name followed by the outcome. If that can't be printed, there is none.
fn import_named<K: Keeper>(
    rt: &HostRuntime,
    keeper: &mut K,
    kind: FileKind,
    input: Input<'_>,
    why: &mut Why,
) -> Option<Outcome> {
    why.name_input(rt, input);
    let name = match input {
        Input::Standard => "-",
        Input::File(name) => name,
    };
    if print!(rt; "{name}: ").is_err() {
        return None;
    }
    let outcome = match kind {
        FileKind::Nem12 => import_nem12(rt, keeper, input, why),
        FileKind::Nem13 => import_nem13(rt, keeper, input, why),
    };
    if matches!(outcome, Outcome::NoOutput) || print!(rt; "{outcome}").is_err() {
        return None;
    }
    Some(outcome)
}

/// Imports a NEM12 file over a keeper, and prints its answer.
fn import_nem12<K: Keeper>(
    rt: &HostRuntime,
    keeper: &mut K,
    input: Input<'_>,
    why: &mut Why,
) -> Outcome {
    match input {
        Input::Standard => import_over(rt, keeper, rt.reader(), why),
        Input::File(name) => match fs::open(rt, name) {
            Ok(file) => import_over(rt, keeper, file, why),
            Err(error) => unopened(error, why),
        },
    }
}

/// Imports a NEM13 file over a keeper, and prints its answer.
fn import_nem13<K: Keeper>(
    rt: &HostRuntime,
    keeper: &mut K,
    input: Input<'_>,
    why: &mut Why,
) -> Outcome {
    let bytes = match input {
        Input::Standard => read_whole(rt, rt.reader(), why),
        Input::File(name) => match fs::open(rt, name) {
            Ok(file) => read_whole(rt, file, why),
            Err(error) => Err(unopened(error, why)),
        },
    };
    ask_keeper(rt, keeper, FileCommand::Import(FileKind::Nem13), bytes, why)
}

/// The greater of two statuses.
fn greater(a: Status, b: Status) -> Status {
    if a.code() < b.code() { b } else { a }
}
