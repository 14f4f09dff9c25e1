//! The grammar of the commands, for `clap`.

ghost use Rattle.std.specs.Prelude.{◌≡◌, map, IfOk};
ghost use Rattle.std.specs.List.{AllZip};
ghost use Rattle.mds_words.specs.Commands.{HasRule, IsApp, IsLeaf};
ghost use Rattle.mds_words.specs.Grammar.{AreKinds, all_names, code, count, flagged, id_of, kind, log, mdstore_app, named, placed, port, rule_of_word, shape_of, store, sums, why};

use crate::names::{Name, Word};
use clap::{Arg, ArgAction, Command, value_parser};
use std::alloc::{AllocError, Global};

/// The version of the program, and that of the schema of its stores.
const VERSION: &str = "0.9.0 (stores of schema 4)";

/// The kinds of files, by their names.
const KINDS: [&str; 2] = ["nem12", "nem13"];

/// The names of the kinds of files.
pub(crate) fn kinds() -> &'static [&'static str]
    ensures { AreKinds result }
{
    KINDS.as_slice()
}

/// The commands, and the words that they take. `kinds` has the names of the kinds of files.
pub(crate) fn grammar<'a>(alloc: Global, kinds: &'a [&'a str]) -> Result<Command<'a>, AllocError>
    ensures { IfOk result (IsApp (mdstore_app kinds.entry)) }
{
    // decides: which version is the program (`VERSION`)?
    let commands = commands(alloc, KindNames { names: kinds })?;
    Command::new(alloc, "mdstore")
        .about("The interval data store of an electricity metering data provider")
        .version(VERSION)
        .no_binary_name(true)
        .subcommand_required(true)
        .bin_name("mdstore")?
        .subcommands(commands)
}

/// Holds the names of the kinds of files. It is a struct because the proof of a loop sees of a reference only what it points to.
#[derive(Clone, Copy)]
struct KindNames<'a> {
    names: &'a [&'a str],
}

/// All commands.
fn commands<'a>(alloc: Global, kinds: KindNames<'a>) -> Result<Vec<Command<'a>>, AllocError>
    ensures { IfOk result (λ commands. AllZip IsLeaf (map (shape_of kinds.entry.names) all_names) commands.items) }
{
    let mut commands = Vec::new(alloc);
    for name in Name::ALL.as_slice() {
        commands.push(command(alloc, kinds, *name)?)?;
    }
    Ok(commands)
}

/// The command with this name.
fn command<'a>(alloc: Global, kinds: KindNames<'a>, name: Name) -> Result<Command<'a>, AllocError>
    ensures { IfOk result (IsLeaf (shape_of kinds.entry.names name)) }
{
    let arguments = arguments(alloc, kinds, name.words())?;
    let (text, about): (&'a str, &'a str) = (name.text(), name.about());
    Command::new(alloc, text).about(about).args(arguments)
}

/// The arguments for words.
fn arguments<'a>(
    alloc: Global,
    kinds: KindNames<'a>,
    words: &[Word],
) -> Result<Vec<Arg<'a>>, AllocError>
    ensures { IfOk result (λ arguments. AllZip HasRule (map (rule_of_word kinds.entry.names) words.now) arguments.items) }
{
    let mut arguments = Vec::new(alloc);
    for word in words {
        arguments.push(argument(alloc, kinds, *word))?;
    }
    Ok(arguments)
}

/// The argument for a word.
fn argument<'a>(alloc: Global, kinds: KindNames<'a>, word: Word) -> Arg<'a>
    ensures { HasRule (rule_of_word kinds.entry.names word) result }
{
    match word {
        Word::Store => store(alloc),
        Word::Sums => sums(alloc),
        Word::Kind => kind(alloc, kinds.names),
        Word::Port => port(alloc),
        Word::Count => count(alloc),
        Word::Log => log(alloc),
        Word::Since => flagged(alloc, word),
        Word::Why => why(alloc),
        Word::Code => code(alloc),
        Word::Files | Word::Suffixes => required(alloc, word).num_args(1..),
        _ => required(alloc, word),
    }
}

fn store<'a>(alloc: Global) -> Arg<'a>
    ensures { HasRule store result }
{
    flagged(alloc, Word::Store).required(true)
}

fn sums<'a>(alloc: Global) -> Arg<'a>
    ensures { HasRule sums result }
{
    flagged(alloc, Word::Sums).action(ArgAction::SetTrue)
}

fn kind<'a>(alloc: Global, kinds: &'a [&'a str]) -> Arg<'a>
    ensures { HasRule (kind kinds.entry) result }
{
    flagged(alloc, Word::Kind)
        .value_parser(kinds)
        .default_value("nem12")
}

fn port<'a>(alloc: Global) -> Arg<'a>
    ensures { HasRule port result }
{
    flagged(alloc, Word::Port)
        .required(true)
        .value_parser(value_parser!(u16).range(1..))
}

fn count<'a>(alloc: Global) -> Arg<'a>
    ensures { HasRule count result }
{
    flagged(alloc, Word::Count)
        .value_parser(value_parser!(u32).range(1..=1_000_000))
        .default_value("1000000")
}

fn log<'a>(alloc: Global) -> Arg<'a>
    ensures { HasRule log result }
{
    flagged(alloc, Word::Log).action(ArgAction::SetTrue)
}

fn why<'a>(alloc: Global) -> Arg<'a>
    ensures { HasRule why result }
{
    flagged(alloc, Word::Why).action(ArgAction::SetTrue)
}

fn code<'a>(alloc: Global) -> Arg<'a>
    ensures { HasRule code result }
{
    named(alloc, Word::Code).num_args(1..)
}

/// An argument with a flag, which is its id.
fn flagged<'a>(alloc: Global, word: Word) -> Arg<'a>
    ensures { HasRule (flagged (id_of word)) result }
{
    named(alloc, word).long(word.id())
}

/// A required argument, by its place.
fn required<'a>(alloc: Global, word: Word) -> Arg<'a>
    ensures { HasRule (placed (id_of word)) result }
{
    named(alloc, word).required(true)
}

/// An argument by its place.
fn named<'a>(alloc: Global, word: Word) -> Arg<'a>
    ensures { HasRule (named (id_of word)) result }
{
    let (id, name, help): (&'a str, &'a str, &'a str) = (word.id(), word.value_name(), word.help());
    Arg::new(alloc, id).value_name(name).help(help)
}
