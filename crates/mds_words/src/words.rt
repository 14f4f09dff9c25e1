//! What the words of a call ask for.

ghost use Rattle.std.specs.Prelude.{◌≡◌, map, string_bytes, IfErr, IfOk};
ghost use Rattle.mds_words.specs.Asked.{IsAsked, input_of, input_value};
ghost use Rattle.mds_words.specs.Refused.{IsRefused};

use crate::grammar::read_by_grammar;
use mds_arguments::{ExportArguments, QueryName, QueryWords};
use mds_records::FileKind;
use std::alloc::Global;

/// What is read.
#[derive(Clone, Copy)]
pub enum Input<'a> {
    /// Standard input.
    Standard,
    /// The file with this name.
    File(&'a str),
}

/// What the words of a call ask for. Whether a query's words are good isn't checked here.
#[derive(Drop)]
pub enum Words<'a> {
    /// Checks a file of a kind.
    Check {
        kind: FileKind,
        input: Input<'a>,
    },
    /// Makes a store in the named file, with a sum in each page if that is asked for.
    Init {
        store: &'a str,
        has_sums: bool,
    },
    /// Migrates the store of an earlier schema in the named file to the current one.
    Migrate {
        store: &'a str,
    },
    /// Imports files of a kind, one after the other, into the store in the named file.
    Import {
        store: &'a str,
        kind: FileKind,
        inputs: Vec<Input<'a>>,
    },
    /// Does the substitution job in a file, in the store in the named file.
    Substitute {
        store: &'a str,
        input: Input<'a>,
    },
    /// Adds the days of a list in a file to the holidays of the store in the named file.
    Holidays {
        store: &'a str,
        input: Input<'a>,
    },
    /// Asks the store in the named file for a query with these words.
    Query {
        store: &'a str,
        query: QueryName,
        words: QueryWords<'a>,
    },
    /// Prints an export of some streams of a meter in a range of days, from the store in the named file.
    Export {
        store: &'a str,
        arguments: ExportArguments<'a>,
    },
    /// Serves a count of connections to a port, one after the other, from the store in the named file. They are logged if that is
    /// asked for.
    Serve {
        store: &'a str,
        port: u16,
        count: u32,
        has_log: bool,
    },
    /// Explains a printed code, which may be several words. Without one it explains each code.
    Explain {
        code: Vec<&'a str>,
    },
}

/// Why words ask for nothing.
#[derive(Drop)]
pub enum WordsFault {
    /// There was no memory to read them.
    Memory,
    /// This text is to be printed: what is wrong with them, or the help that they ask for.
    Text(String),
    /// They ask for the version of the program, which is this text.
    Version(String),
}

impl<'a> Input<'a> {
    /// What a word names: `-` is standard input, and any other word a file.
    pub fn new(word: &'a str) -> Input<'a>
        ensures { input_value result ≡ input_of word.now }
    {
        match word {
            "-" => Input::Standard,
            _ => Input::File(word),
        }
    }
}

/// What the words after the program's name ask for.
pub fn read_words<'a>(alloc: Global, words: &'a [String]) -> Result<Words<'a>, WordsFault>
    ensures asked { IfOk result (IsAsked (map string_bytes words.now)) }
    // No words are never refused, and words that the grammar takes only if memory runs out. `Version` is returned just if they ask for
    // it.
    ensures passes { IfErr result (IsRefused (map string_bytes words.now)) }
{
    if words.is_empty() {
        return Ok(Words::Check {
            kind: FileKind::Nem12,
            input: Input::Standard,
        });
    }
    read_by_grammar(alloc, words)
}
