//! The words of a call, as `clap` reads them.

ghost use Rattle.std.specs.Prelude.{◌≡◌, ◌∷◌, ◌^◌, List, [], Some, true, bytes_eq, codes, map, string_bytes, IfErr, IfOk};
ghost use Rattle.std.specs.List.{list_any};
ghost use Rattle.std.specs.Borrow.{Bor};
ghost use Rattle.clap.specs.Walk.{texts};
ghost use Rattle.clap.specs.Words.{App, HasKind, Text, fault_of, first_of, found_of, kind_of, rows_of, takes};
ghost use Rattle.mds_arguments.specs.Arguments.{AreFound};
ghost use Rattle.mds_words.specs.Asked.{Asks, IsAskedBy, has_flag, input_of, input_value, kind_of_name, number_of, value_of, values_of};
ghost use Rattle.mds_words.specs.Commands.{has_command};
ghost use Rattle.mds_words.specs.Refused.{IsRefusedAs, IsRefusedBy};
ghost use Rattle.mds_words.specs.Grammar.{IsMdstore, mdstore_app, check_command, init_command, migrate_command, substitute_command, holidays_command, serve_command};

use crate::commands::{grammar, kinds};
use crate::words::{Input, Words, WordsFault};
use clap::error::ErrorKind;
use clap::{ArgMatches, Error};
use mds_arguments::{FoundWords, QueryName, QueryWords};
use mds_records::FileKind;
use std::alloc::{AllocError, Global};

/// Reads the words that follow the program's name by the grammar of its commands.
pub(crate) fn read_by_grammar<'a>(
    alloc: Global,
    words: &'a [String],
) -> Result<Words<'a>, WordsFault>
    ensures asked { IfOk result (λ asked. (app : App) × IsMdstore app
        × IsAskedBy app (map string_bytes words.now) asked) }
    ensures passes { IfErr result (λ fault. (app : App) × IsMdstore app
        × IsRefusedBy app (map string_bytes words.now) fault) }
{
    match matched(alloc, kinds(), words) {
        Ok(words) => Ok(words),
        Err(error) => Err(words_fault(alloc, &error)),
    }
}

/// The fault that an error of `clap` becomes. Its text says what is wrong with the words, or is the help or the version that they
/// ask for.
fn words_fault(alloc: Global, error: &Error) -> WordsFault
    ensures memory { kind_of error.now ≡ ErrorKind.OutOfMemory → result ≡ WordsFault.Memory }
    ensures kind { IsRefusedAs (kind_of error.now) result }
{
    let Ok(text) = format!(in alloc; "{error}") else {
        return WordsFault::Memory;
    };
    match error.kind() {
        ErrorKind::OutOfMemory => WordsFault::Memory,
        ErrorKind::DisplayVersion => WordsFault::Version(text),
        _ => WordsFault::Text(text),
    }
}

/// What the words ask for, or what `clap` says of them. `kinds` has the names of the kinds of files.
fn matched<'a>(alloc: Global, kinds: &'a [&'a str], words: &'a [String]) -> Result<Words<'a>, Error>
    ensures asked { IfOk result (IsAskedBy (mdstore_app kinds.entry) (map string_bytes words.now)) }
    ensures passes { IfErr result (λ error.
        takes (mdstore_app kinds.entry) (map string_bytes words.now) ≡ true
        → kind_of error ≡ ErrorKind.OutOfMemory) }
    ensures kinds { IfErr result (HasKind (fault_of (mdstore_app kinds.entry) (map string_bytes words.now))) }
{
    let matches = grammar(alloc, kinds)?.try_get_matches_from(words)?;
    // The grammar requires a command, so there is one.
    let (name, found) = matches.subcommand().unwrap();
    Ok(asked(alloc, name, found)?)
}

/// What the name of a command and its arguments ask for.
fn asked<'a>(alloc: Global, name: &str, found: &ArgMatches<'a>) -> Result<Words<'a>, AllocError>
    ensures { IfOk result (λ words. (kinds : Bor (List (Bor Text)))
        → has_command (mdstore_app kinds) name.now ≡ true
        → Asks (Some (name.now, rows_of (found_of found.now))) words) }
{
    let store = word(found, "store");
    if let Some(query) = QueryName::named(name) {
        return Ok(Words::Query {
            store,
            query,
            words: query_words(found),
        });
    }
    match name {
        "import" => Ok(Words::Import {
            store,
            kind: kind(found),
            inputs: inputs(alloc, found)?,
        }),
        "export" => Ok(Words::Export {
            store,
            arguments: query_words(found).export(suffixes(alloc, found)?),
        }),
        "explain" => Ok(Words::Explain {
            code: all_words(alloc, found, "code")?,
        }),
        _ => Ok(asked_without_memory(name, found, store)),
    }
}

/// The same for a command that needs no memory, and is no query.
fn asked_without_memory<'a>(name: &str, found: &ArgMatches<'a>, store: &'a str) -> Words<'a>
    requires { store.now ≡ value_of (codes "store") (rows_of (found_of found.now)) }
    ensures { (kinds : Bor (List (Bor Text)))
        → list_any (λ shape. bytes_eq shape.name name.now) (check_command kinds ∷ init_command ∷ migrate_command ∷ substitute_command
        ∷ holidays_command ∷ serve_command ∷ []) ≡ true
        → Asks (Some (name.now, rows_of (found_of found.now))) result }
{
    match name {
        "check" => Words::Check {
            kind: kind(found),
            input: input(found),
        },
        "init" => Words::Init {
            store,
            has_sums: has_flag(found, "sums"),
        },
        "migrate" => Words::Migrate { store },
        "substitute" => Words::Substitute {
            store,
            input: input(found),
        },
        "holidays" => Words::Holidays {
            store,
            input: input(found),
        },
        _ => Words::Serve {
            store,
            port: port(found),
            count: count(found),
            has_log: has_flag(found, "log"),
        },
    }
}

/// The arguments that were found after a command.
#[derive(Drop)]
struct Found<'m, 'a> {
    matches: &'m ArgMatches<'a>,
}

impl<'m, 'a> FoundWords<'a> for Found<'m, 'a> {
    ghost word_of = { λ found id. first_of id (rows_of (found_of found.matches.now)) };

    fn find(&self, id: &str) -> Option<&'a [u8]> {
        match self.matches.get_str(id) {
            Some(word) => Some(word.as_bytes()),
            None => None,
        }
    }
}

/// The words of a query's arguments.
fn query_words<'a>(found: &ArgMatches<'a>) -> QueryWords<'a>
    ensures { AreFound (λ id. first_of id (rows_of (found_of found.now))) result }
{
    QueryWords::of(&Found { matches: found })
}

/// The word of an argument. It is empty if the command has no such argument.
fn word<'a>(found: &ArgMatches<'a>, id: &str) -> &'a str
    ensures { result.now ≡ value_of id.now (rows_of (found_of found.now)) }
{
    found.get_str(id).unwrap_or("")
}

/// The words of an argument that takes several.
fn all_words<'a>(
    alloc: Global,
    found: &ArgMatches<'a>,
    id: &str,
) -> Result<Vec<&'a str>, AllocError>
    ensures { IfOk result (λ words. texts words.items ≡ values_of id.now (rows_of (found_of found.now))) }
{
    match found.get_strs(id) {
        Some(words) => words.to_vec(alloc),
        None => Ok(Vec::new(alloc)),
    }
}

/// The streams that are exported.
fn suffixes<'a>(alloc: Global, found: &ArgMatches<'a>) -> Result<Vec<&'a [u8]>, AllocError>
    ensures { IfOk result (λ suffixes. texts suffixes.items
        ≡ values_of (codes "suffixes") (rows_of (found_of found.now))) }
{
    let words = all_words(alloc, found, "suffixes")?;
    let mut suffixes = Vec::new(alloc);
    for word in &words {
        suffixes.push(word.as_bytes())?;
    }
    Ok(suffixes)
}

/// The file of an argument that takes one.
fn input<'a>(found: &ArgMatches<'a>) -> Input<'a>
    ensures { input_value result ≡ input_of (value_of (codes "file") (rows_of (found_of found.now))) }
{
    Input::new(word(found, "file"))
}

/// The files of an argument that takes several.
fn inputs<'a>(alloc: Global, found: &ArgMatches<'a>) -> Result<Vec<Input<'a>>, AllocError>
    ensures { IfOk result (λ inputs. map input_value inputs.items
        ≡ map input_of (values_of (codes "file") (rows_of (found_of found.now)))) }
{
    let names = all_words(alloc, found, "file")?;
    let mut inputs = Vec::new(alloc);
    for name in &names {
        inputs.push(Input::new(*name))?;
    }
    Ok(inputs)
}

/// Whether a flag is there. `clap` keeps it as a word.
fn has_flag(found: &ArgMatches<'_>, id: &str) -> bool
    ensures { result ≡ has_flag id.now (rows_of (found_of found.now)) }
{
    word(found, id) == "true"
}

/// The kind of file that the words name.
fn kind(found: &ArgMatches<'_>) -> FileKind
    ensures { result ≡ kind_of_name (value_of (codes "kind") (rows_of (found_of found.now))) }
{
    match word(found, "kind") {
        "nem13" => FileKind::Nem13,
        _ => FileKind::Nem12,
    }
}

/// The port. It is a number, since the grammar requires one.
fn port(found: &ArgMatches<'_>) -> u16
    ensures { result ≡ number_of (2 ^ 16) (codes "port") (rows_of (found_of found.now)) }
{
    found.get_one::<u16>("port").unwrap_or(0)
}

/// The count. It is a number, since the grammar requires one.
fn count(found: &ArgMatches<'_>) -> u32
    ensures { result ≡ number_of (2 ^ 32) (codes "count") (rows_of (found_of found.now)) }
{
    found.get_one::<u32>("count").unwrap_or(0)
}
