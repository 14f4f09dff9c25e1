//! The requests that arguments ask for.

ghost use Rattle.std.specs.Prelude.{◌≡◌, ◌<◌, false, length, map, IfErr, IfOk, OnErr, MatchOption, MatchResult, Some, None, is_some};
ghost use Rattle.std.specs.List.{list_all};
ghost use Rattle.mds_names.specs.Names.{suffix_of};
ghost use Rattle.mds_messages.specs.declared.request.Request.{Request as Asked};
ghost use Rattle.mds_arguments.specs.Arguments.{AskFor, AskForExport, IsExportFault, IsFirstBad, SpellDayIfSome, SpellRange, SpellStream, found_texts, is_day_if_some, range_tests, stream_tests, tests_of, word_texts};

use crate::arguments::{Argument, ExportArguments, FoundWords, QueryName, QueryWords};
use mds_marks::interval_number;
use mds_messages::Request;
use mds_statements::Header;
use mds_terms::{Day, Moment, Nmi, PrintableString, Stream, Suffix};
use std::alloc::{AllocError, Global};

/// Why there is no request.
#[derive(Clone, Copy)]
pub enum ArgumentsFault {
    /// An argument is bad: the first one, in the order of the command's words.
    Bad(Argument),
    /// There was no memory.
    Memory,
}

impl From<AllocError> for ArgumentsFault {
    ghost use Rattle.mds_arguments.specs.declared.requests.ArgumentsFault.TheVariants as fault;

    ghost from_gives = { λ _ reason. reason ≡ fault.Memory };

    fn from(_: AllocError) -> ArgumentsFault {
        ArgumentsFault::Memory
    }
}

/// The request that the words of a query ask for.
pub fn query_request(query: QueryName, words: &QueryWords<'_>) -> Result<Request, Argument>
    ensures value { MatchResult result (AskFor query (word_texts words.now))
        (IsFirstBad (tests_of query (word_texts words.now))) }
    // The words ask for nothing then.
    ensures none { IfErr result (λ _. (request : Asked) → ¬ AskFor query (word_texts words.now) request) }
{
    match query {
        QueryName::Streams => Ok(Request::Streams),
        QueryName::Day => day_request(words),
        QueryName::Versions => versions_request(words),
        QueryName::Periods => periods_request(words),
        QueryName::Gaps => gaps_request(words),
        QueryName::Finals => finals_request(words),
        QueryName::Missing => missing_request(words),
        QueryName::Readings => readings_request(words),
    }
}

/// The request that a query asks for, with the words that are found by the ids of its arguments.
pub fn found_request<'a, F: FoundWords<'a>>(
    query: QueryName,
    found: &F,
) -> Result<Request, Argument>
    ensures value { MatchResult result (AskFor query (found_texts (F.word_of found.now)))
        (IsFirstBad (tests_of query (found_texts (F.word_of found.now)))) }
    ensures none { IfErr result (λ _. (request : Asked) → ¬ AskFor query (found_texts (F.word_of found.now)) request) }
{
    query_request(query, &QueryWords::of(found))
}

/// The request for the accumulations of a stream.
fn periods_request(words: &QueryWords<'_>) -> Result<Request, Argument>
    ensures value { MatchResult result (AskFor QueryName.Periods (word_texts words.now))
        (IsFirstBad (tests_of QueryName.Periods (word_texts words.now))) }
    ensures none { IfErr result (λ _. (request : Asked) → ¬ AskFor QueryName.Periods (word_texts words.now) request) }
{
    let stream = read_stream(words)?;
    Ok(Request::Period { stream })
}

/// The request for a day of a stream.
fn day_request(words: &QueryWords<'_>) -> Result<Request, Argument>
    ensures value { MatchResult result (AskFor QueryName.Day (word_texts words.now))
        (IsFirstBad (tests_of QueryName.Day (word_texts words.now))) }
    ensures none { IfErr result (λ _. (request : Asked) → ¬ AskFor QueryName.Day (word_texts words.now) request) }
{
    let stream = read_stream(words)?;
    // decides: bad argument: an argument isn't what its request needs
    let day = Day::read(words.date).ok_or(Argument::Date)?;
    Ok(Request::Day { stream, day })
}

/// The request for the versions of an interval of a stream's day.
fn versions_request(words: &QueryWords<'_>) -> Result<Request, Argument>
    ensures value { MatchResult result (AskFor QueryName.Versions (word_texts words.now))
        (IsFirstBad (tests_of QueryName.Versions (word_texts words.now))) }
    ensures none { IfErr result (λ _. (request : Asked) → ¬ AskFor QueryName.Versions (word_texts words.now) request) }
{
    let stream = read_stream(words)?;
    let day = Day::read(words.date).ok_or(Argument::Date)?;
    // decides: bad argument: an argument isn't what its request needs
    let interval = interval_number(words.interval).ok_or(Argument::Interval)?;
    Ok(Request::Versions {
        stream,
        day,
        interval,
    })
}

/// The request for the gaps of a range.
fn gaps_request(words: &QueryWords<'_>) -> Result<Request, Argument>
    ensures value { MatchResult result (AskFor QueryName.Gaps (word_texts words.now))
        (IsFirstBad (tests_of QueryName.Gaps (word_texts words.now))) }
    ensures none { IfErr result (λ _. (request : Asked) → ¬ AskFor QueryName.Gaps (word_texts words.now) request) }
{
    let StreamRange {
        stream,
        first,
        last,
    } = read_range(words)?;
    Ok(Request::Gaps {
        stream,
        first,
        last,
    })
}

/// The request for the finals of a range.
fn finals_request(words: &QueryWords<'_>) -> Result<Request, Argument>
    ensures value { MatchResult result (AskFor QueryName.Finals (word_texts words.now))
        (IsFirstBad (tests_of QueryName.Finals (word_texts words.now))) }
    ensures none { IfErr result (λ _. (request : Asked) → ¬ AskFor QueryName.Finals (word_texts words.now) request) }
{
    let StreamRange {
        stream,
        first,
        last,
    } = read_range(words)?;
    Ok(Request::Finals {
        stream,
        first,
        last,
    })
}

/// The request for the gaps of all streams.
fn missing_request(words: &QueryWords<'_>) -> Result<Request, Argument>
    ensures value { MatchResult result (AskFor QueryName.Missing (word_texts words.now))
        (IsFirstBad (tests_of QueryName.Missing (word_texts words.now))) }
    ensures none { IfErr result (λ _. (request : Asked) → ¬ AskFor QueryName.Missing (word_texts words.now) request) }
{
    let since = read_since(words)?;
    // decides: bad argument: an argument isn't what its request needs
    let from = Day::read(words.from).ok_or(Argument::From)?;
    let to = Day::read(words.to).ok_or(Argument::To)?;
    Ok(Request::Missing {
        first: from,
        last: to,
        since,
    })
}

/// The request for the current readings of a range.
fn readings_request(words: &QueryWords<'_>) -> Result<Request, Argument>
    ensures value { MatchResult result (AskFor QueryName.Readings (word_texts words.now))
        (IsFirstBad (tests_of QueryName.Readings (word_texts words.now))) }
    ensures none { IfErr result (λ _. (request : Asked) → ¬ AskFor QueryName.Readings (word_texts words.now) request) }
{
    let StreamRange {
        stream,
        first,
        last,
    } = read_range(words)?;
    Ok(Request::Readings {
        stream,
        first,
        last,
    })
}

/// The day that the last known day of a stream has to reach, if one is given.
fn read_since(words: &QueryWords<'_>) -> Result<Option<Day>, Argument>
    ensures { MatchResult result (SpellDayIfSome (word_texts words.now).since)
        (λ argument. (argument ≡ Argument.Since) × (is_day_if_some (word_texts words.now).since ≡ false)) }
{
    let Some(text) = words.since else {
        return Ok(None);
    };
    // decides: bad argument: an argument isn't what its request needs
    let Some(day) = Day::read(text) else {
        return Err(Argument::Since);
    };
    Ok(Some(day))
}

/// The stream that the words name.
fn read_stream(words: &QueryWords<'_>) -> Result<Stream, Argument>
    ensures { MatchResult result (SpellStream (word_texts words.now)) (IsFirstBad (stream_tests (word_texts words.now))) }
{
    // decides: bad argument: an argument isn't what its request needs
    let nmi = Nmi::read(words.nmi).ok_or(Argument::Nmi)?;
    let suffix = Suffix::read(words.suffix).ok_or(Argument::Suffix)?;
    Ok(Stream { nmi, suffix })
}

/// A range of days of a stream.
#[derive(Clone, Copy)]
struct StreamRange {
    stream: Stream,
    first: Day,
    last: Day,
}

/// The range that the words name.
fn read_range(words: &QueryWords<'_>) -> Result<StreamRange, Argument>
    ensures { MatchResult result (λ range. SpellRange (word_texts words.now) range.stream range.first range.last)
        (IsFirstBad (range_tests (word_texts words.now))) }
{
    let stream = read_stream(words)?;
    // decides: bad argument: an argument isn't what its request needs
    let first = Day::read(words.from).ok_or(Argument::From)?;
    let last = Day::read(words.to).ok_or(Argument::To)?;
    Ok(StreamRange {
        stream,
        first,
        last,
    })
}

/// The request for an export. It takes memory only for the sender, the receiver and the suffixes.
pub fn export_request(
    alloc: Global,
    arguments: &ExportArguments<'_>,
) -> Result<Request, ArgumentsFault>
    ensures { MatchResult result
        (AskForExport arguments.now.nmi.now arguments.now.from.now arguments.now.to.now arguments.now.moment.now
        arguments.now.sender.now arguments.now.receiver.now (map (λ suffix. suffix.now) arguments.now.suffixes.items))
        (IsExportFault arguments.now.nmi.now arguments.now.from.now arguments.now.to.now arguments.now.moment.now
        arguments.now.sender.now arguments.now.receiver.now (map (λ suffix. suffix.now) arguments.now.suffixes.items)) }
{
    // decides: bad argument: an argument isn't what its request needs
    let Some(nmi) = Nmi::read(arguments.nmi) else {
        return Err(ArgumentsFault::Bad(Argument::Nmi));
    };
    let Some(first) = Day::read(arguments.from) else {
        return Err(ArgumentsFault::Bad(Argument::From));
    };
    let Some(last) = Day::read(arguments.to) else {
        return Err(ArgumentsFault::Bad(Argument::To));
    };
    let Some(moment) = Moment::read_date_time(arguments.moment) else {
        return Err(ArgumentsFault::Bad(Argument::Moment));
    };
    let Some(sender) = PrintableString::read(alloc, arguments.sender)? else {
        return Err(ArgumentsFault::Bad(Argument::Sender));
    };
    let Some(receiver) = PrintableString::read(alloc, arguments.receiver)? else {
        return Err(ArgumentsFault::Bad(Argument::Receiver));
    };
    let Some(suffixes) = read_suffixes(alloc, &arguments.suffixes)? else {
        return Err(ArgumentsFault::Bad(Argument::Suffix));
    };
    let header = Header {
        moment,
        sender,
        receiver,
    };
    Ok(Request::Export {
        nmi,
        suffixes,
        first,
        last,
        header,
    })
}

/// The suffixes that the texts name, or `None` if one isn't a suffix. It takes memory only if there is a text.
fn read_suffixes(alloc: Global, texts: &[&[u8]]) -> Result<Option<Vec<Suffix>>, AllocError>
    ensures value { IfOk result (λ found. MatchOption found
        (list_all (λ text. is_some (suffix_of text)) (map (λ text. text.now) texts.now) ≡ false)
        (λ suffixes. map suffix_of (map (λ text. text.now) texts.now) ≡ map (λ suffix. Some suffix) suffixes.items)) }
    ensures full { OnErr result (0 < length texts.now) }
{
    let mut suffixes = Vec::new(alloc);
    for text in texts {
        let Some(suffix) = Suffix::read(text) else {
            return Ok(None);
        };
        suffixes.push(suffix)?;
    }
    Ok(Some(suffixes))
}
