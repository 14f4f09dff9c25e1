//! The queries, their arguments by their names, and the words of these arguments.

ghost use Rattle.std.specs.Prelude.{◌≡◌, [], false, unwrap_or, MatchOption};
ghost use Rattle.mds_arguments.specs.Arguments.{AreFound, IsExportOf, all_queries, argument_name, is_query_name, query_name, word_texts};

/// A query whose arguments take one word each.
#[derive(Clone, Copy)]
pub enum QueryName {
    /// The known streams.
    Streams,
    /// A day of a stream.
    Day,
    /// The versions of an interval of a stream's day.
    Versions,
    /// The accumulations of a stream.
    Periods,
    /// The gaps of a stream in a range of days.
    Gaps,
    /// The finals of a stream in a range of days.
    Finals,
    /// The gaps of all streams in a range of days.
    Missing,
    /// The current readings of a stream in a range of days.
    Readings,
}

/// An argument of a query.
#[derive(Clone, Copy)]
pub enum Argument {
    /// A meter: ten capital letters and digits.
    Nmi,
    /// One of its streams: two capital letters and digits.
    Suffix,
    /// A day, CCYYMMDD.
    Date,
    /// An interval of a day, from 1: one to four digits.
    Interval,
    /// The first day of a range, CCYYMMDD.
    From,
    /// The last day of a range, CCYYMMDD.
    To,
    /// The day that a stream's last known day has to reach, CCYYMMDD. It may be left out.
    Since,
    /// The time at which the file is made, CCYYMMDDhhmm or CCYYMMDDhhmmss.
    Moment,
    /// The sender: a printable text.
    Sender,
    /// The receiver: a printable text.
    Receiver,
}

/// The words of arguments, found by the ids of the arguments. They are those of a command, of a query over HTTP or of a path.
pub trait FoundWords<'a> {
    ghost use Rattle.std.specs.Prelude.{◌≡◌, ℕ, List, Option, option_map};

    /// The word of each id that has one.
    ghost word_of: { Self → List ℕ → Option (List ℕ) };

    /// The word of an argument, or `None` if there is no such argument.
    fn find(&self, id: &str) -> Option<&'a [u8]>
        ensures { option_map (λ word. word.now) result ≡ word_of self.now id.now };
}

/// The words of a query's arguments. A required one is empty if it isn't there; one that may be left out is an `Option`.
#[derive(Clone, Copy)]
pub struct QueryWords<'a> {
    pub nmi: &'a [u8],
    pub suffix: &'a [u8],
    pub date: &'a [u8],
    pub interval: &'a [u8],
    pub from: &'a [u8],
    pub to: &'a [u8],
    pub since: Option<&'a [u8]>,
    pub moment: &'a [u8],
    pub sender: &'a [u8],
    pub receiver: &'a [u8],
}

/// The arguments of an export.
#[derive(Drop)]
pub struct ExportArguments<'a> {
    pub nmi: &'a [u8],
    pub from: &'a [u8],
    pub to: &'a [u8],
    pub moment: &'a [u8],
    pub sender: &'a [u8],
    pub receiver: &'a [u8],
    pub suffixes: Vec<&'a [u8]>,
}

impl QueryName {
    /// All of them.
    const ALL: [QueryName; 8] = [
        QueryName::Streams,
        QueryName::Day,
        QueryName::Versions,
        QueryName::Periods,
        QueryName::Gaps,
        QueryName::Finals,
        QueryName::Missing,
        QueryName::Readings,
    ];

    /// Its name, which is that of its command.
    pub fn name(self) -> &'static str
        ensures { result.now ≡ query_name self }
    {
        match self {
            QueryName::Streams => "streams",
            QueryName::Day => "day",
            QueryName::Versions => "versions",
            QueryName::Periods => "periods",
            QueryName::Gaps => "gaps",
            QueryName::Finals => "finals",
            QueryName::Missing => "missing",
            QueryName::Readings => "readings",
        }
    }

    /// The query with this name.
    pub fn named(name: &str) -> Option<QueryName>
        ensures { MatchOption result (is_query_name name.now ≡ false) (λ query. name.now ≡ query_name query) }
    {
        for query in QueryName::ALL.as_slice() {
            if query.name() == name {
                return Some(*query);
            }
        }
        None
    }
}

impl Argument {
    /// Its name in the usage of a command.
    pub fn name(self) -> &'static str
        ensures { result.now ≡ argument_name self }
    {
        match self {
            Argument::Nmi => "NMI",
            Argument::Suffix => "SUFFIX",
            Argument::Date => "DATE",
            Argument::Interval => "INTERVAL",
            Argument::From => "FROM",
            Argument::To => "TO",
            Argument::Since => "SINCE",
            Argument::Moment => "MOMENT",
            Argument::Sender => "SENDER",
            Argument::Receiver => "RECEIVER",
        }
    }
}

/// The word of a required argument. It is empty if there is none.
fn word<'a, F: FoundWords<'a>>(found: &F, id: &str) -> &'a [u8]
    ensures { result.now ≡ unwrap_or (F.word_of found.now id.now) [] }
{
    found.find(id).unwrap_or("".as_bytes())
}

impl<'a> QueryWords<'a> {
    /// The words that are found by the ids of the arguments.
    pub fn of<F: FoundWords<'a>>(found: &F) -> QueryWords<'a>
        ensures { AreFound (F.word_of found.now) result }
    {
        QueryWords {
            nmi: word(found, "nmi"),
            suffix: word(found, "suffix"),
            date: word(found, "date"),
            interval: word(found, "interval"),
            from: word(found, "from"),
            to: word(found, "to"),
            since: found.find("since"),
            moment: word(found, "moment"),
            sender: word(found, "sender"),
            receiver: word(found, "receiver"),
        }
    }

    /// The arguments of an export of these streams.
    pub fn export(self, suffixes: Vec<&'a [u8]>) -> ExportArguments<'a>
        ensures words { IsExportOf (word_texts self.entry) result }
        ensures suffixes { result.suffixes ≡ suffixes.entry }
    {
        ExportArguments {
            nmi: self.nmi,
            from: self.from,
            to: self.to,
            moment: self.moment,
            sender: self.sender,
            receiver: self.receiver,
            suffixes,
        }
    }
}
