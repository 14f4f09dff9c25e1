//! The commands of the program, and the words that they take.

ghost use Rattle.std.specs.Prelude.{◌≡◌};
ghost use Rattle.mds_words.specs.Grammar.{id_of, name_text, words_of};

/// A command, by its name.
#[derive(Clone, Copy)]
pub(crate) enum Name {
    Check,
    Init,
    Migrate,
    Import,
    Substitute,
    Holidays,
    Streams,
    Day,
    Versions,
    Periods,
    Gaps,
    Finals,
    Missing,
    Readings,
    Export,
    Serve,
    Explain,
}

/// A word that a command takes. For `Files`, `Suffixes` and `Code` it is several words.
#[derive(Clone, Copy)]
pub(crate) enum Word {
    Store,
    Sums,
    Kind,
    File,
    Files,
    Job,
    List,
    Nmi,
    Suffix,
    Suffixes,
    Date,
    Interval,
    From,
    To,
    Since,
    Moment,
    Sender,
    Receiver,
    Port,
    Count,
    Log,
    Why,
    Code,
}

impl Name {
    /// All of them, in the order of the help.
    pub(crate) const ALL: [Name; 17] = [
        Name::Check,
        Name::Init,
        Name::Migrate,
        Name::Import,
        Name::Substitute,
        Name::Holidays,
        Name::Streams,
        Name::Day,
        Name::Versions,
        Name::Periods,
        Name::Gaps,
        Name::Finals,
        Name::Missing,
        Name::Readings,
        Name::Export,
        Name::Serve,
        Name::Explain,
    ];

    /// The name itself.
    pub(crate) fn text(self) -> &'static str
        ensures { result.now ≡ name_text self }
    {
        match self {
            Name::Check => "check",
            Name::Init => "init",
            Name::Migrate => "migrate",
            Name::Import => "import",
            Name::Substitute => "substitute",
            Name::Holidays => "holidays",
            Name::Streams => "streams",
            Name::Day => "day",
            Name::Versions => "versions",
            Name::Periods => "periods",
            Name::Gaps => "gaps",
            Name::Finals => "finals",
            Name::Missing => "missing",
            Name::Readings => "readings",
            Name::Export => "export",
            Name::Serve => "serve",
            Name::Explain => "explain",
        }
    }

    /// What the command does.
    pub(crate) fn about(self) -> &'static str {
        match self {
            Name::Check => "Checks a file, and prints a line for each day or accumulation",
            Name::Init => "Makes a store in a new file",
            Name::Migrate => "Migrates a store of an earlier schema to that of this version",
            Name::Import => "Adds the data of files to a store",
            Name::Substitute => {
                "Fills in readings of a day by a substitution job, and keeps the job"
            }
            Name::Holidays => "Lists days as holidays",
            Name::Streams => "Prints the known streams with the details of their meters, as JSON",
            Name::Day => "Prints the current readings of a day, as JSON",
            Name::Versions => "Prints all versions of an interval of a day, as JSON",
            Name::Periods => "Prints all accumulations of a stream, as JSON",
            Name::Gaps => "Prints the gaps of a stream in a range of days, as a CSV file",
            Name::Finals => {
                "Prints the final substitutions of a stream in a range of days, as a CSV file"
            }
            Name::Missing => "Prints the gaps of all streams in a range of days, as a CSV file",
            Name::Readings => {
                "Prints the current readings of a stream in a range of days, as a CSV file"
            }
            Name::Export => {
                "Prints the current readings of streams in a range of days, as a NEM12 file"
            }
            Name::Serve => {
                "Answers requests over HTTP on 127.0.0.1, one connection after the other"
            }
            Name::Explain => "Explains a printed code, or all of them",
        }
    }

    /// The words that it takes.
    pub(crate) fn words(self) -> &'static [Word]
        ensures { result.now ≡ words_of self }
    {
        match self {
            Name::Check => &[Word::Kind, Word::Why, Word::File],
            Name::Init => &[Word::Store, Word::Sums, Word::Why],
            Name::Migrate | Name::Streams => &[Word::Store, Word::Why],
            Name::Import => &[Word::Store, Word::Kind, Word::Why, Word::Files],
            Name::Substitute => &[Word::Store, Word::Why, Word::Job],
            Name::Holidays => &[Word::Store, Word::Why, Word::List],
            Name::Day => &[Word::Store, Word::Why, Word::Nmi, Word::Suffix, Word::Date],
            Name::Versions => &[
                Word::Store,
                Word::Why,
                Word::Nmi,
                Word::Suffix,
                Word::Date,
                Word::Interval,
            ],
            Name::Periods => &[Word::Store, Word::Why, Word::Nmi, Word::Suffix],
            Name::Gaps | Name::Finals | Name::Readings => &[
                Word::Store,
                Word::Why,
                Word::Nmi,
                Word::Suffix,
                Word::From,
                Word::To,
            ],
            Name::Missing => &[Word::Store, Word::Since, Word::Why, Word::From, Word::To],
            Name::Export => &[
                Word::Store,
                Word::Why,
                Word::Nmi,
                Word::From,
                Word::To,
                Word::Moment,
                Word::Sender,
                Word::Receiver,
                Word::Suffixes,
            ],
            Name::Serve => &[Word::Store, Word::Port, Word::Count, Word::Log, Word::Why],
            Name::Explain => &[Word::Code],
        }
    }
}

impl Word {
    /// The id of its argument.
    pub(crate) fn id(self) -> &'static str
        ensures { result.now ≡ id_of self }
    {
        match self {
            Word::Store => "store",
            Word::Sums => "sums",
            Word::Kind => "kind",
            Word::File | Word::Files | Word::Job | Word::List => "file",
            Word::Nmi => "nmi",
            Word::Suffix => "suffix",
            Word::Suffixes => "suffixes",
            Word::Date => "date",
            Word::Interval => "interval",
            Word::From => "from",
            Word::To => "to",
            Word::Since => "since",
            Word::Moment => "moment",
            Word::Sender => "sender",
            Word::Receiver => "receiver",
            Word::Port => "port",
            Word::Count => "count",
            Word::Log => "log",
            Word::Why => "why",
            Word::Code => "code",
        }
    }

    /// Its name in the usage.
    pub(crate) fn value_name(self) -> &'static str {
        match self {
            Word::Store => "PATH",
            Word::Sums => "SUMS",
            Word::Kind => "KIND",
            Word::File | Word::Files | Word::Job | Word::List => "FILE",
            Word::Nmi => "NMI",
            Word::Suffix | Word::Suffixes => "SUFFIX",
            Word::Date => "DATE",
            Word::Interval => "INTERVAL",
            Word::From => "FROM",
            Word::To => "TO",
            Word::Since => "DATE",
            Word::Moment => "MOMENT",
            Word::Sender => "SENDER",
            Word::Receiver => "RECEIVER",
            Word::Port => "P",
            Word::Count => "N",
            Word::Log => "LOG",
            Word::Why => "WHY",
            Word::Code => "CODE",
        }
    }

    /// Its help.
    pub(crate) fn help(self) -> &'static str {
        match self {
            Word::Store => "The file of the store",
            Word::Sums => "Gives each page of the file a sum, so that changed bytes are found",
            Word::Kind => "The kind of file: interval data, or accumulations",
            Word::File | Word::Files => {
                "A file of the Meter Data File Format; - is standard input"
            }
            Word::Job => "A substitution job in JSON; - is standard input",
            Word::List => {
                "A CSV file: a row date, then a row CCYYMMDD for each day; - is standard input"
            }
            Word::Nmi => "The NMI of the meter: ten capital letters and digits",
            Word::Suffix => "The suffix of the stream, such as E1",
            Word::Suffixes => "The suffixes of the streams, such as E1 B1",
            Word::Date => "The day, CCYYMMDD",
            Word::Interval => "The number of the interval, from 1, in one to four digits",
            Word::From => "The first day, CCYYMMDD",
            Word::To => "The last day, CCYYMMDD",
            Word::Since => {
                "Leaves out streams whose last known day is before this day, CCYYMMDD"
            }
            Word::Moment => "When the file is made, CCYYMMDDhhmm or CCYYMMDDhhmmss",
            Word::Sender => {
                "Who the file is from, in at most 240 printable ASCII characters without a comma"
            }
            Word::Receiver => {
                "Who the file is for, in at most 240 printable ASCII characters without a comma"
            }
            Word::Port => "The port",
            Word::Count => "After how many connections it ends",
            Word::Log => "Prints a line for each connection on standard error",
            Word::Why => "Prints on standard error why something is refused",
            Word::Code => "The code, such as L8 or bad job",
        }
    }
}
