//! What the printed codes mean.

ghost use Rattle.std.specs.Prelude.{◌≡◌, option_map};
ghost use Rattle.mds_desk.specs.Sections.{is_named, name_of, section_of};

/// What each printed code means: a head, and a section for each code under a heading that begins with it. `docs/FAULTS.md` is this text.
pub const EXPLANATIONS: &str = r#"# What the printed codes mean

mdstore prints a code when it refuses something. `mdstore explain CODE` prints the section of one
code, and `mdstore explain` prints this whole text. Upper and lower case both work.

- L1 to L12 are faults of a file. `mdstore check FILE` prints the first one, with its line and, for
  L5, its field. Lines and fields are counted from 1, and the indicator is field 1.
- M1 to M12 are refusals of a file, a job or a query.
- H1 is a fault in a list of holidays.
- U1 to U3 say that the store can't be used.
- The other codes are about a job, an argument, a file or a port that can't be used.

In the examples, `1.5 ..` means `1.5` in each field up to the end of the day's 48 values. You can
type all example files as they are shown, except those of L1 and L10.

## L1: The line isn't UTF-8

The line has bytes that aren't UTF-8. Nothing of the file was imported.

Usual causes: a reason text in another character set, such as Latin-1; a compressed file.

Example: a header, and then a line with the byte FF. `check` prints `L1 line 2`.

What to do: convert the file to UTF-8, for example with `iconv -f latin1 -t utf8 FILE`. Or ask for
it to be sent again.

## L2: The line doesn't begin with an indicator

The first field isn't one of 100, 200, 250, 300, 400, 500, 550 and 900.

Usual causes: quotation marks or spaces around fields; semicolons instead of commas; a byte order
mark before the 100; a header row of column names.

Example, for which `check` prints `L2 line 2`:

    100,NEM12,202401030000,MDP1,RETAILER
    201,NEM1201009

What to do: remove what comes before the indicator, and separate the fields with commas.

## L3: The record isn't in place

A record of this kind can't follow the record before it. A file begins with a 100 and ends with a
900. A 300 needs a 200 before it. A 400 follows a 300 or a 400. A 500 follows a 300, a 400 or a 500.
In a NEM13 file a 550 follows a 250 or a 550.

Usual causes: lines that were sorted, lost or duplicated; two files joined into one.

Example, for which `check` prints `L3 line 2`:

    100,NEM12,202401030000,MDP1,RETAILER
    300,20240101,1.5 ..,A,,,,

Example, for which `check --kind nem13` prints `L3 line 2`:

    100,NEM13,202401030000,MDP1,RETAILER
    550,N,,A,

What to do: put the records in order, with one 100 and one 900 in each file.

## L4: The record has too few or too many fields

A required field is missing, or a field past the last one isn't empty. A 300 has 288, 96 or 48
values if the 200 before it says 5, 15 or 30 minutes. A 250 has 20 to 23 fields. A 550 has up to 5.

Usual causes: the 200 has another interval length than the days; a text has a comma in it; a value
was lost.

Example, for which `check` prints `L4 line 2`:

    100,NEM12,202401030000,MDP1,RETAILER
    200,NEM1201009,E1,1,E1

Example, for which `check --kind nem13` prints `L4 line 2`:

    100,NEM13,202401030000,MDP1,RETAILER
    250,1234567890,1141,01

What to do: count the fields of the line. Compare the interval length with the number of values.

## L5: A field has the wrong form

The named field doesn't have the form that its layout requires. Fields are counted from 1, and the
indicator is field 1. In a 300 a value may be empty only if the quality is N or V. In a 250 the
direction is `I` or `E`. Its quantity, its unit and the moments of both reads must not be empty.

Usual causes: lower case letters in an NMI; a day such as 2024-01-01; an unknown unit; an empty
value under quality A.

Example, for which `check` prints `L5 line 2 field 2`:

    100,NEM12,202401030000,MDP1,RETAILER
    200,nem1201009,E1,1,E1,N1,01009,kWh,30,

Example, for which `check --kind nem13` prints `L5 line 2 field 8`:

    100,NEM13,202401030000,MDP1,RETAILER
    250,1234567890,1141,01,11,11,METSER66,X,21.2,20231001103230,A,,,534.5,20240101100030,E64,77,,513.3,kWh

What to do: look up the field in `docs/FORMATS.md`, "Records".

## L6: The 400 record's intervals aren't within the day

The run of intervals ends before it begins, or goes past the end of the day. A day has intervals 1
to 288 of 5 minutes, 1 to 96 of 15 minutes, or 1 to 48 of 30 minutes.

Usual causes: intervals counted from 0; runs made for another interval length.

Example, for which `check` prints `L6 line 4`:

    100,NEM12,202401030000,MDP1,RETAILER
    200,NEM1201009,E1,1,E1,N1,01009,kWh,30,
    300,20240101,1.5 ..,A,,,,
    400,47,49,F14,,

What to do: count the intervals from 1, with the length that the 200 says.

## L7: The 400 record begins before the one above it has ended

The runs of a day are in ascending order, and no two of them share an interval.

Usual causes: a run that begins at the interval where the one above it ends; unsorted runs.

Example, for which `check` prints `L7 line 5`:

    100,NEM12,202401030000,MDP1,RETAILER
    200,NEM1201009,E1,1,E1,N1,01009,kWh,30,
    300,20240101,1.5 ..,V,,,,
    400,1,20,F14,,
    400,20,48,A,,

What to do: begin each run after the last interval of the one above it.

## L8: The 400 records of a day leave an interval out

The 400 records of a day of quality V must cover every interval. The fault is reported on the line
after them.

Usual causes: a lost 400 record; a last run that ends too early.

Example, for which `check` prints `L8 line 5`:

    100,NEM12,202401030000,MDP1,RETAILER
    200,NEM1201009,E1,1,E1,N1,01009,kWh,30,
    300,20240101,1.5 ..,V,,,,
    400,1,20,F14,,
    900

What to do: add a 400 record for the intervals that are missing, here 21 to 48.

## L9: The file has no end

The last line that isn't empty isn't a 900 record, or the file has no lines. The fault is reported
on the line after the last one.

Usual causes: a file that was cut off in transfer; an empty file; a missing 900 record.

Example, for which `check` prints `L9 line 2`:

    100,NEM12,202401030000,MDP1,RETAILER

Example, for which `check --kind nem13` prints `L9 line 3`:

    100,NEM13,202401030000,MDP1,RETAILER
    250,1234567890,1141,01,11,11,METSER66,E,21.2,20231001103230,A,,,534.5,20240101100030,E64,77,,513.3,kWh

What to do: ask for the file to be sent again. Don't add a 900 to a file that may lack records.

## L10: The line is too long, or the file has too many lines

The line has more than 16,384 bytes, or its number is above 1,000,000.

Usual causes: a file without line feeds; many files joined into one.

Example: a line of 16,385 letters. `check` prints `L10 line 1`.

What to do: split the file into several, each with its own 100 and 900.

## L11: The file is of the other kind

The 100 says NEM13 when a NEM12 file is expected, or the other way round.

Usual causes: `--kind nem13` was forgotten, or was given for a NEM12 file.

Example, for which `check` prints `L11 line 1`:

    100,NEM13,202401030000,MDP1,RETAILER
    900

Example, for which `check --kind nem13` prints `L11 line 1`:

    100,NEM12,202401030000,MDP1,RETAILER
    900

What to do: use `--kind nem13` for accumulations. Leave it out for interval data.

## L12: An interval of the 400 record has no value

The record gives a quality other than N to an interval whose value is empty.

Usual causes: an interval without a reading was marked as substituted before it was filled in.

Example, for which `check` prints `L12 line 4`:

    100,NEM12,202401030000,MDP1,RETAILER
    200,NEM1201009,E1,1,E1,N1,01009,kWh,30,
    300,20240101,,1.5 ..,V,,,,
    400,1,48,A,,

What to do: give the interval without a value quality N, or put its value in.

## M1: The day has another interval length

Under one update a day has one interval length. The store has this day under this update with
another length. The whole file or job is refused. A file is also refused if it states a day twice
under one update, with two lengths. A job is also refused if its length isn't the day's current one.

Usual causes: a file was made again in 5 minutes under the old update; a job has the wrong `length`.

Example: a file states 20240101 of NEM1201009 E1 with 48 values, updated 20240102010203. Line 3 of
another file states it with 288 values and the same update. `import` prints `M1 line 3`.

What to do: send the day in its new length under an update of its own. The latest update decides
which length is current, and `mdstore day` shows it. Write the job for that length.

## M2: The day has another unit

The store has this day of the stream with another unit. The whole file or job is refused.

Usual causes: kWh in one file and Wh in another; a job with the wrong `unit`.

Example: a file states 20240101 of NEM1201009 E1 in kWh. Line 3 of another file states it in MWh.
`import` prints `M2 line 3`.

What to do: send the day in the unit that the store has, with its values converted.

## M3: The same update has another reading

The interval already has a reading under this update, and the file states a different one. The
value, the quality and the reason count. In a NEM13 file it is an accumulation with other content.
The code then comes without an interval.

Usual causes: a correction with the UpdateDateTime of what it corrects; a day that comes twice in
one file. A 300 without an UpdateDateTime has the moment of the 100.

Example: a file states 1.5 in interval 7, updated 20240102010203. Line 3 of another file states 9
there, with the same update. `import` prints `M3 line 3 interval 7`.

What to do: send the correction with a later UpdateDateTime. `mdstore versions` shows what is kept.

## M4: Another job has this id

A job with this id was done before, and it isn't the same job. A store keeps each job for good.

Usual causes: ids that start from 1 again; a job that was changed and sent again.

Example: `substitute` does job J1 with method 15. Then it gets J1 with method 19, and prints `M4`.

What to do: give the new job an id of its own. If exactly the same job comes again, the answer is
`known`.

## M5: An interval has an actual or final reading

A job doesn't replace a current reading of quality A or F. The first such interval is named.

Usual causes: a job for the wrong day or interval; readings that came after the job was written.

Example: interval 5 is A. A job for intervals 4 to 8 prints `M5 interval 5`.

What to do: leave these intervals out of the job, or send a corrected file with a later update.

## M6: An interval has a version that isn't older

The `update` of a job has to be later than all versions of its intervals in the day's current
length. The first interval with a version that isn't older is named.

Usual causes: two jobs for one day with the same `update`; a clock that is behind.

Example: interval 5 has a version updated 20240109000000. A job with the same `update` prints
`M6 interval 5`.

What to do: send the job with a later `update`. `mdstore versions` shows the versions.

## M7: No like day has values

Methods 14 and 15 take values from like days. These are the days 7, 14, 21 and 28 days before,
without holidays. The like days of a listed holiday are the four Sundays before it. Method 14 needs
one like day that has a value for all intervals of the job. Method 15 needs a like day with a value
for each interval. Only values of quality A or F count, on days of the job's length and unit.

Usual causes: a new meter; four weeks of estimates; a wrong `unit` in the job.

Example: the store has nothing for the four weeks before. A job with method 14 prints `M7`.

What to do: import the days before, or send a job with method 17 or 19.

## M8: The line is too long

Method 17 draws a line over at most 120 minutes: 24 intervals of 5, 8 of 15 or 4 of 30 minutes.

Usual causes: a long outage; a job written for another interval length.

Example: a job with method 17 for intervals 1 to 5 of 30 minutes prints `M8`.

What to do: for so many intervals, send a job with method 14 or 15.

## M9: A neighbour of the line has no value

Method 17 needs a value of quality A or F in the interval before those of the job, and in the one
after. They may be on the day before or the day after. Those days must have the job's length and
unit.

Usual causes: the gap is wider than the job; the day before or after isn't known yet.

Example: a job with method 17 for intervals 5 to 6 prints `M9` if interval 4 is N.

What to do: fill the whole gap with one job, import the other day, or use another method.

## M10: The day isn't known, or has no such interval

The store has nothing for this day of the stream. Or the interval's number is past the end of the
day in every length that the day has.

Usual causes: a wrong date or suffix; a file that wasn't imported; interval 49 of 30 minutes.

Example: only 20240101 was imported. `mdstore day` for 20240102 prints `M10`.

What to do: list the known streams with `mdstore streams`, and the missing days with `mdstore gaps`.

## M11: No store can do this job

The method isn't one of 14, 15, 17 and 19, or the flag isn't one of E, F and S. Or the intervals end
before they begin, or go past the end of the day. The first interval is 1.

Usual causes: `first` is 0 or greater than `last`; an interval past the end of the day; flag `A`.

Example: a job with `"first":47`, `"last":49` and `"length":30` prints `M11`.

What to do: correct the job. `docs/FORMATS.md`, "Substitution jobs", says what a job may have.

## M12: The request asks for too much

A range has more than 400 days, or an export has more than eight different suffixes.

Usual causes: gaps, readings or exports of several years in one request.

Example: `mdstore gaps` from 20240101 to 20250204 asks for 401 days, and prints `M12`.

What to do: ask for one year at a time, and for at most eight suffixes at a time.

## H1: The row doesn't belong in a list of holidays

A list of holidays is CSV. Its first row is `date`, and each other row is a day such as 20240126.
The first row that differs is named, counted from 1. A file without rows is H1 line 1.

Usual causes: a missing header row; a day such as 2024-01-26; a second column.

Example: the rows `date` and `20240230`. `holidays` prints `H1 line 2`.

What to do: correct the row, and import the list again. Nothing of it was imported.

## bad job: The file isn't a substitution job

A job is one JSON object with exactly the keys of `docs/FORMATS.md`, "Substitution jobs". Each value
has the form that is shown there.

Usual causes: a missing or unknown key; a number in quotation marks; a day such as 2024-01-08.

Example: `{"id":"J1"}` prints `bad job`.

What to do: compare the keys and values with `docs/FORMATS.md`, "Substitution jobs".

## bad argument: An argument has the wrong form

The named argument is the first one of the query that has the wrong form. The store wasn't opened.

Usual causes: lower case letters in an NMI or a suffix; a day such as 2024-01-01; arguments in the
wrong order.

Example: `mdstore day --store week.db NEM1201009 e1 20240101` prints `bad argument SUFFIX`.

What to do: `mdstore COMMAND --help` shows the arguments of a command and their forms.

## a word is not UTF-8: A word on the command line isn't UTF-8

File names and all other words have to be UTF-8.

Usual causes: a file name in another character set.

Example: `mdstore check` with a name that has the byte FF.

What to do: rename the file, or pass it on standard input: `mdstore check - < FILE`.

## cannot read file: The file can't be opened or read

The file changed nothing in a store.

Usual causes: a wrong path; a folder instead of a file; no permission to read it; a failing disk.

Example: `mdstore check none.nem12` when there is no such file.

What to do: check the path and the permissions, for example with `ls -l FILE`.

## cannot listen: The port can't be used

`serve` can't listen on the port at 127.0.0.1. A running `serve` also ends with this code if it can
accept no connection for ten seconds.

Usual causes: another process uses the port, such as an earlier `serve`; the port is below 1024 and
the user may not use it.

Example: a second `mdstore serve` with the same `--port`.

What to do: end the other process, or use another port. Restart a `serve` that has ended.

## U1: The store can't be used now

The store couldn't be opened, created, read or written. Its contents are as they were before the
request. If the disk failed, they may have the whole request instead.

Usual causes:

- Another process uses the store: `mdstore serve`, another command or `sqlite3`.
- The path is wrong, the file is damaged, or it isn't a database.
- Another program wrote to a store with sums, or wrote a row that mdstore never writes.
- `sqlite3` was killed and left its journal next to the file.
- A hard link gave the file a second name.
- The disk is full, memory ran out, or there is no permission to write.

Example: `mdstore streams --store week.db` while `mdstore serve --store week.db` runs.

What to do: end the other process, check the path, the permissions and the disk, and try again. If
the disk failed under a `serve`, restart it. To make a new store, use `mdstore init`. To replace a
damaged store, restore a backup: `docs/USE.md`, "Backups". For a store with sums see "Sums" there.

## U2: The store has an earlier schema

The file is a store of an earlier schema than this version of mdstore uses. Nothing was changed.
`mdstore --version` prints the schema.

Usual causes: an earlier version of mdstore made the store, or a backup of it was restored.

Example: `mdstore streams --store week.db` if an earlier version of mdstore made `week.db`.

What to do: stop everything that uses the store, copy it, and call `mdstore migrate --store PATH`.
If that prints `U1`, remove the cause and call it again. What a migration keeps and what it needs is
in `docs/USE.md`, "Stores of an earlier build".

## U3: The database isn't a store of this schema

The file is another database, a store of a newer schema, or a store to which something was added.
`mdstore --version` prints the schema.

`init` prints it if the database isn't empty, or if a log is there without its file. `init --sums`
also prints it if the file was made without sums.

Usual causes:

- The path is wrong, or `init` was called for a store that exists.
- The file has no bytes. Only `init` accepts such a file.
- Another program made an index, a view or a table in the store, or rows in `mds_version` or
  `mds_detail`.

Example: `mdstore init --store week.db` when `week.db` is a store already.

What to do: check the path. Remove what was added: `docs/USE.md`, "What other programs do to it".
"#;

/// The section of a text under the heading that begins with a name, in letters of either case. It comes without the number signs
/// of its heading.
pub fn section_of<'a>(text: &'a str, name: &str) -> Option<&'a str>
    ensures { option_map (λ section. section.now) result ≡ section_of name.now text.now }
{
    // decides: what does a printed code mean (`EXPLANATIONS`)?
    text.split('#').find(|section| is_named(section, name))
}

/// Whether the heading of a section begins with a name.
fn is_named(section: &str, name: &str) -> bool
    ensures { result ≡ is_named name.now section.now }
{
    name_of(section).eq_ignore_ascii_case(name)
}

/// What the heading of a section begins with, up to its colon.
fn name_of(section: &str) -> &str
    ensures { result.now ≡ name_of section.now }
{
    match section.split_once(':') {
        Some((name, _)) => name.trim_start(),
        None => section.trim_start(),
    }
}
