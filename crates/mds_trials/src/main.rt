//! Tries the libraries without a store in a file: over a keeper in memory, and over a store whose files are in memory. Scripts in `tests/` and
//! `bench/run` call it. It decides nothing, and no crate uses it.
//! Must not change: the words, the lines that it prints, and the call between the two marks in `call_of_the_readme`, which README shows.
//!
//! Without words it makes that call, and prints the answers. `mds_trials serve PORT COUNT` serves COUNT connections to a port of 127.0.0.1 from an
//! empty keeper, one after the other, and ends.
//!
//! Three words measure, over the keeper in memory. `mds_trials deliver PATH` reads all that a NEM12 file states. `mds_trials imports PATH` imports
//! the file into an empty keeper, and then again. `mds_trials exports PATH FROM TO` imports it and exports each of its streams in that range.
//!
//! `mds_trials applies PATH` reads a NEM12 file once and applies what it states twice. Then it imports the file itself, in two pieces and whole.
//!
//! Two words compare NEM12 files in pieces with the same files in one. `PATH` has a list of files, each after its length in four bytes.
//! `mds_trials cuts PATH` cuts each in two, at each of its bytes in turn, and then at all of them. `mds_trials pieces PATH SEED` cuts each once, in
//! pieces that seem random.
//!
//! `mds_trials stops PATH FILES MANNER` stops the files of a store in memory, at each of their calls in turn. `PATH` has what is done with the store
//! (tests/stops). `log`, `database` or `both` stop. The manner is `each`, `narrow` for a store that keeps little in memory and in its log, or
//! `sample` for only some calls.
//!
//! `mds_trials keepers PATH` does what `PATH` says with a keeper in memory, and with a store whose files are in memory (tests/keepers).
//! `mds_trials lines PATH` prints the lines of files, from readers that are slow or fail (tests/pieces).
#![tactic(auto)]

mod answers;
mod limited;
mod lines;
mod lists;
mod outcomes;
mod pieces;
mod steps;
mod stops;
mod talks;

use crate::answers::print_answer;
use crate::lines::print_lines;
use crate::pieces::{Cutter, hold_files};
use crate::stops::{do_plans, stop_in_turn};
use mds::records::FileKind;
use mds::service::{Answer, Request, apply, run};
use mds::terms::{Day, Stream};
use mds::versions::MemoryKeeper;
use mds_arguments::{ExportArguments, export_request};
use mds_http::{Ended, Log, StoreHandler, serve_connections};
use mds_laws::a_file_comes_in_pieces;
use mds_nem12::read_nem12;
use mds_service::apply_delivery;
use mds_wire::Routes;
use std::alloc::{AllocError, Global};
use std::process::ExitCode;
use std::time::Instant;
use std::{env, fs, io};

fn main(rt: HostRuntime) -> ExitCode {
    match run_words(&rt) {
        Ok(true) => ExitCode::from(0),
        Ok(false) => ExitCode::from(2),
        Err(_) => ExitCode::from(3),
    }
}

/// Does what the words say. Returns whether it understood them, and found no difference.
fn run_words(rt: &HostRuntime) -> io::Result<bool> {
    let words: Vec<String> = env::args(rt)?.skip(1).collect(rt.alloc())?;
    match words.as_slice() {
        [] => call_of_the_readme(rt),
        [what, path] if what.as_str() == "deliver" => time_delivery(rt, path.as_str()),
        [what, path] if what.as_str() == "imports" => time_imports(rt, path.as_str()),
        [what, path] if what.as_str() == "applies" => apply_twice(rt, path.as_str()),
        [what, path] if what.as_str() == "keepers" => do_plans(rt, path.as_str()),
        [what, path] if what.as_str() == "lines" => print_lines(rt, path.as_str()),
        [what, path] if what.as_str() == "cuts" => hold_files(rt, path.as_str(), Cutter::AtBytes),
        [what, path, seed] if what.as_str() == "pieces" => {
            hold_made_pieces(rt, path.as_str(), seed.as_str())
        }
        [what, path, files, manner] if what.as_str() == "stops" => {
            stop_in_turn(rt, path.as_str(), files.as_str(), manner.as_str())
        }
        [what, port, count] if what.as_str() == "serve" => serve(rt, port.as_str(), count.as_str()),
        [what, path, from, to] if what.as_str() == "exports" => {
            time_exports(rt, path.as_str(), from.as_str(), to.as_str())
        }
        _ => usage(rt),
    }
}

fn usage(rt: &HostRuntime) -> io::Result<bool> {
    println!(rt;
        "usage: mds_trials [serve PORT COUNT | deliver PATH | imports PATH | exports PATH FROM TO | applies PATH | cuts PATH | pieces PATH SEED | stops PATH FILES MANNER | keepers PATH | lines PATH]"
    )?;
    Ok(false)
}

/// Makes the call that README shows. It is between two marks, by which tests/program compares the two.
fn call_of_the_readme(rt: &HostRuntime) -> io::Result<bool> {
    let alloc = rt.alloc();
    let (Some(stream), Some(day)) = (Stream::read(b"NEM1201009", b"E1"), Day::read(b"20240101"))
    else {
        return Ok(false);
    };
    let bytes = file_of_a_day(alloc, &stream)?;
    // README begins.
    let mut keeper = MemoryKeeper::new(alloc);
    let requests = [
        Request::Import {
            kind: FileKind::Nem12,
            bytes,
        },
        Request::Day { stream, day },
        Request::Versions {
            stream,
            day,
            interval: 7,
        },
    ];
    let answers = run(alloc, &mut keeper, &requests)?;
    // README ends.
    for answer in &answers {
        print_answer(rt, answer)?;
    }
    Ok(true)
}

/// The bytes of a NEM12 file of a day of 48 readings of a stream.
fn file_of_a_day(alloc: Global, stream: &Stream) -> Result<Vec<u8>, AllocError> {
    let mut file = Vec::new(alloc);
    file.extend_from_slice(b"100,NEM12,202401030000,MDP1,RETAILER\n200,")?;
    file.extend_from_slice(stream.nmi.text().as_bytes())?;
    file.extend_from_slice(b",E1,1,E1,N1,01009,kWh,30,\n300,20240101")?;
    for _ in 0..48 {
        file.extend_from_slice(b",1.5")?;
    }
    file.extend_from_slice(b",A,,,20240102010203,\n900\n")?;
    Ok(file)
}

/// Applies what a NEM12 file states to an empty keeper, and once more. Then it imports the file itself, in two pieces and whole. Prints the four
/// answers.
fn apply_twice(rt: &HostRuntime, path: &str) -> io::Result<bool> {
    let bytes = fs::read(rt, path)?;
    let Ok(delivery) = read_nem12(rt.alloc(), &bytes) else {
        return Ok(false);
    };
    let mut keeper = MemoryKeeper::new(rt.alloc());
    for _ in 0..2 {
        print_answer(rt, &apply_delivery(rt.alloc(), &mut keeper, &delivery))?;
    }
    let (front, rest) = bytes.split_at(bytes.len() / 2);
    print_answer(
        rt,
        &a_file_comes_in_pieces(rt.alloc(), &mut keeper, &[front, rest]),
    )?;
    let request = Request::Import {
        kind: FileKind::Nem12,
        bytes,
    };
    print_answer(rt, &apply(rt.alloc(), &mut keeper, &request))?;
    Ok(true)
}

/// Serves a count of connections to a port, one after the other, from an empty keeper in memory.
fn serve(rt: &HostRuntime, port: &str, count: &str) -> io::Result<bool> {
    let (Ok(port), Ok(count)) = (port.parse::<u16>(), count.parse::<u32>()) else {
        return usage(rt);
    };
    let routes = Routes::new(rt.alloc())?;
    let mut handler = StoreHandler {
        keeper: MemoryKeeper::new(rt.alloc()),
    };
    let ended = serve_connections(rt, &routes, &mut handler, port, count, Log::Nowhere);
    Ok(ended == Ended::Counted)
}

/// Reads all that a file states, and prints how fast.
fn time_delivery(rt: &HostRuntime, path: &str) -> io::Result<bool> {
    let text = fs::read(rt, path)?;
    let start = Instant::now(rt)?;
    let days = days_in(rt.alloc(), &text);
    let micros = start.elapsed(rt)?.as_micros();
    println!(rt;
        "read_nem12: {} MB/s ({days} days)",
        text.len() as u128 / micros.max(1)
    )?;
    Ok(true)
}

/// How many days a file states, or 0 if it isn't well formed.
fn days_in(alloc: Global, text: &[u8]) -> u64 {
    let mut days = 0u64;
    if let Ok(delivery) = read_nem12(alloc, text) {
        for block in &delivery.blocks {
            days = days.wrapping_add(block.days.len() as u64);
        }
    }
    days
}

/// Reads a file, imports it into an empty keeper, and imports it again. Each time it prints the time for one of its days.
fn time_imports(rt: &HostRuntime, path: &str) -> io::Result<bool> {
    let bytes = fs::read(rt, path)?;
    let start = Instant::now(rt)?;
    let days = days_in(rt.alloc(), &bytes);
    let time = start.elapsed(rt)?.as_nanos() / u128::from(days.max(1));
    println!(rt; "read_nem12 of {days} days: {time} ns a day")?;
    let request = Request::Import {
        kind: FileKind::Nem12,
        bytes,
    };
    let mut keeper = MemoryKeeper::new(rt.alloc());
    time_import(rt, &mut keeper, &request, days, "into an empty store")?;
    time_import(rt, &mut keeper, &request, days, "the same again")?;
    Ok(true)
}

/// Imports a file, and prints the time for one of its days.
fn time_import(
    rt: &HostRuntime,
    keeper: &mut MemoryKeeper,
    request: &Request,
    days: u64,
    what: &str,
) -> io::Result<()> {
    let start = Instant::now(rt)?;
    let answer = apply(rt.alloc(), keeper, request);
    let time = start.elapsed(rt)?.as_nanos() / u128::from(days.max(1));
    print!(rt; "  {what}: {time} ns a day ")?;
    print_answer(rt, &answer)
}

/// Imports a file, exports each of its streams in a range of days, and prints how fast.
fn time_exports(rt: &HostRuntime, path: &str, from: &str, to: &str) -> io::Result<bool> {
    let mut keeper = MemoryKeeper::new(rt.alloc());
    let request = Request::Import {
        kind: FileKind::Nem12,
        bytes: fs::read(rt, path)?,
    };
    apply(rt.alloc(), &mut keeper, &request);
    let Answer::Streams(streams) = apply(rt.alloc(), &mut keeper, &Request::Streams) else {
        return Ok(false);
    };
    let (mut bytes, mut time) = (0u128, 0u128);
    for known in &streams {
        let Some(request) = export_of(rt.alloc(), &known.stream, from, to)? else {
            return usage(rt);
        };
        let start = Instant::now(rt)?;
        let answer = apply(rt.alloc(), &mut keeper, &request);
        time = time.wrapping_add(start.elapsed(rt)?.as_micros());
        bytes = bytes.wrapping_add(size_of_export(&answer));
    }
    println!(rt;
        "export of {} streams: {} MB/s ({bytes} bytes)",
        streams.len(),
        bytes / time.max(1)
    )?;
    Ok(true)
}

/// The request to export a stream in a range of days.
fn export_of<'a>(
    alloc: Global,
    stream: &'a Stream,
    from: &'a str,
    to: &'a str,
) -> Result<Option<Request>, AllocError> {
    let mut suffixes = Vec::new(alloc);
    suffixes.push(stream.suffix.text().as_bytes())?;
    let arguments = ExportArguments {
        nmi: stream.nmi.text().as_bytes(),
        from: from.as_bytes(),
        to: to.as_bytes(),
        moment: b"20240104000000",
        sender: b"MDP1",
        receiver: b"RETAILER",
        suffixes,
    };
    Ok(export_request(alloc, &arguments).ok())
}

/// How many bytes an export has, or 0 if it was refused.
fn size_of_export(answer: &Answer) -> u128 {
    match answer {
        Answer::Exported(text) => text.len() as u128,
        _ => 0,
    }
}

/// Compares the files of a list, in made pieces, with the same files in one piece.
fn hold_made_pieces(rt: &HostRuntime, path: &str, seed: &str) -> io::Result<bool> {
    match seed.parse::<u64>() {
        Ok(seed) => hold_files(rt, path, Cutter::Made(seed)),
        Err(_) => usage(rt),
    }
}
