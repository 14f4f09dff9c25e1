//! A request over a limited reader and a limited writer.

use crate::limited::{Limit, Limited};
use crate::pieces::next_file;
use mds_http::{StoreHandler, serve_one};
use mds_keeper::Keeper;
use mds_lines::Counted;
use mds_wire::{RouteFinder, Status, WireFault};
use std::alloc::Global;
use std::io;
use std::io::Write;

/// A request with the limits of its reader and its writer, and the bytes that were written.
#[derive(Drop)]
struct Talk<'a> {
    reads: Limit,
    writes: Limit,
    request: &'a [u8],
}

impl<'a> Talk<'a> {
    /// The two limits, and the request as it goes over HTTP.
    fn read(given: &'a [u8]) -> Option<Talk<'a>> {
        let (reads, behind) = Limit::read(given)?;
        let (writes, behind) = Limit::read(behind)?;
        let (request, _) = next_file(behind)?;
        Some(Talk {
            reads,
            writes,
            request,
        })
    }
}

/// Serves a request, and prints the outcome. A line has a word, how many calls of the reader and of the writer failed, and how many bytes
/// were written. These bytes follow it.
pub fn print_talk<F: RouteFinder, K: Keeper>(
    rt: &HostRuntime,
    routes: &F,
    handler: &mut StoreHandler<K>,
    given: &[u8],
) -> io::Result<()> {
    let Some(talk) = Talk::read(given) else {
        return println!(rt; "no talk");
    };
    let mut out = Vec::new(rt.alloc());
    let (told, reads, writes) = served(rt.alloc(), routes, handler, &talk, &mut out);
    println!(rt; "{} {reads} {writes} {}", word_of(told), out.len())?;
    io::writer(rt).write_all(&out)
}

/// The outcome of serving it, and how many calls failed.
fn served<F: RouteFinder, K: Keeper>(
    alloc: Global,
    routes: &F,
    handler: &mut StoreHandler<K>,
    talk: &Talk<'_>,
    out: &mut Vec<u8>,
) -> (Result<Status, WireFault>, u64, u64) {
    let mut reader = Counted::new(Limited {
        inner: talk.request,
        limit: talk.reads,
    });
    let mut writer = Counted::new(Limited {
        inner: out,
        limit: talk.writes,
    });
    let told = serve_one(alloc, routes, handler, &mut reader, &mut writer);
    (told, reader.failures(), writer.failures())
}

fn word_of(told: Result<Status, WireFault>) -> &'static str {
    match told {
        Ok(_) => "answered",
        Err(WireFault::Read) => "read",
        Err(WireFault::Closed) => "closed",
        Err(WireFault::Write) => "write",
        Err(WireFault::Memory) => "memory",
    }
}
