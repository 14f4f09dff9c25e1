//! What is done with a database, or with a keeper in memory, step by step. The outcomes are printed. It is written over any store of
//! the library, so that its proof doesn't load what the library says of files.

use crate::lists::{Runs, run_lists};
use crate::pieces::next_file;
use crate::talks::print_talk;
use mds_http::{StoreHandler, serve_one};
use mds_keeper::Keeper;
use mds_lines::Counted;
use mds_memory::MemoryKeeper;
use mds_migrate::{MigrateFault, Migrated, migrate};
use mds_store::{PackKeeper, StoreFault, adopt, create};
use mds_wire::RouteFinder;
use sqlite::{Alter, Connection};
use std::io;
use std::io::Write;

/// The steps: a store is made or adopted, or an SQL text is run. Any other step is a migration.
const CREATE: u8 = b'c';

const ADOPT: u8 = b'a';

const EXECUTE: u8 = b'e';

/// A store is adopted for lists of requests, or for a request over a limited reader and writer.
const RUN: u8 = b'r';

const TALK: u8 = b't';

/// Does the steps of a list with a keeper in memory, for which making and adopting a store are the same.
pub fn do_in_memory<F: RouteFinder>(rt: &HostRuntime, routes: &F, steps: &[u8]) {
    let mut keeper = MemoryKeeper::new(rt.alloc());
    let mut left = steps;
    for _ in 0..u64::MAX {
        let Some((step, others)) = next_file(left) else {
            break;
        };
        if let [word, given @ ..] = step {
            keeper = use_keeper(rt, routes, keeper, *word, given);
        }
        left = others;
    }
}

/// Does the steps of a list with a database. A step is a byte, and a list of requests for the store that is there then, or the text.
pub fn do_steps<F: RouteFinder, S: Alter>(
    rt: &HostRuntime,
    routes: &F,
    conn: Connection<S>,
    steps: &[u8],
) -> Connection<S> {
    let mut conn = conn;
    let mut left = steps;
    for _ in 0..u64::MAX {
        let Some((step, others)) = next_file(left) else {
            break;
        };
        conn = do_step(rt, routes, conn, step);
        left = others;
    }
    conn
}

fn do_step<F: RouteFinder, S: Alter>(
    rt: &HostRuntime,
    routes: &F,
    conn: Connection<S>,
    step: &[u8],
) -> Connection<S> {
    let [word, given @ ..] = step else {
        return conn;
    };
    let alloc = rt.alloc();
    match *word {
        CREATE => in_store(rt, routes, create(alloc, conn), *word, given),
        ADOPT | RUN | TALK => in_store(rt, routes, adopt(alloc, conn), *word, given),
        EXECUTE => executed(rt, conn, given),
        _ => migrated(rt, conn),
    }
}

/// Uses a store, if there is one.
fn in_store<F: RouteFinder, S: Alter>(
    rt: &HostRuntime,
    routes: &F,
    had: Result<PackKeeper<S>, (StoreFault, Connection<S>)>,
    word: u8,
    given: &[u8],
) -> Connection<S> {
    match had {
        Ok(keeper) => use_keeper(rt, routes, keeper, word, given).into_connection(),
        Err((fault, conn)) => {
            tell(rt, code_of(fault));
            conn
        }
    }
}

/// Why there is no store.
fn code_of(fault: StoreFault) -> &'static [u8] {
    match fault {
        StoreFault::InTransaction | StoreFault::Unavailable(_) => b"U1\n",
        StoreFault::EarlierSchema => b"U2\n",
        StoreFault::OtherSchema => b"U3\n",
    }
}

/// Runs the statements of a text.
fn executed<S: Alter>(rt: &HostRuntime, conn: Connection<S>, text: &[u8]) -> Connection<S> {
    let mut conn = conn;
    let has_run = match str::from_utf8(text) {
        Ok(sql) => conn.execute_batch(sql).is_ok(),
        Err(_) => false,
    };
    tell(rt, word_of(has_run));
    conn
}

/// The outcome of an SQL text.
fn word_of(has_run: bool) -> &'static [u8] {
    if has_run { b"done\n" } else { b"U1\n" }
}

fn migrated<S: Alter>(rt: &HostRuntime, conn: Connection<S>) -> Connection<S> {
    let mut conn = conn;
    let outcome = migrate(rt.alloc(), &mut conn);
    tell(rt, text_of(outcome));
    conn
}

/// The outcome of a migration.
fn text_of(outcome: Result<Migrated, MigrateFault>) -> &'static [u8] {
    match outcome {
        Ok(Migrated::Done) => b"done\n",
        Ok(Migrated::AlreadyCurrent) => b"already current\n",
        Err(MigrateFault::Unavailable) => b"U1\n",
        Err(MigrateFault::OtherSchema) => b"U3\n",
    }
}

/// Does with a keeper what a step says: runs lists, serves one limited request, or serves requests.
fn use_keeper<F: RouteFinder, K: Keeper + Runs>(
    rt: &HostRuntime,
    routes: &F,
    keeper: K,
    word: u8,
    given: &[u8],
) -> K {
    tell(rt, b"done\n");
    let mut handler = StoreHandler { keeper };
    match word {
        RUN => end_step(rt, run_lists(rt, routes, &mut handler.keeper, given)),
        TALK => end_step(rt, print_talk(rt, routes, &mut handler, given)),
        _ => serve_all(rt, routes, &mut handler, given),
    }
    handler.keeper
}

fn end_step(rt: &HostRuntime, told: io::Result<()>) {
    if told.is_err() {
        tell(rt, b"no answer\n");
    }
}

/// Serves the requests of a list. Each answer is printed as it goes over HTTP.
fn serve_all<F: RouteFinder, K: Keeper>(
    rt: &HostRuntime,
    routes: &F,
    handler: &mut StoreHandler<K>,
    requests: &[u8],
) {
    let mut left = requests;
    for _ in 0..u64::MAX {
        let Some((request, others)) = next_file(left) else {
            break;
        };
        serve_request(rt, routes, handler, request);
        left = others;
    }
}

fn serve_request<F: RouteFinder, K: Keeper>(
    rt: &HostRuntime,
    routes: &F,
    handler: &mut StoreHandler<K>,
    request: &[u8],
) {
    let mut reader = Counted::new(request);
    let mut writer = Counted::new(io::writer(rt));
    if serve_one(rt.alloc(), routes, handler, &mut reader, &mut writer).is_err() {
        tell(rt, b"no answer\n");
    }
}

/// Prints a text. If that fails, anyone who reads the output sees that something is missing.
pub fn tell(rt: &HostRuntime, text: &[u8]) {
    let _ = io::writer(rt).write_all(text);
}
