//! A store in two files in memory. One or both stop at a call, at each in turn. What is left of them is opened again.

use crate::pieces::next_file;
use crate::steps::{do_in_memory, do_steps, tell};
use mds_wire::{RouteFinder, Routes};
use sqlite::{Connection, FileStore, Files, Options};
use sqlite_disk::{Crash, Disk, Fuse, Memory};
use std::alloc::Global;
use std::{fs, io};

/// A file that answers a limited number of calls. Each further call fails, and changes nothing.
type Stopping = Fuse<Memory>;

/// Any number makes salts for the log.
const SEED: u64 = 7;

/// How few pages a narrow store keeps in memory, and how few the log has before they are copied.
const NARROW_PAGES: usize = 4;

const NARROW_FRAMES: usize = 16;

/// A sample has each of the first calls, and then one of every few.
const FIRST_CALLS: u64 = 60;

const SAMPLE: u64 = 7;

/// Which files stop.
#[derive(Clone, Copy)]
struct Disks {
    log_stops: bool,
    database_stops: bool,
    /// Whether the store keeps few pages in memory and in the log. Then requests read and write the database file too, and write to the log
    /// before they are whole.
    is_narrow: bool,
    /// Whether files stop at only some of their calls.
    is_sample: bool,
}

impl Disks {
    /// Those that words name: `log`, `database` or `both`, and `each`, `narrow` or `sample`.
    fn read(stopping: &str, manner: &str) -> Disks {
        Disks {
            log_stops: stopping != "database",
            database_stops: stopping != "log",
            is_narrow: manner == "narrow",
            is_sample: manner == "sample",
        }
    }

    /// How many calls the stopping files answer in the run with a number. A sample has all numbers up to the first calls, and then some.
    fn calls(self, number: u64) -> u64 {
        if self.is_sample && number > FIRST_CALLS {
            number
                .saturating_sub(FIRST_CALLS)
                .saturating_mul(SAMPLE)
                .saturating_add(FIRST_CALLS)
        } else {
            number
        }
    }

    fn options(self) -> Options {
        let mut options = Options::new(SEED);
        if self.is_narrow {
            options.cache_pages = NARROW_PAGES;
            options.spill_pages = NARROW_PAGES;
            options.checkpoint_frames = NARROW_FRAMES;
        }
        options
    }
}

/// How many calls a file answers.
fn calls_of(stops: bool, calls: u64) -> u64 {
    if stops { calls } else { u64::MAX }
}

/// Does what a plan says with files that stop at their first call, then at their second one, and so on. The last run ends before they stop.
/// A plan has three lists of steps. They are done before files stop, while they stop, and with all that they may leave. All outcomes are
/// printed.
pub fn stop_in_turn(
    rt: &HostRuntime,
    path: &str,
    stopping: &str,
    manner: &str,
) -> io::Result<bool> {
    let plan = fs::read(rt, path)?;
    let routes = Routes::new(rt.alloc())?;
    follow(rt, &routes, &plan, Disks::read(stopping, manner));
    Ok(true)
}

fn follow<F: RouteFinder>(rt: &HostRuntime, routes: &F, plan: &[u8], disks: Disks) {
    let Some((before, others)) = next_file(plan) else {
        return;
    };
    let Some((during, after)) = next_file(others) else {
        return;
    };
    let made = in_new_files(rt, routes, disks.options(), before);
    for number in 0..u64::MAX {
        tell(rt, b"stop\n");
        let calls = disks.calls(number);
        let files = Files {
            log: stopping(
                rt.alloc(),
                made.log.inner().bytes(),
                calls_of(disks.log_stops, calls),
            ),
            db: stopping(
                rt.alloc(),
                made.db.inner().bytes(),
                calls_of(disks.database_stops, calls),
            ),
        };
        let mut files = in_files(rt, routes, disks.options(), files, during);
        let has_ended = !has_stopped(&mut files.log) && !has_stopped(&mut files.db);
        look_at(rt, routes, disks.options(), files, after);
        if has_ended {
            break;
        }
    }
}

/// Does plans one by one. A plan is a list of steps. Each is done with a keeper in memory, and with a new database, whose files are in
/// memory.
pub fn do_plans(rt: &HostRuntime, path: &str) -> io::Result<bool> {
    let plans = fs::read(rt, path)?;
    let routes = Routes::new(rt.alloc())?;
    do_each(rt, &routes, &plans);
    Ok(true)
}

fn do_each<F: RouteFinder>(rt: &HostRuntime, routes: &F, plans: &[u8]) {
    let mut left = plans;
    for _ in 0..u64::MAX {
        let Some((steps, others)) = next_file(left) else {
            break;
        };
        do_in_memory(rt, routes, steps);
        in_new_files(rt, routes, Options::new(SEED), steps);
        left = others;
    }
}

/// Does steps with a new database, whose files don't stop.
fn in_new_files<F: RouteFinder>(
    rt: &HostRuntime,
    routes: &F,
    options: Options,
    steps: &[u8],
) -> Files<Stopping> {
    let files = Files {
        log: stopping(rt.alloc(), &[], u64::MAX),
        db: stopping(rt.alloc(), &[], u64::MAX),
    };
    in_files(rt, routes, options, files, steps)
}

/// A file that has these bytes for good. If memory runs out it has none, and the output shows that.
fn stopping(alloc: Global, bytes: &[u8], calls: u64) -> Stopping {
    let mut file = Memory::new(alloc);
    let _ = file.write_at(0, bytes);
    let _ = file.sync();
    Fuse::new(file, calls)
}

/// Whether a file has stopped, so that it fails another call.
fn has_stopped<D: Disk>(file: &mut D) -> bool {
    !file.may_be_used() || file.len().is_err()
}

/// Opens the database of two files, does steps with it, closes it, and returns the files.
fn in_files<F: RouteFinder, D: Disk + Drop>(
    rt: &HostRuntime,
    routes: &F,
    options: Options,
    files: Files<D>,
    steps: &[u8],
) -> Files<D> {
    if !files.may_be_used() {
        return files;
    }
    match Connection::open_files(rt.alloc(), files, options) {
        Ok(conn) => {
            tell(rt, b"done\n");
            close(rt, do_steps(rt, routes, conn, steps))
        }
        Err((_, left)) => {
            tell(rt, b"U1\n");
            left.into_files()
        }
    }
}

/// Closes a database, and returns its files.
fn close<D: Disk + Drop>(rt: &HostRuntime, conn: Connection<FileStore<D>>) -> Files<D> {
    match conn.close_files() {
        Ok(files) => {
            tell(rt, b"done\n");
            files
        }
        Err((_, store)) => {
            tell(rt, b"U1\n");
            store.close()
        }
    }
}

/// Does steps with all that two files may leave: all that was written to each, or what was written before its last sync.
fn look_at<F: RouteFinder>(
    rt: &HostRuntime,
    routes: &F,
    options: Options,
    files: Files<Stopping>,
    steps: &[u8],
) {
    let Files { mut log, mut db } = files;
    let written = stopping(rt.alloc(), log.inner().bytes(), u64::MAX);
    let database = stopping(rt.alloc(), db.inner().bytes(), u64::MAX);
    log.crash();
    db.crash();
    let logs = Left {
        written,
        synced: log,
    };
    look_at_logs(rt, routes, options, &logs, &database, steps);
    if database.inner().bytes() != db.inner().bytes() {
        look_at_logs(rt, routes, options, &logs, &db, steps);
    }
}

/// What a file may leave.
#[derive(Drop)]
struct Left {
    written: Stopping,
    synced: Stopping,
}

/// Does steps with a database file, and with each state in which the log may be.
fn look_at_logs<F: RouteFinder>(
    rt: &HostRuntime,
    routes: &F,
    options: Options,
    logs: &Left,
    database: &Stopping,
    steps: &[u8],
) {
    look_at_files(rt, routes, options, &logs.written, database, steps);
    if logs.written.inner().bytes() != logs.synced.inner().bytes() {
        look_at_files(rt, routes, options, &logs.synced, database, steps);
    }
}

fn look_at_files<F: RouteFinder>(
    rt: &HostRuntime,
    routes: &F,
    options: Options,
    log: &Stopping,
    database: &Stopping,
    steps: &[u8],
) {
    let files = Files {
        log: stopping(rt.alloc(), log.inner().bytes(), u64::MAX),
        db: stopping(rt.alloc(), database.inner().bytes(), u64::MAX),
    };
    tell(rt, b"left\n");
    in_files(rt, routes, options, files, steps);
}
