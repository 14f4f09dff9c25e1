//! A store in a file, which this process has for itself while it is open.

ghost use Rattle.std.specs.Prelude.{◌≡◌, IsTrue};
ghost use Rattle.mdstore.specs.Refusals.{of_migration, of_store};

use crate::cause::Cause;
use crate::place::{Place, Standing, has_other_name};
use crate::progress::ShownSteps;
use crate::why::Why;
use mds_desk::{Outcome, Status};
use mds_keeper::Keeper;
use mds_migrate::{MigrateFault, Migrated, migrate_all};
use mds_store::{StoreFault, adopt, create};
use sqlite::{Alter, Connection, Error, FileStore, Files, Options, Wary};
use sqlite_disk::Disk;
use sqlite_std_file::OpenError;
use std::hash::{BuildHasher, RandomState};
use std::io;
use std::io::ErrorKind;

/// How many read pages are kept. They take 2 MB, as in sqlite3. The library's own open keeps four times as many, and makes room for all of
/// them at once.
const PAGES_KEPT: usize = 500;

/// What is done with an open store. It is written over any keeper, so that its proof doesn't load what the library says of files.
pub(crate) trait Task {
    /// Does it, and returns the keeper and the outcome of the run.
    fn perform<K: Keeper>(self, rt: &HostRuntime, keeper: K, why: &mut Why) -> (K, Outcome);
}

/// Makes a store where there is no file, or in a file that has no bytes or is an empty database. If sums are asked for, such a database must
/// have them: pages that were made without sums get none.
pub(crate) fn make_store(rt: &HostRuntime, path: &str, has_sums: bool, why: &mut Why) -> Outcome {
    why.name_store(rt, path);
    // decides: U1: the file of the store can't be opened
    let place = match Place::to_make(rt, path) {
        Ok(place) => place,
        Err(error) => {
            why.put(of_making(error));
            return Outcome::Unavailable;
        }
    };
    match place.standing() {
        Standing::Nothing | Standing::Files => {
            let task = Make {
                place: &place,
                has_sums,
            };
            in_database(rt, path, &place, has_sums, task, why)
        }
        // decides: U3: a file without bytes, or for `init` a log without a file
        Standing::LogAlone => {
            place.take_away_file(rt);
            why.put(Cause::LogAlone);
            Outcome::OtherSchema
        }
        Standing::NoDatabase => {
            why.put(Cause::NoDatabase);
            Outcome::Unavailable
        }
    }
}

/// The cause if no file can be made.
fn of_making(error: io::Error) -> Cause {
    match error.kind() {
        ErrorKind::NotFound => Cause::NoFolder,
        _ => Cause::File(error),
    }
}

/// Opens the store at a path, which isn't made if it is missing, does something with it, and closes it.
pub(crate) fn in_store<T: Task + Drop>(
    rt: &HostRuntime,
    path: &str,
    task: T,
    why: &mut Why,
) -> Outcome {
    in_file(rt, path, Adopt { task }, why)
}

/// Migrates the store at a path, which isn't made if it is missing, to the current schema. A store of that schema is left as it is.
pub(crate) fn migrate_store(rt: &HostRuntime, path: &str, why: &mut Why) -> Outcome {
    in_file(rt, path, Migrate, why)
}

/// Opens the database at a path, which isn't made if it is missing, does something with it, and closes it.
fn in_file<T: DatabaseTask + Drop>(
    rt: &HostRuntime,
    path: &str,
    task: T,
    why: &mut Why,
) -> Outcome {
    why.name_store(rt, path);
    // decides: U1: the file of the store can't be opened
    let place = match Place::of_file(rt, path) {
        Ok(place) => place,
        Err(error) => {
            why.put_file(error);
            return Outcome::Unavailable;
        }
    };
    match place.standing() {
        Standing::Files => in_database(rt, path, &place, false, task, why),
        // decides: U3: a file without bytes, or for `init` a log without a file
        Standing::Nothing | Standing::LogAlone => {
            why.put(Cause::NoBytes);
            Outcome::OtherSchema
        }
        Standing::NoDatabase => {
            why.put(Cause::NoDatabase);
            Outcome::Unavailable
        }
    }
}

/// What is done with an open database, wherever it is stored.
trait DatabaseTask {
    /// Does it, and returns the connection and the outcome of the run.
    fn run<S: Alter>(
        self,
        rt: &HostRuntime,
        conn: Connection<S>,
        why: &mut Why,
    ) -> (Connection<S>, Outcome);
}

/// Makes a store in it, whose pages have sums if that is asked for.
#[derive(Drop)]
struct Make<'a> {
    place: &'a Place,
    has_sums: bool,
}

impl<'a> Make<'a> {
    /// The outcome of the run if no store is to be made in the open database.
    fn refusal(&self, rt: &HostRuntime, why: &mut Why) -> Option<Outcome> {
        if !self.has_sums {
            return None;
        }
        // decides: U3: an empty database has no sums, and `--sums` asks for them
        match self.place.has_sums(rt) {
            Ok(true) => None,
            Ok(false) => {
                why.put(Cause::NoSums);
                Some(Outcome::OtherSchema)
            }
            Err(error) => {
                why.put_file(error);
                Some(Outcome::Unavailable)
            }
        }
    }
}

impl<'a> DatabaseTask for Make<'a> {
    fn run<S: Alter>(
        self,
        rt: &HostRuntime,
        conn: Connection<S>,
        why: &mut Why,
    ) -> (Connection<S>, Outcome) {
        if let Some(outcome) = self.refusal(rt, why) {
            return (conn, outcome);
        }
        match create(rt.alloc(), conn) {
            Ok(keeper) => (keeper.into_connection(), Outcome::Created),
            Err((fault, conn)) => {
                why.put(cause_of(fault, Cause::NotEmpty));
                (conn, of_store(fault))
            }
        }
    }
}

/// Does something with the store that it is.
#[derive(Drop)]
struct Adopt<T> {
    task: T,
}

impl<T: Task + Drop> DatabaseTask for Adopt<T> {
    fn run<S: Alter>(
        self,
        rt: &HostRuntime,
        conn: Connection<S>,
        why: &mut Why,
    ) -> (Connection<S>, Outcome) {
        match adopt(rt.alloc(), conn) {
            Ok(keeper) => {
                let (keeper, outcome) = self.task.perform(rt, keeper, why);
                (keeper.into_connection(), outcome)
            }
            Err((fault, conn)) => {
                why.put(cause_of(fault, Cause::OtherTables));
                (conn, of_store(fault))
            }
        }
    }
}

/// Migrates the store that it is to the current schema.
#[derive(Drop)]
struct Migrate;

impl DatabaseTask for Migrate {
    fn run<S: Alter>(
        self,
        rt: &HostRuntime,
        conn: Connection<S>,
        why: &mut Why,
    ) -> (Connection<S>, Outcome) {
        let mut conn = conn;
        let mut steps = ShownSteps::new(rt);
        let outcome = of_migration(migrate_all(rt.alloc(), &mut conn, &mut steps));
        steps.clear();
        if matches!(outcome, Outcome::OtherSchema) {
            why.put(Cause::OtherTables);
        }
        (conn, outcome)
    }
}

/// The outcome of a migration.
fn of_migration(answer: Result<Migrated, MigrateFault>) -> Outcome
    ensures { result ≡ of_migration answer }
{
    match answer {
        Ok(Migrated::Done) => Outcome::Migrated,
        Ok(Migrated::AlreadyCurrent) => Outcome::AlreadyCurrent,
        Err(MigrateFault::Unavailable) => Outcome::Unavailable,
        Err(MigrateFault::OtherSchema) => Outcome::OtherSchema,
    }
}

/// The outcome if the store can't be used.
fn of_store(fault: StoreFault) -> Outcome
    ensures { result ≡ of_store fault }
{
    match fault {
        StoreFault::InTransaction | StoreFault::Unavailable(_) => Outcome::Unavailable,
        StoreFault::EarlierSchema => Outcome::EarlierSchema,
        StoreFault::OtherSchema => Outcome::OtherSchema,
    }
}

/// Why the store can't be used. A database of another schema has the cause that is given.
fn cause_of(fault: StoreFault, other: Cause) -> Cause {
    match fault {
        StoreFault::InTransaction => Cause::Unknown,
        StoreFault::Unavailable(error) => Cause::of_error(error),
        StoreFault::EarlierSchema => Cause::EarlierSchema,
        StoreFault::OtherSchema => other,
    }
}

/// Opens the database at a path, does something with it, and closes it. A new one gets sums if that is asked for. The header of any other
/// says whether it has them. A torn write may leave anything on the disk, so each commit syncs twice.
fn in_database<T: DatabaseTask + Drop>(
    rt: &HostRuntime,
    path: &str,
    place: &Place,
    new_has_sums: bool,
    task: T,
    why: &mut Why,
) -> Outcome {
    // decides: U1: the file of the store can't be opened
    // SQLite doesn't treat these as paths.
    if path == ":memory:" || path.starts_with("file:") {
        return without_files(rt, place, Cause::NoPath, why);
    }
    match sqlite_std_file::open(rt, path, Wary) {
        Ok(files) => in_files(rt, place, files, new_has_sums, task, why),
        // Another process has the file. Whatever that process finds there is its own.
        Err(OpenError::Busy) => {
            why.put(Cause::InUse);
            Outcome::Unavailable
        }
        Err(error) => without_files(rt, place, of_opening(rt, path, error), why),
    }
}

/// The outcome if the files of a database can't be opened. What the attempt made is removed.
fn without_files(rt: &HostRuntime, place: &Place, cause: Cause, why: &mut Why) -> Outcome {
    why.put(cause);
    place.take_away_file(rt);
    Outcome::Unavailable
}

/// Opens the database in files that are locked until they are dropped, does something with it, and closes it. If it can't be opened, what the
/// attempt made is removed. This does what the library's open by a path does, except for the count of kept pages. It is written over any disk,
/// so that its proof doesn't load what the library says of files.
fn in_files<D: Disk + Drop, T: DatabaseTask + Drop>(
    rt: &HostRuntime,
    place: &Place,
    files: Files<D>,
    new_has_sums: bool,
    task: T,
    why: &mut Why,
) -> Outcome
    requires log { IsTrue (D.Disk.is_usable files.log) }
    requires db { IsTrue (D.Disk.is_usable files.db) }
{
    let random = match RandomState::new(rt) {
        Ok(random) => random,
        Err(error) => {
            drop(files);
            return without_files(rt, place, Cause::File(error), why);
        }
    };
    let mut options = Options::new(random.hash_one(&0u8));
    options.cache_pages = PAGES_KEPT;
    match Connection::open_files_with(rt.alloc(), files, options, new_has_sums) {
        Ok(conn) => {
            let (conn, outcome) = task.run(rt, conn, why);
            close(rt, place, conn, outcome, why)
        }
        Err((error, left)) => {
            put_damage(rt, place, error, why);
            place.restore(rt, &left.into_files());
            Outcome::Unavailable
        }
    }
}

/// Notes why a database can't be opened, whose files are locked. A damaged one is looked at, if its cause is wanted.
fn put_damage(rt: &HostRuntime, place: &Place, error: Error, why: &mut Why) {
    let cause = Cause::of_error(error);
    let is_damaged = matches!(cause, Cause::Damaged | Cause::Unreadable);
    why.put(cause);
    if is_damaged && why.is_wanted(rt) {
        if let Ok(Some(found)) = place.damage(rt) {
            why.put(found);
        }
    }
}

/// Why the files of a database can't be opened.
fn of_opening(rt: &HostRuntime, path: &str, error: OpenError) -> Cause {
    match error {
        OpenError::Io(error) if error.kind() == ErrorKind::Unsupported => {
            if has_other_name(rt, path) {
                Cause::SecondName
            } else {
                Cause::File(error)
            }
        }
        OpenError::Io(error) => Cause::File(error),
        OpenError::OutOfMemory => Cause::NoMemory,
        OpenError::Busy => Cause::InUse,
        OpenError::HotJournal => Cause::Journal,
    }
}

/// Closes a database, so that all of it is in its one file. If that fails, the file and its log together are the store, and the outcome of
/// the run stays the same.
fn close<D: Disk + Drop>(
    rt: &HostRuntime,
    place: &Place,
    conn: Connection<FileStore<D>>,
    outcome: Outcome,
    why: &mut Why,
) -> Outcome {
    // decides: what happens to the log beside a store?
    let files = match conn.close_files() {
        Ok(files) => {
            place.remove_log(rt, &files);
            files
        }
        Err((error, store)) => {
            let files = store.close();
            put_unless_known(cause_in(&files), outcome, why);
            put_unless_known(Cause::of_error(error), outcome, why);
            place.remove_empty_log(rt, &files);
            files
        }
    };
    put_unless_known(cause_in(&files), outcome, why);
    if matches!(outcome, Outcome::Unavailable) {
        place.restore(rt, &files);
    }
    drop(files);
    outcome
}

/// Notes a cause of U1, if no other is known.
fn put_unless_known(cause: Cause, outcome: Outcome, why: &mut Why) {
    match outcome {
        Outcome::Unavailable | Outcome::Answered(Status::Unavailable) => why.put_if_unknown(cause),
        _ => (),
    }
}

/// What the failed calls on the files of a database met.
fn cause_in<D: Disk>(files: &Files<D>) -> Cause {
    let met = files.tally();
    if met.refused > 0 {
        Cause::DiskFull
    } else if met.caught > 0 {
        Cause::Changed
    } else if files.may_be_used() {
        Cause::Unknown
    } else {
        Cause::DiskFailed
    }
}
