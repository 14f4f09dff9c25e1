//! Imports NEM12 files as they are read.

use crate::noted::Noted;
use crate::store_file::{Task, in_store};
use crate::why::Why;
use mds_desk::{Outcome, import_file, import_read};
use mds_keeper::Keeper;
use mds_lines::Counted;
use mds_nem12::{Delivery, ReadFault, read_delivery};
use std::io;
use std::io::Read;

/// Imports what a reader brings into the store at a path, which isn't made if it is missing. The file is read before the store is
/// opened, so that it may come from another command on the same store. A fault of the store is printed first all the same.
pub(crate) fn import<R: Read + Drop>(
    rt: &HostRuntime,
    path: &str,
    reader: R,
    why: &mut Why,
) -> Outcome {
    let mut reader = Noted::new(reader);
    let read = read_delivery(rt.alloc(), &mut Counted::new(&mut reader));
    why.put_read(reader.error());
    in_store(rt, path, TakingIn { read }, why)
}

/// Imports what was read.
#[derive(Drop)]
struct TakingIn {
    read: Result<Delivery, ReadFault>,
}

impl Task for TakingIn {
    fn perform<K: Keeper>(self, rt: &HostRuntime, keeper: K, why: &mut Why) -> (K, Outcome) {
        let mut keeper = keeper;
        let mut writer = Counted::new(io::writer(rt));
        let answer = import_read(rt.alloc(), &mut keeper, self.read, &mut writer);
        let outcome = Outcome::of_import(answer);
        why.put_memory(outcome);
        (keeper, outcome)
    }
}

/// Imports what a reader brings over a keeper, and prints the answer.
pub(crate) fn import_over<K: Keeper, R: Read + Drop>(
    rt: &HostRuntime,
    keeper: &mut K,
    reader: R,
    why: &mut Why,
) -> Outcome {
    let mut reader = Noted::new(reader);
    let mut writer = Counted::new(io::writer(rt));
    let mut counted = Counted::new(&mut reader);
    let answer = import_file(rt.alloc(), keeper, &mut counted, &mut writer);
    let outcome = Outcome::of_import(answer);
    why.put_read(reader.error());
    why.put_memory(outcome);
    outcome
}
