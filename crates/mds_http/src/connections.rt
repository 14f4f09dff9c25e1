//! Serves connections, one after the other.

ghost use Rattle.mds_http.specs.Connections.{HasServed};

use crate::handling::StoreHandler;
use crate::logging::{Log, Served};
use crate::request_line::RequestLine;
use crate::serving::serve_connection;
use crate::timely::{AnswerWrites, RequestReads, RestReads};
use crate::waiting::{Accepted, Turn, WaitingRoom};
use mds_keeper::Keeper;
use mds_lines::Counted;
use mds_wire::RouteFinder;
use std::io::ErrorKind;
use std::time::Duration;

/// Why no more connections are served.
#[derive(Clone, Copy, Debug, PartialEq, Eq)]
pub enum Ended {
    /// As many were served as were asked for.
    Counted,
    /// The port isn't available, or no more connections can be accepted.
    CannotAccept,
    /// There was no memory for waiting connections. None was accepted.
    Unavailable,
}

/// Serves `count` connections to a port of 127.0.0.1, one after the other. Up to 64 accepted ones wait side by side, and the first to say something
/// is served first. One that says nothing in its time is dropped, and counts. A fault ends only its own connection. A connection that can't be
/// accepted doesn't count. If none could be accepted for ten seconds, the service ends.
///
/// Only the meaning of these connections' bytes changes the store. So all of it is one run of the machine (`laws_of`).
pub fn serve_connections<F: RouteFinder, K: Keeper>(
    rt: &HostRuntime,
    routes: &F,
    handler: &mut StoreHandler<K>,
    port: u16,
    count: u32,
    log: Log,
) -> Ended
    ensures { HasServed K.kept handler.old count handler.new }
{
    let mut room = match WaitingRoom::new(rt, port, count) {
        Ok(room) => room,
        Err(error) if error.kind() == ErrorKind::OutOfMemory => return Ended::Unavailable,
        Err(_) => return Ended::CannotAccept,
    };
    for _ in 0..count {
        match serve_next(rt, routes, handler, &mut room) {
            Some(served) => log.connection(rt, &served),
            None => {
                log.end(rt);
                return Ended::CannotAccept;
            }
        }
    }
    Ended::Counted
}

/// Serves the next connection, or drops it if nothing came from it. Returns what became of it, after closing it. `None` if no more connections can be
/// accepted.
fn serve_next<F: RouteFinder, K: Keeper>(
    rt: &HostRuntime,
    routes: &F,
    handler: &mut StoreHandler<K>,
    room: &mut WaitingRoom<'_>,
) -> Option<Served>
    ensures { HasServed K.kept handler.old 1 handler.new }
{
    match room.next() {
        Turn::Serve(accepted) => Some(serve_accepted(rt, routes, handler, &accepted)),
        Turn::LetGo(accepted) => Some(nothing_of(rt, &accepted)),
        Turn::CannotAccept => None,
    }
}

/// Serves a connection from which something came, and returns what became of it.
fn serve_accepted<'x, F: RouteFinder, K: Keeper>(
    rt: &'x HostRuntime,
    routes: &F,
    handler: &mut StoreHandler<K>,
    accepted: &'x Accepted,
) -> Served
    ensures { HasServed K.kept handler.old 1 handler.new }
{
    let mut reads = RequestReads::new(rt, &accepted.stream, accepted.since);
    let mut writes = AnswerWrites::new(rt, &accepted.stream);
    let status = serve_connection(
        rt.alloc(),
        routes,
        handler,
        &mut Counted::new(&mut reads),
        &mut Counted::new(&mut writes),
        &mut Counted::new(RestReads::new(rt, &accepted.stream)),
    );
    Served {
        line: *reads.line(),
        status: status.ok(),
        written: writes.written(),
        ..nothing_of(rt, accepted)
    }
}

/// What became of a connection that was silent, and to which nothing was written.
fn nothing_of(rt: &HostRuntime, accepted: &Accepted) -> Served {
    Served {
        peer: accepted.peer,
        line: RequestLine::new(),
        status: None,
        written: 0,
        took: accepted.since.elapsed(rt).unwrap_or(Duration::ZERO),
    }
}
