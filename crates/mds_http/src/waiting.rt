//! Accepted connections, which wait side by side until something comes from one of them.

use crate::timely::silence;
use mio::unix::SourceFd;
use mio::{Events, Interest, Poll, Token};
use std::io::ErrorKind;
use std::net::{IpAddr, Ipv4Addr, SocketAddr, TcpListener, TcpStream};
use std::os::fd::{AsRawFd, RawFd};
use std::time::{Duration, Instant};
use std::{io, thread};

/// The most connections that wait side by side.
const MOST_WAITING: usize = 64;

/// How many times in a row `accept` may fail before the service ends.
const MOST_FAILURES: u32 = 100;

/// How many milliseconds the service waits after each such failure.
const FAILURE_PAUSE: u64 = 100;

/// A connection that was accepted.
#[derive(Drop)]
pub(crate) struct Accepted {
    pub(crate) stream: TcpStream,
    pub(crate) peer: IpAddr,
    /// When it was accepted. The time in which others are served is added to it.
    pub(crate) since: Instant,
    /// The token of its events.
    token: Token,
    /// Whether something came: a byte, the end of what the peer sends, or a failure.
    has_come: bool,
}

/// The next turn.
#[derive(Drop)]
pub(crate) enum Turn {
    /// Something came from this connection.
    Serve(Accepted),
    /// Nothing came from this connection in its time.
    LetGo(Accepted),
    /// No more connections can be accepted.
    CannotAccept,
}

/// The waiting connections, in the order in which they were accepted.
#[derive(Drop)]
pub(crate) struct WaitingRoom<'a> {
    rt: &'a HostRuntime,
    listener: TcpListener,
    poll: Poll,
    events: Events,
    waiting: Vec<Accepted>,
    /// How many connections may still be accepted.
    left: u32,
    /// Whether there may be a connection to accept.
    may_accept: bool,
    /// How many times in a row `accept` failed, and when it did so last.
    failures: u32,
    failed: Option<Instant>,
    /// When a connection began to be served.
    serving: Option<Instant>,
}

impl<'a> WaitingRoom<'a> {
    /// Listens to a port of 127.0.0.1. Nobody waits yet, and `left` connections may be accepted. All memory is taken before.
    pub(crate) fn new(rt: &'a HostRuntime, port: u16, left: u32) -> io::Result<WaitingRoom<'a>> {
        let events = Events::with_capacity(rt.alloc(), MOST_WAITING + 1)?;
        let waiting = Vec::with_capacity(rt.alloc(), MOST_WAITING)?;
        let listener = TcpListener::bind(rt, SocketAddr::from((Ipv4Addr::LOCALHOST, port)))?;
        listener.set_nonblocking(true)?;
        let poll = Poll::new(rt)?;
        watch(&poll, listener.as_raw_fd())?;
        Ok(WaitingRoom {
            rt,
            listener,
            poll,
            events,
            waiting,
            left,
            may_accept: false,
            failures: 0,
            failed: None,
            serving: None,
        })
    }

    /// The next connection, to be served or dropped. Those that said something come first, in the order of acceptance.
    pub(crate) fn next(&mut self) -> Turn {
        // decides: which connection is served next, and how many may wait (`MOST_WAITING`)?
        self.end_serving();
        for _ in 0..u64::MAX {
            self.accept_all();
            if self.failures >= MOST_FAILURES {
                return Turn::CannotAccept;
            }
            self.wait();
            if let Some(accepted) = self.take_speaker() {
                self.serving = Instant::now(self.rt).ok();
                return Turn::Serve(accepted);
            }
            if let Some(accepted) = self.take_silent() {
                return Turn::LetGo(accepted);
            }
        }
        Turn::CannotAccept
    }

    /// Excludes the time in which a connection was served for those that waited.
    fn end_serving(&mut self) {
        if let Some(begun) = self.serving {
            let took = self.time_since(begun);
            for it in &mut self.waiting {
                it.since = it.since.checked_add(took).unwrap_or(it.since);
            }
        }
        self.serving = None;
    }

    /// The time since a moment.
    fn time_since(&self, moment: Instant) -> Duration {
        moment.elapsed(self.rt).unwrap_or(Duration::MAX)
    }

    /// Takes the first connection from which something came.
    fn take_speaker(&mut self) -> Option<Accepted> {
        for place in 0..self.waiting.len() {
            if self.waiting[place].has_come {
                return Some(self.waiting.remove(place));
            }
        }
        None
    }

    /// Takes the first connection, if its time is over. It has waited longest.
    fn take_silent(&mut self) -> Option<Accepted> {
        if self.waiting.is_empty() || self.time_since(self.waiting[0].since) < silence() {
            return None;
        }
        Some(self.waiting.remove(0))
    }

    /// Accepts the connections that are there, as long as there is room.
    fn accept_all(&mut self) {
        if let Some(failed) = self.failed {
            if self.time_since(failed) < Duration::from_millis(FAILURE_PAUSE) {
                return;
            }
        }
        self.failed = None;
        // decides: which connection is served next, and how many may wait (`MOST_WAITING`)?
        for _ in self.waiting.len()..MOST_WAITING {
            if !self.may_accept || self.left == 0 || self.failed.is_some() {
                return;
            }
            self.accept_next();
        }
    }

    /// Accepts a connection, if there is one.
    fn accept_next(&mut self) {
        match self.accept() {
            Ok(accepted) => {
                self.failures = 0;
                if self.waiting.push(accepted).is_ok() {
                    self.left = self.left.saturating_sub(1);
                }
            }
            Err(error) if error.kind() == ErrorKind::WouldBlock => {
                self.failures = 0;
                self.may_accept = false;
            }
            Err(_) => {
                self.failures = self.failures.saturating_add(1);
                self.failed = Instant::now(self.rt).ok();
            }
        }
    }

    /// The next connection. One whose events can't be reported is served as if something had come.
    fn accept(&self) -> io::Result<Accepted> {
        let (stream, peer) = self.listener.accept()?;
        let since = Instant::now(self.rt)?;
        let number = stream.as_raw_fd();
        let has_come = watch(&self.poll, number).is_err();
        Ok(Accepted {
            stream,
            peer: peer.ip(),
            since,
            token: token_of(number),
            has_come,
        })
    }

    /// Waits until something comes, a connection's time is over, or `accept` may be called again.
    fn wait(&mut self) {
        let limit = self.limit();
        match self.poll.poll(&mut self.events, limit) {
            Ok(()) => self.mark(),
            Err(_) => thread::sleep(self.rt, Duration::from_millis(FAILURE_PAUSE)),
        }
    }

    /// How long to wait at most.
    fn limit(&self) -> Option<Duration> {
        if self.waiting.iter().any(|it| it.has_come) {
            return Some(Duration::ZERO);
        }
        let pause = match self.failed {
            Some(failed) => Some(Duration::from_millis(FAILURE_PAUSE).saturating_sub(
                self.time_since(failed),
            )),
            None => None,
        };
        match (self.waiting.first(), pause) {
            (Some(first), Some(pause)) => Some(self.silence_left(first).min(pause)),
            (Some(first), None) => Some(self.silence_left(first)),
            (None, pause) => pause,
        }
    }

    /// How long a connection may still be silent.
    fn silence_left(&self, it: &Accepted) -> Duration {
        silence().saturating_sub(self.time_since(it.since))
    }

    /// Records what was reported.
    fn mark(&mut self) {
        let listener = token_of(self.listener.as_raw_fd());
        for event in &self.events {
            let token = event.token();
            if token == listener {
                self.may_accept = true;
            }
            for it in &mut self.waiting {
                if it.token == token {
                    it.has_come = true;
                }
            }
        }
    }
}

/// Has the events of a descriptor reported.
fn watch(poll: &Poll, number: RawFd) -> io::Result<()> {
    poll.registry().register(&mut SourceFd(&number), token_of(number), Interest::READABLE)
}

/// The token of a descriptor's events.
fn token_of(number: RawFd) -> Token {
    Token(number.cast_unsigned() as usize)
}
