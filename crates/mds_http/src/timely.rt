//! The two ends of a connection, which give a peer a limited time.

use crate::request_line::RequestLine;
use std::io;
use std::io::{ErrorKind, Read, Write};
use std::net::{Shutdown, TcpStream};
use std::time::{Duration, Instant};

/// How many seconds a peer may take for the answer.
const ANSWER_SECONDS: u64 = 60;

/// For how many seconds the service reads what a peer still sends after a refusal.
const REST_SECONDS: u64 = 1;

/// A connection with a time limit for its reads, or for its writes. The time begins with the first of them, unless it began
/// before. Once it is over, each further one fails. So a peer that sends or takes nothing, or a byte now and then, doesn't hold
/// up the service.
#[derive(Drop)]
struct Timely<'a> {
    rt: &'a HostRuntime,
    stream: &'a TcpStream,
    limit: Duration,
    begun: Option<Instant>,
}

/// The reads of a request. Their time grows with what has come of it. A peer that only connects is dropped soon, and one that
/// sends a large body has the whole time.
#[derive(Drop)]
pub(crate) struct RequestReads<'a> {
    reads: Timely<'a>,
    stage: Stage,
    line: RequestLine,
}

/// The writes of an answer, and how many bytes of it were written.
#[derive(Drop)]
pub(crate) struct AnswerWrites<'a> {
    writes: Timely<'a>,
    written: u64,
}

/// The reads of what a peer still sends after a refusal. Before the first of them the service ends its own side.
#[derive(Drop)]
pub(crate) struct RestReads<'a> {
    reads: Timely<'a>,
    is_ended: bool,
}

/// How much of a request has come.
#[derive(Clone, Copy)]
enum Stage {
    /// Nothing but line ends, which may precede it.
    Nothing,
    /// A part of the head, ending within a line.
    InLine,
    /// A part of the head, ending with a line.
    LineEnd,
    /// The head with the empty line that ends it.
    WholeHead,
}

impl Stage {
    /// How many seconds the next byte may take, counted from when the connection was accepted.
    const fn seconds(self) -> u64 {
        // decides: how long may a peer take (`ANSWER_SECONDS`, `REST_SECONDS`)?
        match self {
            Stage::Nothing => 1,
            Stage::InLine | Stage::LineEnd => 2,
            Stage::WholeHead => 10,
        }
    }

    /// How much has come with one more byte.
    fn with(self, byte: u8) -> Stage {
        match (self, byte) {
            (Stage::Nothing, b'\r' | b'\n') => Stage::Nothing,
            (Stage::LineEnd, b'\r') => Stage::LineEnd,
            (Stage::LineEnd, b'\n') | (Stage::WholeHead, _) => Stage::WholeHead,
            (_, b'\n') => Stage::LineEnd,
            _ => Stage::InLine,
        }
    }

    /// How much has come with more bytes.
    fn with_all(self, bytes: &[u8]) -> Stage {
        let mut stage = self;
        for byte in bytes {
            if let Stage::WholeHead = stage {
                return stage;
            }
            stage = stage.with(*byte);
        }
        stage
    }
}

/// How long a peer may be silent, counted from when its connection was accepted.
pub(crate) fn silence() -> Duration {
    Duration::from_secs(Stage::Nothing.seconds())
}

impl Timely<'_> {
    /// How much of the time is left.
    fn left(&mut self) -> io::Result<Duration> {
        let begun = match self.begun {
            Some(begun) => begun,
            None => Instant::now(self.rt)?,
        };
        self.begun = Some(begun);
        match self.limit.checked_sub(begun.elapsed(self.rt)?) {
            Some(left) if !left.is_zero() => Ok(left),
            _ => Err(io::Error::from(ErrorKind::TimedOut)),
        }
    }
}

impl<'a> RequestReads<'a> {
    /// The reads of a request, none of which has come. Their time began when the connection was accepted.
    pub(crate) fn new(
        rt: &'a HostRuntime,
        stream: &'a TcpStream,
        accepted: Instant,
    ) -> RequestReads<'a> {
        RequestReads {
            reads: Timely {
                rt,
                stream,
                limit: silence(),
                begun: Some(accepted),
            },
            stage: Stage::Nothing,
            line: RequestLine::new(),
        }
    }

    /// What has come of the first line.
    pub(crate) fn line(&self) -> &RequestLine {
        &self.line
    }
}

impl<'a> AnswerWrites<'a> {
    /// The writes of an answer. Nothing was written yet.
    pub(crate) fn new(rt: &'a HostRuntime, stream: &'a TcpStream) -> AnswerWrites<'a> {
        // decides: how long may a peer take (`ANSWER_SECONDS`, `REST_SECONDS`)?
        AnswerWrites {
            writes: Timely {
                rt,
                stream,
                limit: Duration::from_secs(ANSWER_SECONDS),
                begun: None,
            },
            written: 0,
        }
    }

    /// How many bytes were written.
    pub(crate) fn written(&self) -> u64 {
        self.written
    }
}

impl<'a> RestReads<'a> {
    /// The reads of a rest. Nothing was read yet.
    pub(crate) fn new(rt: &'a HostRuntime, stream: &'a TcpStream) -> RestReads<'a> {
        // decides: how long may a peer take (`ANSWER_SECONDS`, `REST_SECONDS`)?
        RestReads {
            reads: Timely {
                rt,
                stream,
                limit: Duration::from_secs(REST_SECONDS),
                begun: None,
            },
            is_ended: false,
        }
    }
}

impl Read for Timely<'_> {
    fn read(&mut self, buf: &mut [u8]) -> io::Result<usize> {
        let left = self.left()?;
        self.stream.set_read_timeout(Some(left))?;
        let mut stream = self.stream;
        stream.read(buf)
    }
}

impl Read for RequestReads<'_> {
    fn read(&mut self, buf: &mut [u8]) -> io::Result<usize> {
        let count = self.reads.read(buf)?;
        self.stage = self.stage.with_all(&buf[..count]);
        self.reads.limit = Duration::from_secs(self.stage.seconds());
        self.line.take(&buf[..count]);
        Ok(count)
    }
}

impl Read for RestReads<'_> {
    fn read(&mut self, buf: &mut [u8]) -> io::Result<usize> {
        if !self.is_ended {
            self.reads.stream.shutdown(Shutdown::Write)?;
            self.is_ended = true;
        }
        self.reads.read(buf)
    }
}

impl Write for Timely<'_> {
    fn write(&mut self, buf: &[u8]) -> io::Result<usize> {
        let left = self.left()?;
        self.stream.set_write_timeout(Some(left))?;
        let mut stream = self.stream;
        stream.write(buf)
    }

    fn flush(&mut self) -> io::Result<()> {
        Ok(())
    }
}

impl Write for AnswerWrites<'_> {
    fn write(&mut self, buf: &[u8]) -> io::Result<usize> {
        let count = self.writes.write(buf)?;
        self.written = self.written.saturating_add(count as u64);
        Ok(count)
    }

    fn flush(&mut self) -> io::Result<()> {
        Ok(())
    }
}
