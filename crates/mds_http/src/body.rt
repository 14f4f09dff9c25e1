//! The body of a request while it comes.

ghost use Rattle.std.specs.Prelude.{◌++◌, ◌≤◌, ℕ, List, [], IfOk, OnErr, length};
ghost use Rattle.mds_wire.specs.Judging.{longest_body};
ghost use Rattle.mds_wire.specs.declared.route.Route.{Route as ARoute};
ghost use Rattle.mds_http.specs.Bodies.{HoldsBody, TakesMemoryAt};

use mds_nem12::{Nem12Fault, Reader};
use mds_requests::imports_interval_data;
use mds_wire::{Failed, Route};
use std::alloc::{AllocError, Global};

/// The body of a request while it comes.
#[derive(Drop)]
pub enum Body {
    /// Interval data, read line by line. What it states is held, and otherwise at most a line.
    IntervalData(Reader),
    /// Anything else, or an empty body. It is held until it is whole.
    Whole(Vec<u8>),
}

impl Body {
    /// Begins a body of `size` bytes. An empty one takes no memory.
    pub(crate) fn begin(
        alloc: Global,
        route: Route,
        target: &[u8],
        size: usize,
    ) -> Result<Body, Failed>
        ensures begun { IfOk result (λ body. HoldsBody body route target.now size []) }
        ensures only { OnErr result (TakesMemoryAt route target.now size [] []) }
    {
        if size == 0 {
            return Ok(Body::Whole(Vec::new(alloc)));
        }
        if imports_interval_data(alloc, route, target)? {
            return Ok(Body::IntervalData(Reader::new(alloc)?));
        }
        Ok(Body::Whole(Vec::with_capacity(alloc, size)?))
    }

    /// Takes more of the body. A fault of a file is answered once the body is whole. There is room for what is held, so only
    /// interval data can run out of memory.
    pub(crate) fn feed(&mut self, piece: &[u8]) -> Result<(), Failed>
        ensures fed { (route : ARoute) (target : List ℕ) (size : ℕ) (bytes : List ℕ) → HoldsBody self.old route target size bytes
            → length (bytes ++ piece.now) ≤ size → size ≤ longest_body
            → IfOk result (λ _. HoldsBody self.new route target size (bytes ++ piece.now)) }
        ensures only { (route : ARoute) (target : List ℕ) (size : ℕ) (bytes : List ℕ) → HoldsBody self.old route target size bytes
            → length (bytes ++ piece.now) ≤ size → size ≤ longest_body
            → OnErr result (TakesMemoryAt route target size bytes piece.now) }
    {
        match self {
            Body::IntervalData(reader) => match reader.feed(piece) {
                Ok(()) | Err(Nem12Fault::File(_)) => Ok(()),
                Err(Nem12Fault::Memory) => Err(Failed),
            },
            Body::Whole(bytes) => Ok(bytes.extend_from_slice(piece)?),
        }
    }
}
