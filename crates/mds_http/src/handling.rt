//! The handler over a keeper.

ghost use Rattle.std.specs.Prelude.{◌≡◌, ℕ, List, ◌≤◌, [], IfOk, OnErr, vec_capacity};
ghost use Rattle.mds_requests.specs.Targets.{IsFaultAt};
ghost use Rattle.mds_requests.specs.declared.targets.TargetFault.TheVariants as fault;
ghost use Rattle.mds_wire.specs.Serving.{short_answer};
ghost use Rattle.mds_http.specs.Bodies.{HoldsBody, TakesMemoryAt};
ghost use Rattle.mds_http.specs.Handling.{Handles, HandlesBy};
ghost use Rattle.mds_http.specs.Serving.{IsSame};

use crate::body::Body;
use crate::telling::{refuse_holidays, refuse_target, tell};
use mds_keeper::Keeper;
use mds_requests::{TargetFault, request_at};
use mds_service::{apply, import_fed};
use mds_wire::{Failed, Handler, Kind, Route, Status};
use std::alloc::Global;

/// A keeper that answers requests over HTTP.
#[derive(Drop)]
pub struct StoreHandler<K> {
    pub keeper: K,
}

impl<K: Keeper> Handler for StoreHandler<K> {
    type Body = Body;

    ghost step = { Handles K.kept };

    ghost same = { IsSame };

    ghost takes_memory = { TakesMemoryAt };

    ghost holds = { HoldsBody };

    fn begin(
        &self,
        alloc: Global,
        route: Route,
        target: &[u8],
        size: usize,
    ) -> Result<Body, Failed> {
        Body::begin(alloc, route, target, size)
    }

    fn feed(body: &mut Body, piece: &[u8]) -> Result<(), Failed> {
        body.feed(piece)
    }

    fn handle(
        &mut self,
        alloc: Global,
        route: Route,
        target: &[u8],
        body: Body,
        answer: &mut Vec<u8>,
    ) -> Result<(Status, Kind), Failed> {
        match body {
            Body::IntervalData(reader) => {
                let told = import_fed(alloc, &mut self.keeper, reader);
                Ok(tell(alloc, told, answer))
            }
            Body::Whole(bytes) => {
                answer_whole(alloc, &mut self.keeper, route, target, bytes, answer)
            }
        }
    }
}

/// Answers the request that a target and a whole body ask for.
fn answer_whole<K: Keeper>(
    alloc: Global,
    keeper: &mut K,
    route: Route,
    target: &[u8],
    body: Vec<u8>,
    answer: &mut Vec<u8>,
) -> Result<(Status, Kind), Failed>
    requires empty { answer.old.items ≡ [] }
    requires room { short_answer ≤ vec_capacity answer.old }
    ensures step { IfOk result (λ told. HandlesBy K.kept keeper.old route target.now body.items told.0 told.1 answer.new.items keeper.new) }
    ensures same { OnErr result (keeper.new ≡ keeper.old) }
    ensures only { OnErr result (IsFaultAt route target.now body.items fault.Memory) }
{
    let request = match request_at(alloc, route, target, body) {
        Ok(request) => request,
        Err(TargetFault::Bad) => return Ok(refuse_target(answer)),
        Err(TargetFault::BadHolidays(row)) => return Ok(refuse_holidays(row, answer)),
        Err(TargetFault::Memory) => return Err(Failed),
    };
    let told = apply(alloc, keeper, &request);
    Ok(tell(alloc, told, answer))
}
