//! Lists of requests, each answered by one run over a keeper.

use crate::answers::print_answer;
use crate::pieces::next_file;
use mds_memory::MemoryKeeper;
use mds_messages::{Answer, Request};
use mds_requests::request_at;
use mds_service::run;
use mds_store::PackKeeper;
use mds_store_runs::run_packs;
use mds_wire::{RouteFinder, path_of};
use sqlite::Alter;
use std::alloc::{AllocError, Global};
use std::io;

/// A keeper over which the machine runs.
pub trait Runs {
    fn run(&mut self, alloc: Global, requests: &[Request]) -> Result<Vec<Answer>, AllocError>;
}

impl Runs for MemoryKeeper {
    fn run(&mut self, alloc: Global, requests: &[Request]) -> Result<Vec<Answer>, AllocError> {
        run(alloc, self, requests)
    }
}

impl<S: Alter> Runs for PackKeeper<S> {
    fn run(&mut self, alloc: Global, requests: &[Request]) -> Result<Vec<Answer>, AllocError> {
        run_packs(alloc, self, requests)
    }
}

/// Answers lists one by one. It prints how many answers each has, and the answers.
pub fn run_lists<F: RouteFinder, K: Runs>(
    rt: &HostRuntime,
    routes: &F,
    keeper: &mut K,
    lists: &[u8],
) -> io::Result<()> {
    let mut left = lists;
    for _ in 0..u64::MAX {
        let Some((list, others)) = next_file(left) else {
            break;
        };
        run_list(rt, routes, keeper, list)?;
        left = others;
    }
    Ok(())
}

fn run_list<F: RouteFinder, K: Runs>(
    rt: &HostRuntime,
    routes: &F,
    keeper: &mut K,
    list: &[u8],
) -> io::Result<()> {
    let Some(requests) = requests_in(rt.alloc(), routes, list) else {
        return println!(rt; "no requests");
    };
    let answers = keeper.run(rt.alloc(), &requests)?;
    println!(rt; "{} answers", answers.len())?;
    for answer in &answers {
        print_answer(rt, answer)?;
    }
    Ok(())
}

/// The requests of a list, each a target and a body. `None` if one asks for nothing, or if memory runs out.
fn requests_in<F: RouteFinder>(alloc: Global, routes: &F, list: &[u8]) -> Option<Vec<Request>> {
    let mut requests = Vec::new(alloc);
    let mut left = list;
    for _ in 0..u64::MAX {
        let Some((target, behind)) = next_file(left) else {
            break;
        };
        let (body, others) = next_file(behind)?;
        requests
            .push(request_of(alloc, routes, target, body)?)
            .ok()?;
        left = others;
    }
    Some(requests)
}

fn request_of<F: RouteFinder>(
    alloc: Global,
    routes: &F,
    target: &[u8],
    body: &[u8],
) -> Option<Request> {
    let route = routes.find(str::from_utf8(path_of(target)).ok()?)?;
    let mut bytes = Vec::new(alloc);
    bytes.extend_from_slice(body).ok()?;
    request_at(alloc, route, target, bytes).ok()
}
