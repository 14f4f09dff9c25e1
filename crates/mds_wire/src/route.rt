//! The routes, their methods, and the router that finds the route of a path.

ghost use Rattle.std.specs.Prelude.{◌≡◌, ◌≤◌, length, IfOk};
ghost use Rattle.mds_wire.specs.Routes.{route_of, routes, method_of, part_length, template_of};

use http::Method;
use matchit::{InsertError, Router};
use std::alloc::{AllocError, Global};
use std::marker::Model;

/// What a request is about, by the path of its target.
#[derive(Clone, Copy, Debug, PartialEq, Eq)]
pub enum Route {
    Imports,
    Substitutions,
    Holidays,
    Streams,
    Days,
    Versions,
    Periods,
    Gaps,
    Finals,
    Missing,
    Readings,
    Exports,
}

impl Route {
    /// All routes, in the order of their paths. The router keeps each after the earlier ones.
    const ALL: [Route; 12] = [
        Route::Days,
        Route::Exports,
        Route::Finals,
        Route::Gaps,
        Route::Holidays,
        Route::Imports,
        Route::Missing,
        Route::Periods,
        Route::Readings,
        Route::Streams,
        Route::Substitutions,
        Route::Versions,
    ];

    /// Its only method.
    pub(crate) fn method(self) -> Method
        ensures value { result ≡ method_of self }
        ensures size { length result ≤ 4 }
    {
        // decides: which route does a path have, and which method?
        match self {
            Route::Imports | Route::Substitutions | Route::Holidays => Method::POST,
            _ => Method::GET,
        }
    }

    /// The template of its paths, for the router. A name in braces matches any part that isn't empty.
    fn template(self) -> &'static str
        ensures { result.now ≡ template_of self }
    {
        // decides: which route does a path have, and which method?
        match self {
            Route::Imports => "/v1/imports",
            Route::Substitutions => "/v1/substitutions",
            Route::Holidays => "/v1/holidays",
            Route::Streams => "/v1/streams",
            Route::Days => "/v1/days/{nmi}/{suffix}/{date}",
            Route::Versions => "/v1/versions/{nmi}/{suffix}/{date}/{interval}",
            Route::Periods => "/v1/periods/{nmi}/{suffix}",
            Route::Gaps => "/v1/gaps",
            Route::Finals => "/v1/finals",
            Route::Missing => "/v1/missing",
            Route::Readings => "/v1/readings",
            Route::Exports => "/v1/exports/nem12",
        }
    }
}

/// Anything that finds the route of a path.
pub trait RouteFinder {
    ghost use Rattle.std.specs.Prelude.{◌≡◌};
    ghost use Rattle.mds_wire.specs.Routes.{route_of};

    /// The route of a path: `/v1/streams` is for `Streams`, `/v1/days/NEM1201009/E1/20240101` for `Days`.
    fn find(&self, path: &str) -> Option<Route>
        ensures { result ≡ route_of path.now };
}

/// The router of all routes. It is made once, and then finds routes without memory.
#[derive(Drop)]
pub struct Routes {
    router: Router<Route>,
}

impl Model for Routes {
    ghost use Rattle.std.specs.Prelude.{◌≡◌, List};
    ghost use Rattle.mds_wire.specs.Routes.{routes};
    ghost use Rattle.mds_wire.specs.RouteSteps.{routes_in, rows_of};
    ghost use Rattle.mds_wire.specs.declared.route.Route.{Route as ARoute};

    ghost Value = { List ARoute };

    ghost view = { λ r. routes_in r.router };

    ghost invariant = { λ r. r.router ≡ rows_of routes };
}

impl Routes {
    /// Inserts each route into a router. No two of them conflict, so this fails only without memory.
    pub fn new(alloc: Global) -> Result<Routes, AllocError>
        ensures { IfOk result (λ made. made ≡ routes) }
    {
        let mut router = Router::new(alloc);
        for route in Route::ALL {
            if let Err(error) = router.insert(route.template(), route) {
                match error {
                    InsertError::OutOfMemory => return Err(AllocError),
                    _ => unreachable!(),
                }
            }
        }
        Ok(Routes { router })
    }
}

impl RouteFinder for Routes {
    fn find(&self, path: &str) -> Option<Route> {
        match self.router.at(path) {
            Ok(found) => Some(*found.value),
            Err(_) => None,
        }
    }
}

/// How many bytes come before the next slash.
pub(crate) fn part_length(path: &[u8]) -> usize
    ensures value { result ≡ part_length path.now }
    ensures within { result ≤ length path.now }
{
    path.iter().position(|b| *b == b'/').unwrap_or(path.len())
}
