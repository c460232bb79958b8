// What tells the class of a request.
ghost use Rattle.std.specs.Prelude.{◌≡◌, IfOk};
ghost use Rattle.std.specs.Thread.{IsSync};
ghost use Rattle.http_edge.specs.Reader.{request_of};
ghost use Rattle.api_routes.specs.Class.{class_of};
ghost use Rattle.api_routes.specs.contracts.routes.Routes.{the_row};

use api_routes::{Class, Routes};
use engine_text::NoMemory;
use http_edge::RequestView;
use std::alloc::Global;

/// The API's routes, by which a session tells requests apart. Sessions in several threads may share one
/// table of them.
pub trait Routing: Sync {
    /// The class of a request, or there was no memory for it.
    fn class(&self, alloc: Global, request: &RequestView<'_>) -> Result<Class, NoMemory>
        ensures { IfOk result (λ c. c ≡ class_of (request_of request.now)) };
}

impl Routing for Routes {
    fn class(&self, alloc: Global, request: &RequestView<'_>) -> Result<Class, NoMemory> {
        self.classify(alloc, request)
    }
}

// Routes that threads may share.
fn are_shared<N: Routing>(routes: &N)
    ensures { IsSync N.row }
{
    let _ = routes;
}

/// Threads may share the API's routes: what is found here, of no other parameter, a caller with many hands on.
pub fn law_routes_are_shared(routes: &Routes)
    ensures { IsSync the_row }
{
    are_shared(routes)
}
