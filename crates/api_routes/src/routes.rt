// The class of a request.
ghost use Rattle.std.specs.Prelude.{◌≡◌, IfOk};
ghost use Rattle.http_edge.specs.Reader.{request_of};
ghost use Rattle.route_laws.specs.Segments.{segments};
ghost use Rattle.api_routes.specs.Class as spec;
ghost use Rattle.api_routes.specs.Routes.{method_of, route_for};
ghost use Rattle.api_routes.specs.Reading.{Reads};

use crate::path::{cut_at, parameter};
use crate::refused::Refused;
use crate::route_class::route_class;
use crate::table::Table;
use crate::version::behind_version;
use crate::{Class, DirectAnswer, DirectKind, Fault, Method, Route};
use engine_text::NoMemory;
use http_edge::RequestView;
use std::alloc::Global;

/// The table of routes.
#[derive(Drop)]
pub struct Routes {
    table: Table,
}

// The answer that tells a fault.
fn refusal(alloc: Global, fault: &Fault) -> Result<Class, NoMemory>
    ensures { IfOk result (λ c. c ≡ spec.refusal fault.now) }
{
    Ok(Class::Direct(DirectAnswer {
        status: fault.status(),
        text: fault.message(alloc)?,
        kind: DirectKind::Message,
    }))
}

impl Routes {
    /// The routes of the API; the one memory that classifying keeps.
    pub fn new(alloc: Global) -> Result<Routes, NoMemory> {
        match Table::new(alloc) {
            Ok(table) => Ok(Routes { table }),
            Err(_) => Err(NoMemory),
        }
    }

    // The route of a request.
    fn route_of(&self, method: &str, path: &str) -> Result<Route, Refused>
        ensures { Reads result
            (spec.or_not_found (route_for (method_of method.now) (segments path.now))) }
    {
        let Some(method) = Method::of(method) else {
            return Err(Refused::Fault(Fault::PageNotFound));
        };
        match self.table.route_of(method, path) {
            Some(route) => Ok(route),
            None => Err(Refused::Fault(Fault::PageNotFound)),
        }
    }

    // The class of a request, or its first fault.
    fn read_class(
        &self,
        alloc: Global,
        method: &str,
        target: &str,
        body: &[u8],
        upgrade: bool,
    ) -> Result<Class, Refused>
        ensures { Reads result (spec.read_class method.now target.now body.now upgrade) }
    {
        let (path, query) = cut_at(target, '?');
        let path = behind_version(alloc, path)?;
        let route = self.route_of(method, path)?;
        let name = parameter(alloc, path)?;
        route_class(alloc, route, name, query, body, upgrade)
    }

    // The class of a request by its parts.
    fn class_of(
        &self,
        alloc: Global,
        method: &str,
        target: &str,
        body: &[u8],
        upgrade: bool,
    ) -> Result<Class, NoMemory>
        ensures { IfOk result (λ c. c ≡ spec.or_refusal
            (spec.read_class method.now target.now body.now upgrade)) }
    {
        match self.read_class(alloc, method, target, body, upgrade) {
            Ok(class) => Ok(class),
            Err(Refused::Fault(fault)) => refusal(alloc, &fault),
            Err(Refused::NoMemory) => Err(NoMemory),
        }
    }

    /// The class of a request: by its version, method, path, query and body.
    #[tactic(auto, unfolding(crate::specs::Class::class_of))]
    pub fn classify(&self, alloc: Global, request: &RequestView<'_>) -> Result<Class, NoMemory>
        ensures { IfOk result (λ c. c ≡ spec.class_of (request_of request.now)) }
    {
        let (method, target, body) = (request.method(), request.target(), request.body());
        self.class_of(alloc, method, target, body, request.asks_upgrade())
    }
}
