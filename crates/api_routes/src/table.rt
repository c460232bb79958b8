// The routers of the table of routes, one a method.
ghost use Rattle.std.specs.Prelude.{◌≡◌, IfOk};
ghost use Rattle.route_laws.specs.Segments.{segments, row_for, IsRouterOf};
ghost use Rattle.api_routes.specs.Routes as spec;

use crate::{Method, Route};
use matchit::{InsertError, Router};
use route_laws::{add, row_of};
use std::alloc::Global;

// The routes of GET.
fn get_routes(alloc: Global) -> Result<Router<Route>, InsertError>
    ensures { IfOk result (λ r. IsRouterOf spec.get_table r) }
{
    let mut router = Router::new(alloc);
    add(&mut router, "/_ping", Route::Ping)?;
    add(&mut router, "/version", Route::Version)?;
    add(&mut router, "/containers/json", Route::List)?;
    add(&mut router, "/containers/{ref}/json", Route::Inspect)?;
    add(&mut router, "/containers/{ref}/logs", Route::Logs)?;
    add(&mut router, "/exec/{id}/json", Route::ExecInspect)?;
    add(&mut router, "/volumes", Route::VolumeList)?;
    add(&mut router, "/volumes/{name}", Route::VolumeInspect)?;
    add(&mut router, "/events", Route::Events)?;
    add(&mut router, "/engine/journal", Route::Journal)?;
    Ok(router)
}

// The routes of HEAD.
fn head_routes(alloc: Global) -> Result<Router<Route>, InsertError>
    ensures { IfOk result (λ r. IsRouterOf spec.head_table r) }
{
    let mut router = Router::new(alloc);
    add(&mut router, "/_ping", Route::PingHead)?;
    Ok(router)
}

// The routes of POST.
fn post_routes(alloc: Global) -> Result<Router<Route>, InsertError>
    ensures { IfOk result (λ r. IsRouterOf spec.post_table r) }
{
    let mut router = Router::new(alloc);
    add(&mut router, "/containers/create", Route::Create)?;
    add(&mut router, "/containers/{ref}/start", Route::Start)?;
    add(&mut router, "/containers/{ref}/stop", Route::Stop)?;
    add(&mut router, "/containers/{ref}/restart", Route::Restart)?;
    add(&mut router, "/containers/{ref}/kill", Route::Kill)?;
    add(&mut router, "/containers/{ref}/pause", Route::Pause)?;
    add(&mut router, "/containers/{ref}/unpause", Route::Unpause)?;
    add(&mut router, "/containers/{ref}/rename", Route::Rename)?;
    add(&mut router, "/containers/{ref}/update", Route::Update)?;
    add(&mut router, "/containers/{ref}/wait", Route::Wait)?;
    add(&mut router, "/containers/{ref}/attach", Route::Attach)?;
    add(&mut router, "/containers/{ref}/exec", Route::ExecCreate)?;
    add(&mut router, "/exec/{id}/start", Route::ExecStart)?;
    add(&mut router, "/volumes/create", Route::VolumeCreate)?;
    Ok(router)
}

// The routes of DELETE.
fn delete_routes(alloc: Global) -> Result<Router<Route>, InsertError>
    ensures { IfOk result (λ r. IsRouterOf spec.delete_table r) }
{
    let mut router = Router::new(alloc);
    add(&mut router, "/containers/{ref}", Route::Remove)?;
    add(&mut router, "/volumes/{name}", Route::VolumeRemove)?;
    Ok(router)
}

/// The routers of all methods.
#[derive(Drop)]
pub(crate) struct Table {
    get: Router<Route>,
    head: Router<Route>,
    post: Router<Route>,
    delete: Router<Route>,
    ghost held: { IsRouterOf spec.get_table get × IsRouterOf spec.head_table head
        × IsRouterOf spec.post_table post × IsRouterOf spec.delete_table delete },
}

impl Table {
    /// The routers of the table of routes.
    pub(crate) fn new(alloc: Global) -> Result<Table, InsertError> {
        Ok(Table {
            get: get_routes(alloc)?,
            head: head_routes(alloc)?,
            post: post_routes(alloc)?,
            delete: delete_routes(alloc)?,
        })
    }

    /// The route that a method's path fits segment by segment.
    pub(crate) fn route_of(&self, method: Method, path: &str) -> Option<Route>
        ensures { result ≡ row_for (spec.table_of method) (segments path.now) }
    {
        match method {
            Method::Get => row_of(&self.get, path),
            Method::Head => row_of(&self.head, path),
            Method::Post => row_of(&self.post, path),
            Method::Delete => row_of(&self.delete, path),
        }
    }
}

/// No request fits two routes, and the route that is given is the one that it fits.
pub fn law_one_route_fits()
    ensures { spec.OneRouteFits }
{}
