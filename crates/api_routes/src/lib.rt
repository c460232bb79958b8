//! What answers a request: the class by its method, path, query and body.
#![tactic(auto)]

mod body;
mod class;
mod containers;
mod execs;
mod fault;
mod keys;
mod laws;
mod logs;
mod method;
mod names;
mod numeral;
mod path;
mod query;
mod refused;
mod route;
mod route_class;
mod routes;
mod table;
mod time;
mod version;

pub use class::{Class, DirectAnswer, DirectKind, Takeover};
pub use fault::Fault;
pub use laws::{law_class_calls, law_direct_statuses};
pub use method::Method;
pub use numeral::number_of;
pub use route::Route;
pub use routes::Routes;
pub use table::law_one_route_fits;
