// The class of each route's request.
ghost use Rattle.std.specs.Prelude.{◌≡◌, IfOk};
ghost use Rattle.api_routes.specs.RouteClass as spec;
ghost use Rattle.api_routes.specs.Reading.{Reads};

use crate::body::exec_start_body;
use crate::containers::{
    create_call, kill_call, list_call, remove_call, rename_call, restart_call, stop_call,
    update_call, wait_call,
};
use crate::execs::{exec_create_call, volume_create_call, volume_list_call};
use crate::logs::{attach_ask, events_call, logs_call};
use crate::refused::Refused;
use crate::{Class, DirectAnswer, DirectKind, Route, Takeover};
use engine_text::{Call, NoMemory, Text};
use std::alloc::Global;

/// The body of the version.
const VERSION_BODY: &str =
    "{\"ApiVersion\":\"1.43\",\"Arch\":\"amd64\",\"MinAPIVersion\":\"1.24\",\"Os\":\"linux\",\"Version\":\"1.0.0\"}";

// A fixed answer.
fn fixed(alloc: Global, text: &str, kind: DirectKind) -> Result<Class, NoMemory>
    ensures { IfOk result (λ c. c ≡ spec.fixed text.now kind) }
{
    Ok(Class::Direct(DirectAnswer {
        status: 200,
        text: Text::of(alloc, text)?,
        kind,
    }))
}

// How a stream takes its connection over.
fn takeover(upgrade: bool) -> Takeover
    ensures { result ≡ spec.takeover upgrade }
{
    if upgrade {
        Takeover::Upgrade
    } else {
        Takeover::Plain
    }
}

// The class of an exec start; a detached exec is only answered.
fn exec_start_class(id: Text, upgrade: bool, detach: bool) -> Class
    ensures { result ≡ spec.exec_start_class id upgrade detach }
{
    let call = Call::ExecStart { id, detach };
    if detach {
        Class::Ask(call)
    } else {
        Class::Stream(call, takeover(upgrade))
    }
}

/// The class of a route's request: `name` is the text of the path's parameter.
pub(crate) fn route_class(
    alloc: Global,
    route: Route,
    name: Text,
    query: &str,
    body: &[u8],
    upgrade: bool,
) -> Result<Class, Refused>
    ensures { Reads result (spec.route_class route
        (record { name = name; query = query.now; body = body.now; upgrade = upgrade })) }
{
    match route {
        Route::Ping => Ok(fixed(alloc, "OK", DirectKind::Plain)?),
        Route::PingHead => Ok(fixed(alloc, "OK", DirectKind::Plain)?),
        Route::Version => Ok(fixed(alloc, VERSION_BODY, DirectKind::Json)?),
        Route::Create => Ok(Class::Ask(create_call(alloc, query, body)?)),
        Route::List => Ok(Class::Ask(list_call(alloc, query)?)),
        Route::Inspect => Ok(Class::Ask(Call::Inspect { target: name })),
        Route::Start => Ok(Class::Ask(Call::Start { target: name })),
        Route::Stop => Ok(Class::Ask(stop_call(alloc, name, query)?)),
        Route::Restart => Ok(Class::Ask(restart_call(alloc, name, query)?)),
        Route::Kill => Ok(Class::Ask(kill_call(alloc, name, query)?)),
        Route::Pause => Ok(Class::Ask(Call::Pause { target: name })),
        Route::Unpause => Ok(Class::Ask(Call::Unpause { target: name })),
        Route::Rename => Ok(Class::Ask(rename_call(alloc, name, query)?)),
        Route::Update => Ok(Class::Ask(update_call(alloc, name, body)?)),
        Route::Wait => Ok(Class::Ask(wait_call(alloc, name, query)?)),
        Route::Remove => Ok(Class::Ask(remove_call(alloc, name, query)?)),
        Route::Logs => Ok(Class::Stream(logs_call(alloc, name, query)?, Takeover::None)),
        Route::Attach => {
            let ask = attach_ask(alloc, query)?;
            Ok(Class::Stream(Call::Attach { target: name, ask }, takeover(upgrade)))
        }
        Route::ExecCreate => Ok(Class::Ask(exec_create_call(alloc, name, body)?)),
        Route::ExecStart => {
            let detach = exec_start_body(alloc, body)?;
            Ok(exec_start_class(name, upgrade, detach))
        }
        Route::ExecInspect => Ok(Class::Ask(Call::ExecInspect { id: name })),
        Route::VolumeList => Ok(Class::Ask(volume_list_call(alloc, query)?)),
        Route::VolumeCreate => Ok(Class::Ask(volume_create_call(alloc, body)?)),
        Route::VolumeInspect => Ok(Class::Ask(Call::VolumeInspect { name })),
        Route::VolumeRemove => Ok(Class::Ask(Call::VolumeRemove { name })),
        Route::Events => Ok(Class::Stream(events_call(alloc, query)?, Takeover::None)),
        Route::Journal => Ok(Class::Stream(Call::JournalRead, Takeover::None)),
    }
}
