// The first step of each command.
ghost use Rattle.client_model.specs.Client.{plan_of};
ghost use Rattle.engine_client.specs.Places.{Begins, IsTimed};

use crate::asking::{asks, asks_and_prints};
use crate::checking::asks_check;
use crate::onward::Then;
use crate::step::Step;
use client_model::{Command, Fault, Showing};
use client_parts::requests::containers::{
    attach_request, create_request, inspect_request, kill_request, logs_request, pause_request,
    remove_request, rename_request, restart_request, start_request, stop_request, unpause_request,
    update_request, wait_request,
};
use client_parts::requests::execs::exec_create_request;
use client_parts::requests::views::{
    events_request, journal_request, list_request, version_request,
};
use client_parts::requests::volumes::{
    volume_create_request, volume_inspect_request, volume_list_request, volume_remove_request,
};
use std::alloc::Global;

/// The first step of a command.
pub fn begin(alloc: Global, command: &Command) -> Result<Step, Fault>
    requires { IsTimed command.now }
    ensures { Begins result (plan_of command.now) }
{
    // a request whose answer's body is kept, and one whose body is shown, to the end of the command
    macro_rules! kept {
        ($request:ident($($word:expr),*), $place:expr) => {
            asks($request(alloc $(, $word)*), false, Showing::Kept, $place)
        };
    }
    macro_rules! shown {
        ($request:ident($($word:expr),*), $showing:expr) => {
            asks($request(alloc $(, $word)*), false, $showing, Then::Ends { status: 0 })
        };
    }
    macro_rules! printed {
        ($request:ident($($word:expr),*), $line:expr) => {
            asks_and_prints(alloc, $request(alloc $(, $word)*), $line)
        };
    }
    match command {
        Command::Create { container } => kept!(create_request(container), Then::PrintsId),
        Command::Run { container, remove } => kept!(
            create_request(container),
            Then::Starts {
                input: container.input,
                remove: *remove,
            }
        ),
        Command::Start { target } => printed!(start_request(target.as_str()), target),
        Command::Pause { target } => printed!(pause_request(target.as_str()), target),
        Command::Unpause { target } => printed!(unpause_request(target.as_str()), target),
        Command::Stop { target, seconds } => {
            printed!(stop_request(target.as_str(), seconds), target)
        }
        Command::Restart { target, seconds } => {
            printed!(restart_request(target.as_str(), seconds), target)
        }
        Command::Kill { target, signal } => {
            printed!(kill_request(target.as_str(), signal), target)
        }
        Command::Remove { target, force } => {
            printed!(remove_request(target.as_str(), *force), target)
        }
        Command::Rename { target, name } => {
            printed!(rename_request(target.as_str(), name.as_str()), target)
        }
        Command::Update { target, restart } => {
            printed!(update_request(target.as_str(), restart), target)
        }
        Command::List { all } => kept!(list_request(*all), Then::PrintsContainers),
        Command::Inspect { target } => kept!(inspect_request(target.as_str()), Then::PrintsBody),
        Command::Version => kept!(version_request(), Then::PrintsBody),
        Command::Logs { target, follow } => {
            shown!(logs_request(target.as_str(), *follow), Showing::Demuxed)
        }
        Command::Attach { target } => {
            shown!(attach_request(target.as_str(), false), Showing::Demuxed)
        }
        Command::Exec {
            target,
            words,
            input,
        } => kept!(
            exec_create_request(target.as_str(), words.as_slice(), *input),
            Then::Executes { input: *input }
        ),
        Command::Wait { target } => kept!(wait_request(target.as_str()), Then::PrintsCode),
        Command::Events { since, until } => {
            shown!(
                events_request(since.as_str(), until.as_str()),
                Showing::Copied
            )
        }
        Command::Watch { until } => kept!(events_request("0", until.as_str()), Then::PrintsRows),
        Command::Health { until, target } => asks_check(alloc, until, target),
        Command::VolumeCreate { name } => printed!(volume_create_request(name.as_str()), name),
        Command::VolumeInspect { name } => {
            kept!(volume_inspect_request(name.as_str()), Then::PrintsBody)
        }
        Command::VolumeRemove { name } => printed!(volume_remove_request(name.as_str()), name),
        Command::VolumeList => kept!(volume_list_request(), Then::PrintsVolumes),
        Command::Journal => shown!(journal_request(), Showing::Copied),
        Command::Replay {
            upgrade,
            seed,
            moment,
        } => Ok(Step::Judges {
            upgrade: *upgrade,
            seed: *seed,
            moment: *moment,
        }),
    }
}
