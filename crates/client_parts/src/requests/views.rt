// Requests that ask of the daemon.
ghost use Rattle.std.specs.Prelude.{◌≡◌, IfOk};
ghost use Rattle.client_model.specs.Requests.{request_bytes};
ghost use Rattle.serde_json.specs.Written.{compact_text};
ghost use Rattle.client_model.specs.Commands.Events as events;
ghost use Rattle.client_model.specs.Commands.Health as health;
ghost use Rattle.client_model.specs.Commands.Journal as journal;
ghost use Rattle.client_model.specs.Commands.List as list;
ghost use Rattle.client_model.specs.Commands.Version as version;

use super::bodies::filter_value;
use super::keys::{key, key_set};
use super::written::get;
use engine_text::{NoMemory, Pairs, Text};
use std::alloc::Global;

/// `GET /version`.
pub fn version_request(alloc: Global) -> Result<Vec<u8>, NoMemory>
    ensures { IfOk result (λ r. r.items ≡ request_bytes version.version_request) }
{
    get(alloc, &["version"], &[])
}

/// `GET /engine/journal`.
pub fn journal_request(alloc: Global) -> Result<Vec<u8>, NoMemory>
    ensures { IfOk result (λ r. r.items ≡ request_bytes journal.journal_request) }
{
    get(alloc, &["engine", "journal"], &[])
}

/// `GET /containers/json`.
pub fn list_request(alloc: Global, all: bool) -> Result<Vec<u8>, NoMemory>
    ensures { IfOk result (λ r. r.items ≡ request_bytes (list.list_request all)) }
{
    let mut query = Pairs::new(alloc);
    key_set(alloc, &mut query, "all", all)?;
    get(alloc, &["containers", "json"], query.as_slice())
}

/// `GET /events?since=SINCE&until=UNTIL`.
pub fn events_request(alloc: Global, since: &str, until: &str) -> Result<Vec<u8>, NoMemory>
    ensures { IfOk result
        (λ r. r.items ≡ request_bytes (events.events_request since.now until.now)) }
{
    let mut query = Pairs::new(alloc);
    key(alloc, &mut query, "since", since)?;
    key(alloc, &mut query, "until", until)?;
    get(alloc, &["events"], query.as_slice())
}

/// The text of the filter of a container's events.
fn filter_text(alloc: Global, id: &str) -> Result<Text, NoMemory>
    ensures { IfOk result (λ t. t ≡ compact_text (health.container_filter id.now)) }
{
    let filter = filter_value(alloc, id)?;
    Ok(Text::from_string(filter.to_string(alloc)?))
}

/// `GET /events?since=0&until=UNTIL&filters=..`, of the container with that id.
pub fn container_events_request(alloc: Global, until: &str, id: &str) -> Result<Vec<u8>, NoMemory>
    ensures { IfOk result
        (λ r. r.items ≡ request_bytes (health.container_events_request until.now id.now)) }
{
    let filter = filter_text(alloc, id)?;
    let mut query = Pairs::new(alloc);
    key(alloc, &mut query, "since", "0")?;
    key(alloc, &mut query, "until", until)?;
    key(alloc, &mut query, "filters", filter.as_str())?;
    get(alloc, &["events"], query.as_slice())
}
