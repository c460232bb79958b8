// Networks as they are told.
ghost use Rattle.std.specs.Prelude.{◌≡◌, IfOk};
ghost use Rattle.lab_networks.specs.Shown as spec;

use crate::known::{Fixed, fixed_driver, fixed_id, fixed_name};
use crate::made::Made;
use engine_text::{NoMemory, Text};
use std::alloc::Global;

/// A network of this name, driver and id.
fn network_text(alloc: Global, name: &str, driver: &str, id: &str) -> Result<Text, NoMemory>
    ensures { IfOk result (λ t. t ≡ spec.network_text name.now driver.now id.now) }
{
    let text = format!(in alloc;
        "{{\"Attachable\":false,\"ConfigFrom\":{{\"Network\":\"\"}},\"ConfigOnly\":false,\"Containers\":{{}},\"Created\":\"1970-01-01T00:00:00Z\",\"Driver\":\"{driver}\",\"EnableIPv6\":false,\"IPAM\":{{\"Config\":[],\"Driver\":\"default\",\"Options\":null}},\"Id\":\"{id}\",\"Ingress\":false,\"Internal\":false,\"Labels\":{{}},\"Name\":\"{name}\",\"Options\":{{}},\"Scope\":\"local\"}}"
    )?;
    Ok(Text::from_string(text))
}

/// One of the three.
pub(crate) fn fixed_text(alloc: Global, which: Fixed) -> Result<Text, NoMemory>
    ensures { IfOk result (λ t. t ≡ spec.fixed_text which) }
{
    network_text(
        alloc,
        fixed_name(which),
        fixed_driver(which),
        fixed_id(which),
    )
}

/// One that was made.
pub(crate) fn made_text(alloc: Global, made: &Made) -> Result<Text, NoMemory>
    ensures { IfOk result (λ t. t ≡ spec.made_text made.now) }
{
    network_text(alloc, made.name(), "bridge", made.id())
}
