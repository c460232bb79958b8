// The texts of refusals.
ghost use Rattle.std.specs.Prelude.{◌≡◌, ◌++◌, IfOk};
ghost use Rattle.machine_model.specs.Refusals as spec;

use crate::texts::join;
use engine_text::{NoMemory, Text};
use std::alloc::Global;

/// No image of that name is there.
pub fn no_such_image(alloc: Global, image: &str) -> Result<Text, NoMemory>
    ensures { IfOk result (λ t. t ≡ spec.no_such_image image.now) }
{
    join(alloc, "No such image: ", image, "")
}

/// Another container has the name.
pub fn name_conflict(alloc: Global, name: &str, id: &str) -> Result<Text, NoMemory>
    ensures { IfOk result (λ t. t ≡ spec.name_conflict name.now id.now) }
{
    let front = join(
        alloc,
        "Conflict. The container name \"/",
        name,
        "\" is already in use by container \"",
    )?;
    join(
        alloc,
        front.as_str(),
        id,
        "\". You have to remove (or rename) that container to be able to reuse that name.",
    )
}

/// No container has that reference.
pub fn no_such_container(alloc: Global, reference: &str) -> Result<Text, NoMemory>
    ensures { IfOk result (λ t. t ≡ spec.no_such_container reference.now) }
{
    join(alloc, "No such container: ", reference, "")
}

/// The ids of several containers begin with that reference.
pub fn many_found(alloc: Global, reference: &str) -> Result<Text, NoMemory>
    ensures { IfOk result (λ t. t ≡ spec.many_found reference.now) }
{
    join(
        alloc,
        "multiple IDs found with provided prefix: ",
        reference,
        "",
    )
}

/// A paused container isn't started.
pub fn start_of_paused(alloc: Global) -> Result<Text, NoMemory>
    ensures { IfOk result (λ t. t ≡ spec.start_of_paused) }
{
    Text::of(
        alloc,
        "cannot start a paused container, try unpause instead",
    )
}

/// A container is being removed.
pub fn being_removed(alloc: Global, id: &str) -> Result<Text, NoMemory>
    ensures { IfOk result (λ t. t ≡ spec.being_removed id.now) }
{
    join(
        alloc,
        "removal of container ",
        id,
        " is already in progress",
    )
}

/// A container is dead.
pub fn dead(alloc: Global, id: &str) -> Result<Text, NoMemory>
    ensures { IfOk result (λ t. t ≡ spec.dead id.now) }
{
    join(alloc, "Container ", id, " is dead")
}

/// The words name no program.
pub fn unknown_command(alloc: Global, word: &str) -> Result<Text, NoMemory>
    ensures { IfOk result (λ t. t ≡ spec.unknown_command word.now) }
{
    join(alloc, "unknown command: ", word, "")
}

/// A container doesn't run.
pub fn not_running(alloc: Global, id: &str) -> Result<Text, NoMemory>
    ensures { IfOk result (λ t. t ≡ spec.not_running id.now) }
{
    join(alloc, "Container ", id, " is not running")
}

/// A rename to the name that the container has.
pub fn same_name(alloc: Global) -> Result<Text, NoMemory>
    ensures { IfOk result (λ t. t ≡ spec.same_name) }
{
    Text::of(alloc, "same name")
}

/// A container that is removed by itself isn't restarted.
pub fn auto_remove_excludes(alloc: Global) -> Result<Text, NoMemory>
    ensures { IfOk result (λ t. t ≡ spec.auto_remove_excludes) }
{
    Text::of(alloc, "AutoRemove excludes a restart policy")
}

/// A container that runs isn't removed without force.
pub fn running_removal(alloc: Global, id: &str) -> Result<Text, NoMemory>
    ensures { IfOk result (λ t. t ≡ spec.running_removal id.now) }
{
    join(
        alloc,
        "You cannot remove a running container ",
        id,
        ". Stop the container before attempting removal or force remove",
    )
}

/// The removal of a container took too long.
pub fn removal_timed_out(alloc: Global, id: &str) -> Result<Text, NoMemory>
    ensures { IfOk result (λ t. t ≡ spec.removal_timed_out id.now) }
{
    join(alloc, "removal of container ", id, " timed out")
}

/// A container isn't paused.
pub fn not_paused(alloc: Global, id: &str) -> Result<Text, NoMemory>
    ensures { IfOk result (λ t. t ≡ spec.not_paused id.now) }
{
    join(alloc, "Container ", id, " is not paused")
}

/// A container is restarting.
pub fn restarting(alloc: Global, id: &str) -> Result<Text, NoMemory>
    ensures { IfOk result (λ t. t ≡ spec.restarting id.now) }
{
    join(
        alloc,
        "Container ",
        id,
        " is restarting, wait until the container is running",
    )
}

/// A container is paused.
pub fn already_paused(alloc: Global, id: &str) -> Result<Text, NoMemory>
    ensures { IfOk result (λ t. t ≡ spec.already_paused id.now) }
{
    join(alloc, "Container ", id, " is already paused")
}

/// A paused container has no new execs.
pub fn paused(alloc: Global, id: &str) -> Result<Text, NoMemory>
    ensures { IfOk result (λ t. t ≡ spec.paused id.now) }
{
    join(
        alloc,
        "Container ",
        id,
        " is paused, unpause the container first",
    )
}

/// No exec has that id.
pub fn no_such_exec(alloc: Global, id: &str) -> Result<Text, NoMemory>
    ensures { IfOk result (λ t. t ≡ spec.no_such_exec id.now) }
{
    join(alloc, "No such exec instance: ", id, "")
}

/// An exec starts once.
pub fn exec_already_started(alloc: Global, id: &str) -> Result<Text, NoMemory>
    ensures { IfOk result (λ t. t ≡ spec.exec_already_started id.now) }
{
    join(alloc, "exec ", id, " has already started")
}

/// No volume has that name.
pub fn no_such_volume(alloc: Global, name: &str) -> Result<Text, NoMemory>
    ensures { IfOk result (λ t. t ≡ spec.no_such_volume name.now) }
{
    join(alloc, "get ", name, ": no such volume")
}

/// A container refers to the volume.
pub fn volume_in_use(alloc: Global, name: &str) -> Result<Text, NoMemory>
    ensures { IfOk result (λ t. t ≡ spec.volume_in_use name.now) }
{
    join(alloc, "remove ", name, ": volume is in use")
}
