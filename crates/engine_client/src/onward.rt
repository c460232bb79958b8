// The places that a command can be at.
use client_model::Checked;
use engine_text::Text;

/// What a command does behind an answer that doesn't refuse.
#[derive(Drop)]
pub enum Then {
    /// It ends with this status.
    Ends { status: u8 },
    /// It prints this line.
    Prints { line: Text },
    /// It prints the body.
    PrintsBody,
    /// It prints the id of what was created.
    PrintsId,
    /// It prints a line of each container.
    PrintsContainers,
    /// It prints the name of each volume.
    PrintsVolumes,
    /// It prints a container's exit code.
    PrintsCode,
    /// It prints a line of each container of which the events tell.
    PrintsRows,
    /// `run`: it starts the container that was created.
    Starts { input: bool, remove: bool },
    /// `run`: it attaches to the container that was started.
    Attaches { id: Text, input: bool, remove: bool },
    /// `run`: it waits for the container's end.
    Waits { id: Text, remove: bool },
    /// `run`: it ends with the exit code, and before that removes the container where it is to.
    Removes { id: Text, remove: bool },
    /// `exec`: it starts the exec that was created.
    Executes { input: bool },
    /// `exec`: it asks for the exit code.
    Inspects { id: Text },
    /// `exec`: it ends with the exit code.
    EndsExec,
    /// `health`: it asks for the events of the container, where it has a check.
    AsksEvents { until: Text },
    /// `health`: it prints the changes of health that the events tell, and the health.
    PrintsHealth { until: Text, checked: Checked },
}
