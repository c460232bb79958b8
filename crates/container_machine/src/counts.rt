// The moment and the counts of the machine.
ghost use Rattle.std.specs.Prelude.{◌≡◌, ◌≤◌, length};
ghost use Rattle.machine_model.specs.History.{greatest_moment};

use crate::machine::Machine;

impl Machine {
    /// The moment of the last step.
    pub fn now(&self) -> u64
        ensures clock { result ≡ self.now.memory.state.clock }
        ensures greatest { result ≤ greatest_moment }
    {
        self.kept();
        self.tables.clock()
    }

    /// How many steps there were.
    pub fn steps(&self) -> u64
        ensures { result ≡ self.now.memory.state.step_count }
    {
        self.tables.steps()
    }

    /// How many calls there were.
    pub fn calls(&self) -> u64
        ensures { result ≡ self.now.memory.state.call_count }
    {
        self.tables.calls()
    }

    /// How many tickets stand.
    pub fn ticket_count(&self) -> u64
        ensures { result ≡ length self.now.memory.state.tickets }
    {
        self.tables.open_tickets()
    }

    /// How many containers there are.
    pub fn container_count(&self) -> u64
        ensures { result ≡ length self.now.memory.state.containers }
    {
        self.tables.containers() as u64
    }
}
