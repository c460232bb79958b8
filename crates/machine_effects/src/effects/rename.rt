// The name of a container.
ghost use Rattle.std.specs.Prelude.{◌≡◌, None};
ghost use Rattle.machine_model.specs.Calls.Rename.{named};
ghost use Rattle.machine_model.specs.Names.{holder};
ghost use Rattle.machine_model.specs.State.{change_container};

use crate::tables::Tables;
use engine_text::Text;

impl Tables {
    /// The container has that name, which no container has.
    pub fn rename(&mut self, number: u64, name: Text)
        requires { holder name self.old.state.containers ≡ None }
        ensures state { self.new.state ≡ change_container number (named name) self.old.state }
        ensures room { self.new.room ≡ self.old.room }
        ensures spare { self.new.spare ≡ self.old.spare }
    {
        self.table.rename(number, name);
    }
}
