// How far the runs of an owner are.
ghost use Rattle.std.specs.Prelude.{◌≡◌};
ghost use Rattle.machine_model.specs.Streams as spec;
ghost use Rattle.call_plans.specs.Runs.{run_in};

use engine_text::Owner;
use machine_effects::Tables;

/// How far a run is: its process comes, lives or is over.
#[derive(Clone, Copy, PartialEq, Eq, Debug, Drop)]
pub enum Run {
    Coming,
    Live,
    Over,
}

// How many runs have begun, of an owner that stands.
fn runs_begun(tables: &Tables, owner: Owner) -> Option<u64>
    ensures { result ≡ spec.runs_begun owner tables.now.state }
{
    match owner {
        Owner::Container(number) => match tables.numbered(number) {
            Some(h) => Some(h.container.life.starts),
            None => None,
        },
        Owner::Exec(number) => match tables.exec(number) {
            Some(x) => Some(if x.started { 1 } else { 0 }),
            None => None,
        },
    }
}

/// How far the run of the owner is.
pub fn run_of(tables: &Tables, owner: Owner, run: u64) -> Run
    ensures { run_in result ≡ spec.run_state owner run tables.now.state }
{
    match runs_begun(tables, owner) {
        None => Run::Over,
        Some(begun) => {
            if begun < run {
                Run::Coming
            } else if run == begun {
                if tables.stands(owner) {
                    Run::Live
                } else {
                    Run::Over
                }
            } else {
                Run::Over
            }
        }
    }
}
