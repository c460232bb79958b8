// What a word of a drill asks for.
ghost use Rattle.std.specs.Prelude.{◌≡◌, ◌<◌};
ghost use Rattle.drill_model.specs.Requests.{deed_of, box_of, next_box, program_of};

use drill_model::{Deed, Program};

/// The deeds, by a word's lowest digit to base 16.
const DEEDS: [Deed; 16] = [
    Deed::Create,
    Deed::Create,
    Deed::Create,
    Deed::Start,
    Deed::Start,
    Deed::Start,
    Deed::Stop,
    Deed::Kill,
    Deed::Pause,
    Deed::Unpause,
    Deed::Restart,
    Deed::Rename,
    Deed::Remove,
    Deed::RemoveByForce,
    Deed::ListAll,
    Deed::Inspect,
];

/// The programs of creates.
const PROGRAMS: [Program; 4] = [Program::Deaf, Program::Exit, Program::Tick, Program::Flaky];

/// What the word asks for.
pub fn deed_of(word: u32) -> Deed
    ensures { result ≡ deed_of word }
{
    DEEDS[(word % 16) as usize]
}

/// The number of the box that it speaks of.
pub fn box_of(word: u32) -> u32
    ensures { result ≡ box_of word }
{
    word / 16 % 32
}

/// The number of the box behind this one.
pub fn next_box(k: u32) -> u32
    requires { k < 32 }
    ensures { result ≡ next_box k }
{
    (k + 1) % 32
}

/// The program that it creates a container with.
pub fn program_of(word: u32) -> Program
    ensures { result ≡ program_of word }
{
    PROGRAMS[(word / 512 % 4) as usize]
}
