// The line that tells where the program listens.
ghost use Rattle.std.specs.Prelude.{◌≡◌, IfOk};
ghost use Rattle.lab_line.specs.Texts as spec;

use engine_text::{NoMemory, Text};
use std::alloc::Global;

/// The starting line: the ports of both doors, the seed of ids, and the moment of the opening.
pub fn starting_line(
    alloc: Global,
    listening: u16,
    control: u16,
    seed: &[u8; 32],
    moment: u64,
) -> Result<Text, NoMemory>
    ensures { IfOk result
        (λ line. line ≡ spec.starting_line listening control seed.now moment) }
{
    let digits = hex::encode(alloc, seed.as_slice())?;
    let seed = digits.as_str();
    let line = format!(in alloc;
        "{{\"listening\":\"127.0.0.1:{listening}\",\"control\":\"127.0.0.1:{control}\",\"seed\":\"{seed}\",\"moment\":{moment}}}\n"
    )?;
    Ok(Text::from_string(line))
}
