// What is written of words that are no line.
ghost use Rattle.std.specs.Prelude.{◌≡◌};
ghost use Rattle.lab_line.specs.Texts as spec;

use crate::line::Wrong;
use clap::error::ErrorKind;

/// What `--help` writes.
#[tactic(auto, unfolding(crate::specs::Texts::help))]
pub fn help() -> &'static str
    ensures { result.now ≡ spec.help }
{
    "usage: enginelab [--listen ADDR] [--control ADDR] [--clock CLOCK] [--seed HEX] [--journal N]\n\
     \n\
     ADDR is 127.0.0.1:PORT, where port 0, also without the option, is a free one.\n\
     CLOCK is hand:START, which control alone moves, or START:STEP, which goes on by itself;\n\
     moments are milliseconds since 1970. Without it the clock is the system's.\n\
     HEX is the seed of ids, 64 hexadecimal digits, and zeros without it.\n\
     N is the most entries of the journal, up to 16777216, and 4194304 without it.\n"
}

/// What `--version` writes.
pub fn version() -> &'static str
    ensures { result.now ≡ spec.version }
{
    "enginelab 1.0.0\n"
}

/// Why clap refuses words.
fn words_reason(kind: ErrorKind) -> &'static str
    ensures { result.now ≡ spec.words_reason kind }
{
    match kind {
        ErrorKind::UnknownArgument => "enginelab: a word is no option\n",
        ErrorKind::ArgumentConflict => "enginelab: an option stands twice\n",
        ErrorKind::InvalidValue => "enginelab: an option lacks its value\n",
        ErrorKind::TooManyValues => "enginelab: --help and --version take no value\n",
        ErrorKind::InvalidSubcommand
        | ErrorKind::NoEquals
        | ErrorKind::ValueValidation
        | ErrorKind::TooFewValues
        | ErrorKind::WrongNumberOfValues
        | ErrorKind::MissingRequiredArgument
        | ErrorKind::MissingSubcommand
        | ErrorKind::DisplayHelp
        | ErrorKind::DisplayHelpOnMissingArgumentOrSubcommand
        | ErrorKind::DisplayVersion
        | ErrorKind::Io
        | ErrorKind::Format
        | ErrorKind::OutOfMemory => "enginelab: the words are no line\n",
    }
}

/// The line that tells why words are no line.
pub fn reason(wrong: Wrong) -> &'static str
    ensures { result.now ≡ spec.reason wrong }
{
    match wrong {
        Wrong::Words(kind) => words_reason(kind),
        Wrong::Listen => "enginelab: --listen takes 127.0.0.1:PORT\n",
        Wrong::Control => "enginelab: --control takes 127.0.0.1:PORT\n",
        Wrong::Clock =>
            "enginelab: --clock takes hand:START or START:STEP, each at most 9000000000000\n",
        Wrong::Seed => "enginelab: --seed takes 64 hexadecimal digits\n",
        Wrong::Journal => "enginelab: --journal takes a number from 1 to 16777216\n",
    }
}
