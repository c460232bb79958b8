// Whether a request can make a call.
ghost use Rattle.std.specs.Prelude.{◌≡◌, ◌&&◌};
ghost use Rattle.engine_text.specs.Soundness as spec;
ghost use Rattle.journal_lines.specs.CallFields.{fields_of, do_fields_agree};
ghost use Rattle.journal_lines.specs.Fields.{are_fields_sound};

use super::fields::are_fields_sound;
use engine_text::Call;

// What no field tells alone: what is removed by itself is never restarted, and logs ask for at
// least one stream.
fn do_fields_agree(call: &Call) -> bool
    ensures { result ≡ do_fields_agree call.now }
{
    match call {
        Call::Create(create) => !create.auto_remove || create.policy.is_no(),
        Call::Logs { ask, .. } => ask.out || ask.err,
        _ => true,
    }
}

/// Whether a call's values lie within what a request can give.
#[tactic(auto, using(crate::proofs::CallLemmas::sound_by_field))]
pub fn is_sound(call: &Call) -> bool
    ensures { result ≡ spec.is_sound call.now }
{
    are_fields_sound(call) && do_fields_agree(call)
}

/// A law: a request can make a call where it can give each of its fields, and they agree.
#[tactic(auto, using(crate::proofs::CallLemmas::sound_by_field))]
pub fn law_sound_by_fields(call: &Call)
    ensures { spec.is_sound call.now
        ≡ (are_fields_sound (fields_of call.now) && do_fields_agree call.now) }
{
    let _ = call;
}
