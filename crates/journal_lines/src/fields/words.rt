// The words and numbers of a field's own.
ghost use Rattle.std.specs.Prelude.{◌≡◌, option_copied, option_map};
ghost use Rattle.machine_model.specs.State as machine;
ghost use Rattle.api_json.specs.Container as container;
ghost use Rattle.journal_lines.specs.CallFields as table;

use engine_text::{Owner, Policy, Until};

/// The name of a policy.
pub fn policy_word(policy: Policy) -> &'static str
    ensures { result.now ≡ container.policy_word policy }
{
    match policy {
        Policy::No => "no",
        Policy::Always => "always",
        Policy::UnlessStopped => "unless-stopped",
        Policy::OnFailure(_) => "on-failure",
    }
}

/// How often it is tried again at most.
pub fn most_retries(policy: Policy) -> u64
    ensures { result ≡ container.most_retries policy }
{
    match policy {
        Policy::OnFailure(most) => most as u64,
        Policy::No | Policy::Always | Policy::UnlessStopped => 0,
    }
}

/// The name of a policy, if one is given.
pub fn policy_if_given(policy: Option<Policy>) -> Option<&'static str>
    ensures { option_copied result ≡ option_map container.policy_word policy }
{
    match policy {
        None => None,
        Some(policy) => Some(policy_word(policy)),
    }
}

/// How often it is tried again at most, if one is given.
pub fn retries_if_given(policy: Option<Policy>) -> Option<u64>
    ensures { result ≡ option_map container.most_retries policy }
{
    match policy {
        None => None,
        Some(policy) => Some(most_retries(policy)),
    }
}

/// What a wait waits for.
pub fn condition_word(until: Until) -> &'static str
    ensures { result.now ≡ table.condition_word until }
{
    match until {
        Until::NotRunning => "not-running",
        Until::NextExit => "next-exit",
        Until::Removed => "removed",
    }
}

/// Whose input it is.
pub fn kind_of_owner(owner: Owner) -> &'static str
    ensures { result.now ≡ table.kind_of_owner owner }
{
    match owner {
        Owner::Container(_) => "container",
        Owner::Exec(_) => "exec",
    }
}

/// Its number.
pub fn owner_number(owner: Owner) -> u64
    ensures { result ≡ machine.owner_number owner }
{
    match owner {
        Owner::Container(number) => number,
        Owner::Exec(number) => number,
    }
}
