// The words for kinds and actions, and the attributes of events (own: which attributes).
ghost use Rattle.std.specs.Prelude.{◌≡◌, ◌≤◌, [], ◌∷◌};
ghost use Rattle.engine_text.specs.Texts.{same_bytes};
ghost use Rattle.api_json.specs.EventRules as spec;

use engine_text::{Action, EventKind, Pair};

/// The word for a kind.
pub fn kind_word(kind: EventKind) -> &'static str
    ensures { result.now ≡ spec.kind_word kind }
{
    match kind {
        EventKind::Container => "container",
        EventKind::Volume => "volume",
    }
}

/// The word for an action.
pub fn action_word(action: Action) -> &'static str
    ensures { result.now ≡ spec.action_word action }
{
    match action {
        Action::Create => "create",
        Action::Start => "start",
        Action::Kill => "kill",
        Action::Die => "die",
        Action::Stop => "stop",
        Action::Restart => "restart",
        Action::Pause => "pause",
        Action::Unpause => "unpause",
        Action::Rename => "rename",
        Action::Destroy => "destroy",
        Action::Attach => "attach",
        Action::ExecCreate => "exec_create",
        Action::ExecStart => "exec_start",
        Action::ExecDie => "exec_die",
        Action::Mount => "mount",
        Action::Unmount => "unmount",
        Action::Update => "update",
    }
}

/// The kind of a word.
pub fn read_kind(word: &str) -> Option<EventKind>
    ensures { result ≡ spec.kind_of word.now }
{
    match word {
        "container" => Some(EventKind::Container),
        "volume" => Some(EventKind::Volume),
        _ => None,
    }
}

/// The action of a word.
pub fn read_action(word: &str) -> Option<Action>
    ensures { result ≡ spec.action_of word.now }
{
    match word {
        "create" => Some(Action::Create),
        "start" => Some(Action::Start),
        "kill" => Some(Action::Kill),
        "die" => Some(Action::Die),
        "stop" => Some(Action::Stop),
        "restart" => Some(Action::Restart),
        "pause" => Some(Action::Pause),
        "unpause" => Some(Action::Unpause),
        "rename" => Some(Action::Rename),
        "destroy" => Some(Action::Destroy),
        "attach" => Some(Action::Attach),
        "exec_create" => Some(Action::ExecCreate),
        "exec_start" => Some(Action::ExecStart),
        "exec_die" => Some(Action::ExecDie),
        "mount" => Some(Action::Mount),
        "unmount" => Some(Action::Unmount),
        "update" => Some(Action::Update),
        _ => None,
    }
}

fn has_key(pair: &Pair, key: &str) -> bool
    ensures { result ≡ same_bytes pair.now.key key.now }
{
    pair.key.as_str() == key
}

fn one_key(pairs: &[Pair], a: &str) -> bool
    ensures { result ≡ spec.has_keys (a.now ∷ []) pairs.now }
{
    let [p] = pairs else {
        return false;
    };
    has_key(p, a)
}

fn two_keys(pairs: &[Pair], a: &str, b: &str) -> bool
    ensures { result ≡ spec.has_keys (a.now ∷ b.now ∷ []) pairs.now }
{
    let [p, rest @ ..] = pairs else {
        return false;
    };
    has_key(p, a) && one_key(rest, b)
}

fn three_keys(pairs: &[Pair], a: &str, b: &str, c: &str) -> bool
    ensures { result ≡ spec.has_keys (a.now ∷ b.now ∷ c.now ∷ []) pairs.now }
{
    let [p, rest @ ..] = pairs else {
        return false;
    };
    has_key(p, a) && two_keys(rest, b, c)
}

fn four_keys(pairs: &[Pair], a: &str, b: &str, c: &str, d: &str) -> bool
    ensures { result ≡ spec.has_keys (a.now ∷ b.now ∷ c.now ∷ d.now ∷ []) pairs.now }
{
    let [p, rest @ ..] = pairs else {
        return false;
    };
    has_key(p, a) && three_keys(rest, b, c, d)
}

fn container_keys_fit(action: Action, pairs: &[Pair]) -> bool
    ensures { result ≡ spec.keys_fit (spec.container_keys action) pairs.now }
{
    match action {
        Action::Kill => three_keys(pairs, "image", "name", "signal"),
        Action::Die => three_keys(pairs, "exitCode", "image", "name"),
        Action::Rename => three_keys(pairs, "image", "name", "oldName"),
        Action::ExecCreate | Action::ExecStart => three_keys(pairs, "execID", "image", "name"),
        Action::ExecDie => four_keys(pairs, "execID", "exitCode", "image", "name"),
        Action::Mount | Action::Unmount => false,
        _ => two_keys(pairs, "image", "name"),
    }
}

fn volume_keys_fit(action: Action, pairs: &[Pair]) -> bool
    ensures { result ≡ spec.keys_fit (spec.volume_keys action) pairs.now }
{
    match action {
        Action::Create | Action::Destroy => one_key(pairs, "driver"),
        Action::Mount | Action::Unmount => two_keys(pairs, "container", "driver"),
        _ => false,
    }
}

fn keys_fit(kind: EventKind, action: Action, pairs: &[Pair]) -> bool
    ensures { result ≡ spec.keys_fit (spec.attribute_keys kind action) pairs.now }
{
    match kind {
        EventKind::Container => container_keys_fit(action, pairs),
        EventKind::Volume => volume_keys_fit(action, pairs),
    }
}

// Whether the text is a number below the limit in decimal.
fn is_decimal_below(limit: u16, text: &str) -> bool
    ensures { result ≡ spec.is_decimal_below limit text.now }
{
    let Ok(n) = text.parse::<u16>() else {
        return false;
    };
    if n >= limit {
        return false;
    }
    let mut buffer = itoa::Buffer::new();
    buffer.format(n) == text
}

fn value_fits(key: &str, value: &str) -> bool
    ensures { result ≡ spec.value_fits key.now value.now }
{
    if key == "exitCode" {
        return is_decimal_below(256, value);
    }
    if key == "signal" {
        return is_decimal_below(32, value) && value != "0";
    }
    if key == "driver" {
        return value == "local";
    }
    true
}

fn values_fit(pairs: &[Pair]) -> bool
    ensures { result ≡ spec.values_fit pairs.now }
{
    'pairs: for pair in pairs {
        if !value_fits(pair.key.as_str(), pair.value.as_str()) {
            return false;
        }
    }
    true
}

/// Whether an event of this kind and action has these attributes.
pub fn attributes_fit(kind: EventKind, action: Action, pairs: &[Pair]) -> bool
    ensures { result ≡ spec.attributes_fit kind action pairs.now }
{
    keys_fit(kind, action, pairs) && values_fit(pairs)
}
