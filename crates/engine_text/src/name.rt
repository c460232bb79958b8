// Names of containers and volumes (Docker Engine API v1.43, ContainerCreate, VolumeCreate).
ghost use Rattle.std.specs.Prelude.{◌≡◌};
ghost use Rattle.std.specs.List.{list_all};
ghost use Rattle.engine_text.specs.Texts.{without_slash};
ghost use Rattle.engine_text.specs.Name.{is_alphanumeric, is_name_byte, is_volume_name, is_name};

fn is_alphanumeric(c: u8) -> bool
    ensures { result ≡ is_alphanumeric c }
{
    matches!(c, b'a'..=b'z' | b'A'..=b'Z' | b'0'..=b'9')
}

fn is_name_byte(c: u8) -> bool
    ensures { result ≡ is_name_byte c }
{
    is_alphanumeric(c) || matches!(c, b'_' | b'.' | b'-')
}

fn are_name_bytes(bytes: &[u8]) -> bool
    ensures { result ≡ list_all is_name_byte bytes.now }
{
    bytes.iter().all(|c| is_name_byte(*c))
}

/// Whether a volume can have this name: a letter or digit of ASCII, and then one or more of these
/// or `_`, `.`, `-`.
pub fn is_volume_name(text: &str) -> bool
    ensures { result ≡ is_volume_name text.now }
{
    match text.as_bytes() {
        [] => false,
        [first, rest @ ..] => is_alphanumeric(*first) && !rest.is_empty() && are_name_bytes(rest),
    }
}

/// Whether a container can have this name: that of a volume, with or without a leading slash.
pub fn is_name(text: &str) -> bool
    ensures { result ≡ is_name text.now }
{
    is_volume_name(without_slash(text))
}

/// The name without one leading slash.
pub fn without_slash(name: &str) -> &str
    ensures { result.now ≡ without_slash name.now }
{
    match name.strip_prefix('/') {
        Some(rest) => rest,
        None => name,
    }
}
