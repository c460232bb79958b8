// What is shown beside what the daemon tells.
ghost use Rattle.std.specs.Prelude.{◌≡◌, ◌≤◌, length};
ghost use Rattle.lab_shown.specs.Texts as spec;

/// The first members of the container.
#[tactic(auto, unfolding(crate::specs::Texts::own_members))]
pub(crate) fn own_members() -> &'static [u8]
    ensures text { result.now ≡ spec.own_members }
    ensures short { length result.now ≤ 512 }
{
    b"{\"Driver\":\"vfs\",\
      \"ImageID\":\"sha256:dc2452a28ddfa42c3d90bbaea861195fde1209aa4b1575039c91db3968531778\",\
      \"NetworkSettings\":{\"IPAddress\":\"\",\"Networks\":{},\"Ports\":{}},\"Platform\":\"linux\","
}

/// The key of the host's settings, and the brace behind it.
#[tactic(auto, unfolding(crate::specs::Texts::host_key))]
pub(crate) fn host_key() -> &'static [u8]
    ensures text { result.now ≡ spec.host_key }
    ensures short { length result.now ≤ 512 }
{
    b"\"HostConfig\":{"
}

/// The first members of the host's settings.
#[tactic(auto, unfolding(crate::specs::Texts::host_members))]
pub(crate) fn host_members() -> &'static [u8]
    ensures text { result.now ≡ spec.host_members }
    ensures short { length result.now ≤ 512 }
{
    b"\"LogConfig\":{\"Config\":{},\"Type\":\"json-file\"},\"NetworkMode\":\"default\","
}
