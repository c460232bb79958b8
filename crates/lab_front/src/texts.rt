// What the rows are answered.
ghost use Rattle.std.specs.Prelude.{◌≡◌};
ghost use Rattle.lab_front.specs.Texts as spec;

use crate::left::{left_text, no_swarm_text};
use crate::table::{Network, Row};

/// What the daemon is.
#[tactic(auto, unfolding(crate::specs::Texts::info_text))]
fn info_text() -> &'static str
    ensures { result.now ≡ spec.info_text }
{
    "{\"Architecture\":\"x86_64\",\"Driver\":\"vfs\",\"ID\":\"engined\",\"Images\":1,\
     \"IndexServerAddress\":\"https://index.docker.io/v1/\",\"KernelVersion\":\"\",\
     \"Labels\":[],\"LoggingDriver\":\"json-file\",\"MemTotal\":0,\"NCPU\":1,\
     \"Name\":\"engined\",\"OSType\":\"linux\",\"OperatingSystem\":\"engined\",\
     \"Plugins\":{\"Authorization\":[],\"Log\":[\"json-file\"],\"Network\":[\"bridge\",\
     \"host\",\"null\"],\"Volume\":[\"local\"]},\"RegistryConfig\":{\"IndexConfigs\":{},\
     \"InsecureRegistryCIDRs\":[],\"Mirrors\":[]},\"ServerVersion\":\"1.0.0\",\
     \"Swarm\":{\"ControlAvailable\":false,\"LocalNodeState\":\"inactive\",\"NodeID\":\"\"}}"
}

/// The one image, in a list.
#[tactic(auto, unfolding(crate::specs::Texts::image_list_text))]
fn image_list_text() -> &'static str
    ensures { result.now ≡ spec.image_list_text }
{
    "[{\"Containers\":-1,\"Created\":0,\"Id\":\"sha256:dc2452a28ddfa42c3d90bbaea861195fde1209aa\
     4b1575039c91db3968531778\",\"Labels\":{},\"ParentId\":\"\",\"RepoDigests\":[],\
     \"RepoTags\":[\"engine/tools:latest\"],\"SharedSize\":-1,\"Size\":0,\"VirtualSize\":0}]"
}

/// The one image.
#[tactic(auto, unfolding(crate::specs::Texts::image_text))]
fn image_text() -> &'static str
    ensures { result.now ≡ spec.image_text }
{
    "{\"Architecture\":\"amd64\",\"Author\":\"\",\"Comment\":\"\",\
     \"Config\":{\"AttachStderr\":false,\"AttachStdin\":false,\"AttachStdout\":false,\
     \"Cmd\":[\"hello\"],\"Domainname\":\"\",\"Entrypoint\":null,\"Env\":[],\"Hostname\":\"\",\
     \"Image\":\"\",\"Labels\":{},\"OnBuild\":null,\"OpenStdin\":false,\"StdinOnce\":false,\
     \"Tty\":false,\"User\":\"\",\"Volumes\":null,\"WorkingDir\":\"\"},\"Container\":\"\",\
     \"ContainerConfig\":{\"AttachStderr\":false,\"AttachStdin\":false,\"AttachStdout\":false,\
     \"Cmd\":[\"hello\"],\"Domainname\":\"\",\"Entrypoint\":null,\"Env\":[],\"Hostname\":\"\",\
     \"Image\":\"\",\"Labels\":{},\"OnBuild\":null,\"OpenStdin\":false,\"StdinOnce\":false,\
     \"Tty\":false,\"User\":\"\",\"Volumes\":null,\"WorkingDir\":\"\"},\
     \"Created\":\"1970-01-01T00:00:00Z\",\"DockerVersion\":\"\",\
     \"GraphDriver\":{\"Data\":null,\"Name\":\"vfs\"},\
     \"Id\":\"sha256:dc2452a28ddfa42c3d90bbaea861195fde1209aa4b1575039c91db3968531778\",\
     \"Metadata\":{\"LastTagTime\":\"1970-01-01T00:00:00Z\"},\"Os\":\"linux\",\"Parent\":\"\",\
     \"RepoDigests\":[],\"RepoTags\":[\"engine/tools:latest\"],\"RootFS\":{\"Layers\":[],\
     \"Type\":\"layers\"},\"Size\":0,\"VirtualSize\":0}"
}

/// The one image, fetched.
#[tactic(auto, unfolding(crate::specs::Texts::pulled_text))]
fn pulled_text() -> &'static str
    ensures { result.now ≡ spec.pulled_text }
{
    "{\"status\":\"Pulling from engine/tools\",\"id\":\"latest\"}\r\n\
     {\"status\":\"Status: Image is up to date for engine/tools:latest\"}\r\n"
}

/// The three networks.
#[tactic(auto, unfolding(crate::specs::Texts::network_list_text))]
fn network_list_text() -> &'static str
    ensures { result.now ≡ spec.network_list_text }
{
    "[{\"Attachable\":false,\"ConfigFrom\":{\"Network\":\"\"},\"ConfigOnly\":false,\
     \"Containers\":{},\"Created\":\"1970-01-01T00:00:00Z\",\"Driver\":\"bridge\",\
     \"EnableIPv6\":false,\"IPAM\":{\"Config\":[],\"Driver\":\"default\",\"Options\":null},\
     \"Id\":\"17f29b073143d8cd97b5bbe492bdeffec1c5fee55cc1fe2112c8b9335f8b6121\",\
     \"Ingress\":false,\"Internal\":false,\"Labels\":{},\"Name\":\"bridge\",\"Options\":{},\
     \"Scope\":\"local\"},{\"Attachable\":false,\"ConfigFrom\":{\"Network\":\"\"},\
     \"ConfigOnly\":false,\"Containers\":{},\"Created\":\"1970-01-01T00:00:00Z\",\
     \"Driver\":\"host\",\"EnableIPv6\":false,\"IPAM\":{\"Config\":[],\"Driver\":\"default\",\
     \"Options\":null},\"Id\":\"4740ae6347b0172c01254ff55bae5aff5199f4446e7f6d643d40185b3f47514\
     5\",\"Ingress\":false,\"Internal\":false,\"Labels\":{},\"Name\":\"host\",\"Options\":{},\
     \"Scope\":\"local\"},{\"Attachable\":false,\"ConfigFrom\":{\"Network\":\"\"},\
     \"ConfigOnly\":false,\"Containers\":{},\"Created\":\"1970-01-01T00:00:00Z\",\
     \"Driver\":\"null\",\"EnableIPv6\":false,\"IPAM\":{\"Config\":[],\"Driver\":\"default\",\
     \"Options\":null},\"Id\":\"140bedbf9c3f6d56a9846d2ba7088798683f4da0c248231336e6a05679e4fdf\
     e\",\"Ingress\":false,\"Internal\":false,\"Labels\":{},\"Name\":\"none\",\"Options\":{},\
     \"Scope\":\"local\"}]"
}

/// One network.
fn network_text(network: Network) -> &'static str
    ensures { result.now ≡ spec.network_text network }
{
    match network {
        Network::Bridge =>
            "{\"Attachable\":false,\"ConfigFrom\":{\"Network\":\"\"},\"ConfigOnly\":false,\
     \"Containers\":{},\"Created\":\"1970-01-01T00:00:00Z\",\"Driver\":\"bridge\",\
     \"EnableIPv6\":false,\"IPAM\":{\"Config\":[],\"Driver\":\"default\",\"Options\":null},\
     \"Id\":\"17f29b073143d8cd97b5bbe492bdeffec1c5fee55cc1fe2112c8b9335f8b6121\",\
     \"Ingress\":false,\"Internal\":false,\"Labels\":{},\"Name\":\"bridge\",\"Options\":{},\
     \"Scope\":\"local\"}",
        Network::Host =>
            "{\"Attachable\":false,\"ConfigFrom\":{\"Network\":\"\"},\"ConfigOnly\":false,\
     \"Containers\":{},\"Created\":\"1970-01-01T00:00:00Z\",\"Driver\":\"host\",\
     \"EnableIPv6\":false,\"IPAM\":{\"Config\":[],\"Driver\":\"default\",\"Options\":null},\
     \"Id\":\"4740ae6347b0172c01254ff55bae5aff5199f4446e7f6d643d40185b3f475145\",\
     \"Ingress\":false,\"Internal\":false,\"Labels\":{},\"Name\":\"host\",\"Options\":{},\
     \"Scope\":\"local\"}",
        Network::None =>
            "{\"Attachable\":false,\"ConfigFrom\":{\"Network\":\"\"},\"ConfigOnly\":false,\
     \"Containers\":{},\"Created\":\"1970-01-01T00:00:00Z\",\"Driver\":\"null\",\
     \"EnableIPv6\":false,\"IPAM\":{\"Config\":[],\"Driver\":\"default\",\"Options\":null},\
     \"Id\":\"140bedbf9c3f6d56a9846d2ba7088798683f4da0c248231336e6a05679e4fdfe\",\
     \"Ingress\":false,\"Internal\":false,\"Labels\":{},\"Name\":\"none\",\"Options\":{},\
     \"Scope\":\"local\"}",
    }
}

/// The JSON text of a row's answer.
pub fn text_of(row: Row) -> &'static str
    ensures { result.now ≡ spec.text_of row }
{
    match row {
        Row::Info => info_text(),
        Row::DiskUse =>
            "{\"BuildCache\":[],\"Containers\":[],\"Images\":[],\"LayersSize\":0,\"Volumes\":[]}",
        Row::Images => image_list_text(),
        Row::NoImages => "[]",
        Row::Image => image_text(),
        Row::Layers => "[]",
        Row::ImageStays => "{\"message\":\"conflict: the image can't be removed\"}",
        Row::NoImage => "{\"message\":\"No such image\"}",
        Row::Pulled => pulled_text(),
        Row::NoPull =>
            "{\"message\":\"pull access denied, repository does not exist or may require 'docker login'\"}",
        Row::Networks => network_list_text(),
        Row::Network(network) => network_text(network),
        Row::NoNetwork => "{\"message\":\"network not found\"}",
        Row::PrunedImages => "{\"ImagesDeleted\":null,\"SpaceReclaimed\":0}",
        Row::PrunedNetworks => "{\"NetworksDeleted\":null}",
        Row::PrunedBuilds => "{\"CachesDeleted\":null,\"SpaceReclaimed\":0}",
        Row::PrunedVolumes => "{\"VolumesDeleted\":null,\"SpaceReclaimed\":0}",
        Row::Plugins => "[]",
        Row::NoSwarm => no_swarm_text(),
        Row::LeftOut(left) => left_text(left),
    }
}

/// The status of a row's answer.
pub fn status_of(row: Row) -> u16
    ensures { result ≡ spec.status_of row }
{
    match row {
        Row::NoImage | Row::NoNetwork | Row::NoPull => 404,
        Row::ImageStays => 409,
        Row::LeftOut(_) => 501,
        Row::NoSwarm => 503,
        _ => 200,
    }
}
