// The volumes that a create makes, and the references to them.
ghost use Rattle.std.specs.Prelude.{◌≡◌, ℕ, ◌+◌, ◌≤◌, ◌||◌, [], ◌∷◌, ◌++◌, List, IsTrue, IfOk, OnOk, find, length, map, vec_len};
ghost use Rattle.std.specs.List.{AllByRecursion, list_any};
ghost use Rattle.engine_text.specs.Texts.{same_bytes};
ghost use Rattle.engine_text.specs.declared.mounts.Mount.{Mount};
ghost use Rattle.machine_model.specs.Consistency.{is_there};
ghost use Rattle.machine_events.specs.NewVolumes.{missing_volumes, stands, with_volumes, AreMissing};

use engine_text::{Mount, NoMemory, Pairs, Text, Volume};
use std::alloc::Global;
use volume_table::Volumes;

fn has_name(v: &Volume, name: &str) -> bool
    ensures { result ≡ same_bytes v.now.name name.now }
{
    v.name.is(name)
}

fn stands(volumes: &Volumes, name: &str) -> bool
    ensures { result ≡ stands volumes.now.volumes name.now }
{
    match volumes.find(name) {
        None => false,
        Some(_) => true,
    }
}

fn is_among(made: &[Volume], name: &str) -> bool
    ensures { result ≡ list_any (λ v. same_bytes v.name name.now) made.now }
{
    made.iter().any(|v| has_name(v, name))
}

// Whether the volume of that name is made, or stands.
fn is_known(volumes: &Volumes, made: &[Volume], name: &str) -> bool
    ensures { result
        ≡ (list_any (λ v. same_bytes v.name name.now) made.now
        || stands volumes.now.volumes name.now) }
{
    is_among(made, name) || stands(volumes, name)
}

// The mount's volume is made too, unless it is or stands.
fn note_missing(
    alloc: Global,
    volumes: &Volumes,
    mount: &Mount,
    moment: u64,
    made: &mut Vec<Volume>,
) -> Result<(), NoMemory>
    ensures { OnOk result ((before : List Mount)
        → made.old.items ≡ missing_volumes moment before volumes.now.volumes
        → made.new.items ≡ missing_volumes moment (before ++ mount.now ∷ []) volumes.now.volumes) }
{
    if is_known(volumes, made.as_slice(), mount.volume.as_str()) {
        return Ok(());
    }
    made.reserve(1)?;
    made.push_reserved(Volume {
        name: mount.volume.copy(alloc)?,
        labels: Pairs::new(alloc),
        created: moment,
    });
    Ok(())
}

/// The volumes of these mounts that don't stand, each once, made at the moment.
pub fn missing_volumes(
    alloc: Global,
    volumes: &Volumes,
    mounts: &[Mount],
    moment: u64,
) -> Result<Vec<Volume>, NoMemory>
    ensures { IfOk result (λ v. v.items ≡ missing_volumes moment mounts.now volumes.now.volumes) }
{
    let mut made = Vec::new(alloc);
    for m in mounts {
        note_missing(alloc, volumes, m, moment, &mut made)?;
    }
    Ok(made)
}

/// These are made; there was room for them.
pub fn make_volumes(volumes: &mut Volumes, mut made: Vec<Volume>)
    requires missing { AreMissing made.items volumes.old.volumes }
    requires room { length volumes.old.volumes + vec_len made ≤ volumes.old.room }
    ensures volumes { volumes.new.volumes ≡ with_volumes made.items volumes.old.volumes }
    ensures uses { volumes.new.uses ≡ volumes.old.uses }
    ensures use_room { volumes.new.use_room ≡ volumes.old.use_room }
{
    while made.len() > 0 {
        let Volume {
            name,
            labels,
            created,
        } = made.remove(0);
        volumes.create(name, labels, created);
    }
}

/// The container refers to the volumes of these mounts, which stand; there was room for it.
pub fn refer_to(volumes: &mut Volumes, mounts: &[Mount], number: u64)
    requires stand { AllByRecursion
        (λ m. IsTrue (is_there (find (λ v. same_bytes v.name m.volume) volumes.old.volumes)))
        mounts.now }
    requires room { length volumes.old.uses + length mounts.now ≤ volumes.old.use_room }
    ensures volumes { volumes.new.volumes ≡ volumes.old.volumes }
    ensures uses { volumes.new.uses
        ≡ volumes.old.uses ++ map (λ m. record { volume = m.volume; container = number })
        mounts.now }
{
    for m in mounts {
        volumes.refer(m.volume.as_str(), number);
    }
}
