// Laws, as contracts of functions that do nothing.
ghost use Rattle.std.specs.Prelude.{ℕ, IsTrue};
ghost use Rattle.engine_text.specs.Soundness.{is_health};
ghost use Rattle.engine_text.specs.declared.health.HealthSpec.{HealthSpec as Check};
ghost use Rattle.proc_kernel.specs.Catalogue.{program_of};
ghost use Rattle.health_watch.specs.Advancing.{IsTimed};
ghost use Rattle.health_watch.specs.Probes.{IsOutcomeOf, probe_of};

/// What is run of a probe is enough: its outcome is that of its script, run to its end or the timeout.
pub fn law_probes()
    ensures { (spec : Check) (k : ℕ)
        → IsOutcomeOf (program_of spec.words k) spec.timeout (probe_of spec k) }
{}

/// Each check that a create can have meets the conditions of a watch.
pub fn law_checks()
    ensures { (spec : Check) → IsTrue (is_health spec) → IsTimed spec }
{}
