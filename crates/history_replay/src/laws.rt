// What a verdict tells.
ghost use Rattle.history_replay.specs.Legal as law;
ghost use Rattle.history_replay.specs.Upgrading.{UpgradeLaw};

/// A law: only a legal history's journal is called legal. Does nothing.
pub fn law_legal()
    ensures { law.LegalLaw }
{}

/// A law: a legal history's journal is called legal. Does nothing.
pub fn law_complete()
    ensures { law.CompleteLaw }
{}

/// A law: no text has two verdicts. Does nothing.
pub fn law_one_verdict()
    ensures { law.OneVerdictLaw }
{}

/// A law: each legal journal can be told in format 2. Does nothing.
pub fn law_upgrade()
    ensures { UpgradeLaw }
{}
