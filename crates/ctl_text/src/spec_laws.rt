ghost use Rattle.ctl_text.specs.SoundValue.{CanonicalIsText};

/// The canonical text of a specification is a text of it: what is written is read back.
pub fn canonical_is_spec_text()
    ensures { CanonicalIsText }
{}
