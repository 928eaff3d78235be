ghost use Rattle.std.specs.Prelude.{List, ℕ};
ghost use Rattle.ctl_text.specs.Value.{SpecParts};
ghost use Rattle.ctl_text.specs.Text.{IsSpecText, IsRefused};
ghost use Rattle.text_cause.specs.declared.cause.TextCause.{TextCause};

/// No text of a specification is refused.
pub fn never_both()
    ensures { (bytes : List ℕ) (v : SpecParts) (line : ℕ) (what : TextCause) → IsSpecText bytes v → IsRefused bytes line what → ⊥ }
{}
