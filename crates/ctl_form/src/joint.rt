ghost use Rattle.std.specs.Prelude.{◌≡◌};
ghost use Rattle.ctl_form.specs.inside.Walking.{pair_joint};

/// How two walked formulas are joined.
#[derive(Clone, Copy)]
pub(crate) enum Joint {
    Both,
    Either,
    Until { all: bool, weak: bool },
    /// The first until both: what the negation of an until comes to.
    Release { all: bool, weak: bool },
}

/// Both of the formulas, or one of them.
pub(crate) fn pair_of(both: bool) -> Joint
    ensures { result ≡ pair_joint both }
{
    if both { Joint::Both } else { Joint::Either }
}
