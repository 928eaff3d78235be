ghost use Rattle.std.specs.Prelude.{◌≡◌};
ghost use Rattle.ctl_form.specs.Closure.{IsGrown};
ghost use Rattle.ctl_form.specs.Form.{form_of, until};
ghost use Rattle.ctl_form.specs.Members.{forms_of};
ghost use Rattle.ctl_form.specs.Normal.{normal};
ghost use Rattle.ctl_form.specs.inside.Walking.{turned, constant_part, joined, nexts, lasting, Walks};

use crate::joint::{Joint, pair_of};
use crate::members::Members;
use crate::{Formula, NormalFault, Part};
use pair_structure::Side;

impl Members {
    /// The member that the normal form of a formula is, or where `is` is false that of its negation. New members get their numbers as
    /// the walk comes to them. One look-up for each operator of the normal form.
    #[cycle(walking)]
    pub(crate) fn root_of(&mut self, f: &Formula, is: bool) -> Result<u32, NormalFault>
        requires { IsGrown (forms_of self.old) }
        ensures { Walks (normal is (form_of f.now)) self.old self.new result }
    {
        match f {
            Formula::Yes => self.note(constant_of(is)),
            Formula::No => self.note(constant_of(!is)),
            Formula::At { side, local } => self.note(Part::Lit {
                side: *side,
                local: *local,
                is,
            }),
            Formula::Not(f) => self.root_of(f, !is),
            Formula::And(f, g) => self.root_of_two(pair_of(is), f, is, g, is),
            Formula::Or(f, g) => self.root_of_two(pair_of(!is), f, is, g, is),
            Formula::Implies(f, g) => self.root_of_two(pair_of(!is), f, !is, g, is),
            Formula::Next { all, side, f } => self.root_of_next(turned_of(is, *all), *side, f, is),
            Formula::Always { all, f } => self.root_of_lasting(is, turned_of(is, *all), f, is),
            Formula::Sometime { all, f } => self.root_of_lasting(!is, turned_of(is, *all), f, is),
            Formula::Until { all, weak, f, g } => self.root_of_until(*all, *weak, f, g, is),
        }
    }

    #[cycle(walking)]
    fn root_of_until(
        &mut self,
        all: bool,
        weak: bool,
        f: &Formula,
        g: &Formula,
        is: bool,
    ) -> Result<u32, NormalFault>
        requires { IsGrown (forms_of self.old) }
        ensures { Walks (normal is (until all weak (form_of f.now) (form_of g.now))) self.old self.new result }
    {
        if is {
            self.root_of_two(Joint::Until { all, weak }, f, true, g, true)
        } else {
            let (all, weak) = (!all, !weak);
            self.root_of_two(Joint::Release { all, weak }, g, false, f, false)
        }
    }

    /// Two formulas, walked one after the other and then joined; each itself or its negation.
    #[cycle(walking)]
    fn root_of_two(
        &mut self,
        joint: Joint,
        f: &Formula,
        f_is: bool,
        g: &Formula,
        g_is: bool,
    ) -> Result<u32, NormalFault>
        requires { IsGrown (forms_of self.old) }
        ensures { Walks (joined joint (normal f_is (form_of f.now)) (normal g_is (form_of g.now))) self.old self.new result }
    {
        let first = self.root_of(f, f_is)?;
        let second = self.root_of(g, g_is)?;
        self.note_joined(joint, first, second)
    }

    #[cycle(walking)]
    fn root_of_next(
        &mut self,
        all: bool,
        side: Option<Side>,
        f: &Formula,
        is: bool,
    ) -> Result<u32, NormalFault>
        requires { IsGrown (forms_of self.old) }
        ensures { Walks (nexts all side (normal is (form_of f.now))) self.old self.new result }
    {
        let first = self.root_of(f, is)?;
        self.note_nexts(all, side, first)
    }

    /// For ever: a weak until of false. Or at some time: an until whose first part is true.
    #[cycle(walking)]
    fn root_of_lasting(
        &mut self,
        ever: bool,
        all: bool,
        f: &Formula,
        is: bool,
    ) -> Result<u32, NormalFault>
        requires { IsGrown (forms_of self.old) }
        ensures { Walks (lasting ever all (normal is (form_of f.now))) self.old self.new result }
    {
        if ever {
            self.root_of_two(Joint::Until { all, weak: true }, f, is, &Formula::No, true)
        } else {
            self.root_of_two(
                Joint::Until { all, weak: false },
                &Formula::Yes,
                true,
                f,
                is,
            )
        }
    }
}

/// The bool of the formula itself, or of its negation.
fn turned_of(is: bool, b: bool) -> bool
    ensures { result ≡ turned is b }
{
    if is { b } else { !b }
}

fn constant_of(is: bool) -> Part
    ensures { result ≡ constant_part is }
{
    if is { Part::Yes } else { Part::No }
}
