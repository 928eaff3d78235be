ghost use Rattle.std.specs.Prelude.{◌≡◌, ◌<◌, length, false, Some, None, MatchResult};
ghost use Rattle.ctl_form.specs.Form.{truth, falsity, next, until};
ghost use Rattle.ctl_form.specs.Members.{form_at, forms_of};
ghost use Rattle.ctl_form.specs.MemberTable.{IsFaultOf, Numbers};
ghost use Rattle.ctl_form.specs.Walk.{noted, noted_until};
ghost use Rattle.ctl_form.specs.inside.Walking.{AreSides, joined, noted_joined, noted_sides, nexts, noted_nexts, noted_opening};
ghost use Rattle.ctl_form.specs.declared.joint.Joint.TheVariants.{Release};

use crate::joint::{Joint, pair_of};
use crate::members::Members;
use crate::{NormalFault, Part};
use pair_structure::Side;

impl Members {
    /// The members that each closure has. The answer is `true`.
    pub(crate) fn note_opening(&mut self) -> Result<u32, NormalFault>
        ensures { Numbers (noted_opening (forms_of self.old)) truth self.new result }
    {
        let truth = self.note_constants()?;
        self.note_sides(false, truth)?;
        Ok(truth)
    }

    fn note_constants(&mut self) -> Result<u32, NormalFault>
        ensures { Numbers (noted falsity (noted truth (forms_of self.old))) truth self.new result }
    {
        let truth = self.note(Part::Yes)?;
        self.note(Part::No)?;
        Ok(truth)
    }

    /// Two members joined, and after an until its next-times.
    pub(crate) fn note_joined(&mut self, joint: Joint, f: u32, g: u32) -> Result<u32, NormalFault>
        requires f { f < length self.old }
        requires g { g < length self.old }
        ensures { let forms = forms_of self.old in let f_form = form_at forms f in let g_form = form_at forms g in
            Numbers (noted_joined joint f_form g_form forms) (joined joint f_form g_form) self.new result }
    {
        match joint {
            Joint::Both => self.note(Part::Both { f, g }),
            Joint::Either => self.note(Part::Either { f, g }),
            Joint::Until { all, weak } => self.note_until(all, weak, f, g),
            Joint::Release { all, weak } => self.note_release(all, weak, f, g),
        }
    }

    fn note_until(&mut self, all: bool, weak: bool, f: u32, g: u32) -> Result<u32, NormalFault>
        requires f { f < length self.old }
        requires g { g < length self.old }
        ensures { let forms = forms_of self.old in let u = until all weak (form_at forms f) (form_at forms g) in
            Numbers (noted_until all u forms) u self.new result }
    {
        let u = self.note(Part::Until { all, weak, f, g })?;
        self.note_sides(all, u)?;
        Ok(u)
    }

    fn note_release(&mut self, all: bool, weak: bool, f: u32, g: u32) -> Result<u32, NormalFault>
        requires f { f < length self.old }
        requires g { g < length self.old }
        ensures { let forms = forms_of self.old in let f_form = form_at forms f in let g_form = form_at forms g in
            Numbers (noted_joined (Release all weak) f_form g_form forms) (joined (Release all weak) f_form g_form) self.new result }
    {
        let both = self.note(Part::Both { f: g, g: f })?;
        self.note_until(all, weak, f, both)
    }

    /// The next-time of one side, or those of both, joined.
    pub(crate) fn note_nexts(
        &mut self,
        all: bool,
        side: Option<Side>,
        f: u32,
    ) -> Result<u32, NormalFault>
        requires { f < length self.old }
        ensures { let forms = forms_of self.old in let f_form = form_at forms f in
            Numbers (noted_nexts all side f_form forms) (nexts all side f_form) self.new result }
    {
        match side {
            Some(side) => self.note_next(all, side, f),
            None => self.note_both_nexts(all, f),
        }
    }

    fn note_both_nexts(&mut self, all: bool, f: u32) -> Result<u32, NormalFault>
        requires { f < length self.old }
        ensures { let forms = forms_of self.old in let f_form = form_at forms f in
            Numbers (noted_nexts all None f_form forms) (nexts all None f_form) self.new result }
    {
        let (a, b) = self.note_sides(all, f)?;
        self.note_joined(pair_of(all), a, b)
    }

    /// The next-times of both sides.
    fn note_sides(&mut self, all: bool, f: u32) -> Result<(u32, u32), NormalFault>
        requires { f < length self.old }
        ensures { let forms = forms_of self.old in let f_form = form_at forms f in
            MatchResult result (AreSides all f_form forms self.new) (IsFaultOf (noted_sides all f_form forms)) }
    {
        let a = self.note_next(all, Side::A, f)?;
        let b = self.note_next(all, Side::B, f)?;
        Ok((a, b))
    }

    fn note_next(&mut self, all: bool, side: Side, f: u32) -> Result<u32, NormalFault>
        requires { f < length self.old }
        ensures { let forms = forms_of self.old in let next_form = next all (Some side) (form_at forms f) in
            Numbers (noted next_form forms) next_form self.new result }
    {
        self.note(Part::Next { all, side, f })
    }
}
