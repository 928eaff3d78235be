ghost use Rattle.std.specs.Prelude.{◌≡◌, ◌<◌, ◌≤◌, ℕ, false, length, All, IfOk, MatchOption};
ghost use Rattle.ctl_form.specs.MemberTable.{IsNumbering};
ghost use Rattle.ctl_form.specs.Members.{part_at};
ghost use Rattle.ctl_form.specs.NormalParts.{AreNormalParts};
ghost use Rattle.closure_sets.specs.ClosureParts.{ClosureParts, IsClosureParts, HasPart, IsNextOf, IsNextAt, AreNexts, after, some_move};
ghost use Rattle.ctl_form.specs.declared.part.Part.TheVariants.{Yes};
ghost use Rattle.ctl_form.specs.declared.limits.TheConstants.{MAX_MEMBERS};

use ctl_form::{Normal, Part};
use pair_structure::{Memory, Side};
use std::alloc::Global;
use std::marker::Model;

/// The closure of formulas in normal form, with the numbers of the next-times that an expansion adds. Members are named by the numbers that
/// the normal form gives them. Contracts see the parts, the roots, and those numbers.
#[derive(Drop)]
pub struct Closure {
    parts: Vec<Part>,
    roots: Vec<u32>,
    after_a: Vec<u32>,
    after_b: Vec<u32>,
    some_a: u32,
    some_b: u32,
}

impl Model for Closure {
    ghost use Rattle.closure_sets.specs.ClosureParts.{ClosureParts, IsClosureParts};

    ghost Value = { ClosureParts };

    ghost view = { λ c. record { parts = c.parts.items; roots = c.roots.items; after_a = c.after_a.items; after_b = c.after_b.items; some_a = c.some_a; some_b = c.some_b } };

    ghost invariant = { λ c. IsClosureParts (record { parts = c.parts.items; roots = c.roots.items; after_a = c.after_a.items; after_b = c.after_b.items; some_a = c.some_a; some_b = c.some_b }) };
}

impl Closure {
    /// The closure of a normal form: its members and roots. Logarithmic in the count for each member.
    pub fn of(alloc: Global, form: &Normal) -> Result<Closure, Memory>
        ensures parts { IfOk result (λ c. c.parts ≡ form.now.parts) }
        ensures roots { IfOk result (λ c. c.roots ≡ form.now.roots) }
    {
        let parts = parts_of(alloc, form)?;
        let roots = Vec::from_slice(alloc, form.roots())?;
        let after_a = nexts(alloc, form, Side::A)?;
        let after_b = nexts(alloc, form, Side::B)?;
        tell_numbering(form);
        let truth = truth_of(form);
        let some_a = move_of(form, truth, Side::A);
        let some_b = move_of(form, truth, Side::B);
        Ok(Closure {
            parts,
            roots,
            after_a,
            after_b,
            some_a,
            some_b,
        })
    }

    /// The number of members.
    pub fn count(&self) -> u32
        ensures count { result ≡ length self.now.parts }
        ensures closure { IsClosureParts self.now }
    {
        self.parts.len() as u32
    }

    /// Tells a proof that this is a closure: members are numbered, and it has their next-times. It does nothing.
    pub fn tell_members(&self)
        ensures { IsClosureParts self.now }
    {
        let _parts = &self.parts;
    }

    /// The root of each conjunct, in their order.
    pub fn roots(&self) -> &[u32]
        ensures same { result.now ≡ self.now.roots }
        ensures members { All (λ root. root < length self.now.parts) self.now.roots }
    {
        &self.roots
    }

    /// What the member is built of.
    pub fn part(&self, member: u32) -> Part
        requires { member < length self.now.parts }
        ensures { result ≡ part_at self.now.parts member }
    {
        self.parts[member as usize]
    }

    /// The member with this part, if there is one. Linear in the count.
    pub fn find(&self, part: Part) -> Option<u32>
        ensures { MatchOption result ((n : ℕ) → n < length self.now.parts → part_at self.now.parts n ≡ part → ⊥)
            (λ n. (n < length self.now.parts) × (part_at self.now.parts n ≡ part)) }
    {
        find_in(&self.parts, part)
    }

    /// An equal closure.
    pub fn copy(&self, alloc: Global) -> Result<Closure, Memory>
        ensures { IfOk result (λ c. c ≡ self.now) }
    {
        Ok(Closure {
            parts: Vec::from_slice(alloc, &self.parts)?,
            roots: Vec::from_slice(alloc, &self.roots)?,
            after_a: Vec::from_slice(alloc, &self.after_a)?,
            after_b: Vec::from_slice(alloc, &self.after_b)?,
            some_a: self.some_a,
            some_b: self.some_b,
        })
    }

    /// The next-time of this side of an until: AXs of an `A` until, EXs of an `E` until.
    pub fn after(&self, side: Side, member: u32) -> u32
        requires { member < length self.now.parts }
        ensures { result ≡ after self.now side member }
    {
        match side {
            Side::A => self.after_a[member as usize],
            Side::B => self.after_b[member as usize],
        }
    }

    /// EXs true.
    pub fn some_move(&self, side: Side) -> u32
        ensures same { result ≡ some_move self.now side }
        ensures member { result < length self.now.parts }
        ensures closure { IsClosureParts self.now }
    {
        match side {
            Side::A => self.some_a,
            Side::B => self.some_b,
        }
    }
}

fn find_in(parts: &[Part], part: Part) -> Option<u32>
    requires { length parts.now ≤ MAX_MEMBERS }
    ensures { MatchOption result ((n : ℕ) → n < length parts.now → part_at parts.now n ≡ part → ⊥)
        (λ n. (n < length parts.now) × (part_at parts.now n ≡ part)) }
{
    for member in 0..parts.len() {
        if parts[member] == part {
            return Some(member as u32);
        }
    }
    None
}

fn parts_of(alloc: Global, form: &Normal) -> Result<Vec<Part>, Memory>
    ensures { IfOk result (λ parts. parts.items ≡ form.now.parts) }
{
    let mut parts = Vec::with_capacity(alloc, form.count() as usize)?;
    for member in 0..form.count() {
        parts.push(form.part(member))?;
    }
    Ok(parts)
}

/// The next-time of this side of each until, and 0 for other members.
fn nexts(alloc: Global, form: &Normal, side: Side) -> Result<Vec<u32>, Memory>
    ensures { IfOk result (λ nexts. AreNexts form.now.parts side nexts.items) }
{
    let mut nexts = Vec::with_capacity(alloc, form.count() as usize)?;
    for member in 0..form.count() {
        nexts.push(next_of(form, member, side))?;
    }
    Ok(nexts)
}

fn next_of(form: &Normal, member: u32, side: Side) -> u32
    requires { member < length form.now.parts }
    ensures { IsNextAt form.now.parts side member result }
{
    tell_numbering(form);
    match form.part(member) {
        Part::Until { all, .. } => member_with(
            form,
            Part::Next {
                all,
                side,
                f: member,
            },
        ),
        _ => 0,
    }
}

fn truth_of(form: &Normal) -> u32
    ensures { (result < length form.now.parts) × (part_at form.now.parts result ≡ Yes) }
{
    tell_numbering(form);
    member_with(form, Part::Yes)
}

fn move_of(form: &Normal, truth: u32, side: Side) -> u32
    requires below { truth < length form.now.parts }
    requires truth { part_at form.now.parts truth ≡ Yes }
    ensures { IsNextOf form.now.parts false side truth result }
{
    tell_numbering(form);
    member_with(
        form,
        Part::Next {
            all: false,
            side,
            f: truth,
        },
    )
}

/// The member with this part, of which there is one.
fn member_with(form: &Normal, part: Part) -> u32
    requires { HasPart form.now.parts part }
    ensures { (result < length form.now.parts) × (part_at form.now.parts result ≡ part) }
{
    match form.find(part) {
        Some(member) => member,
        None => 0,
    }
}

/// Tells a proof that the members of a normal form are numbered, and that its roots and what an expansion adds are members. It does nothing else.
fn tell_numbering(form: &Normal)
    ensures numbering { IsNumbering form.now.parts }
    ensures closed { AreNormalParts form.now.parts form.now.roots }
{
    let _count = form.count();
}
