ghost use Rattle.std.specs.Prelude.{◌≡◌, ◌++◌, ◌≤◌, ◌^◌, OnOk, OnErr, All, length};
ghost use Rattle.std.specs.List.{flat_map};
ghost use Rattle.solution_text.specs.Answers.{HasRoles};
ghost use Rattle.solution_text.specs.Laws.{IsNumbered};
ghost use Rattle.solution_text.specs.Text.{IsSolutionText};
ghost use Rattle.solution_text.specs.SolutionText.{state_text, move_text, kind_text, structure_text, kinds_text, solution_text, AreOver};

use crate::solution::Solution;
use ctl_form::PairSpec;
use ctl_text::Spec;
use itoa::Buffer;
use pair_structure::{Memory, Move, Name, PairStructure, Role, Side, push_name};
use std::alloc::{AllocError, Global};

/// Appends the one text of a solution, and nothing where memory runs out. Linear in the text.
pub fn write_solution(
    alloc: Global,
    spec: &Spec,
    sol: &Solution,
    into: &mut Vec<u8>,
) -> Result<(), Memory>
    requires { AreOver spec.now.roles spec.now.kinds sol.now }
    ensures written { OnOk result (into.new.items ≡ into.old.items ++ solution_text spec.now.roles spec.now.kinds sol.now) }
    ensures text { OnOk result (IsSolutionText spec.now.roles spec.now.kinds (solution_text spec.now.roles spec.now.kinds sol.now) sol.now) }
    ensures kept { OnErr result (into.new.items ≡ into.old.items) }
{
    let mut text = Vec::new(alloc);
    write_structures(
        spec.network().roles(),
        spec.kinds(),
        sol.structures(),
        &mut text,
    )?;
    into.extend_from_slice(&text)?;
    Ok(())
}

fn write_structures(
    roles: &[Role],
    kinds: &[PairSpec],
    structures: &[PairStructure],
    into: &mut Vec<u8>,
) -> Result<(), AllocError>
    requires roles { All (HasRoles (length roles.now)) kinds.now }
    requires count { length structures.now ≡ length kinds.now }
    ensures written { OnOk result (into.new.items ≡ into.old.items ++ solution_text roles.now kinds.now structures.now) }
    ensures numbered { OnOk result (All IsNumbered structures.now) }
{
    into.extend_from_slice(b"solution 1\n")?;
    write_kinds(roles, kinds, structures, into)?;
    into.extend_from_slice(b"done\n")?;
    Ok(())
}

fn write_kinds(
    roles: &[Role],
    kinds: &[PairSpec],
    structures: &[PairStructure],
    into: &mut Vec<u8>,
) -> Result<(), AllocError>
    requires roles { All (HasRoles (length roles.now)) kinds.now }
    requires count { length structures.now ≡ length kinds.now }
    ensures written { OnOk result (into.new.items ≡ into.old.items ++ kinds_text roles.now kinds.now structures.now) }
    ensures numbered { OnOk result (All IsNumbered structures.now) }
{
    for (number, m) in structures.iter().enumerate() {
        let kind = &kinds[number];
        write_kind(
            &kind.name,
            &roles[kind.role_a as usize],
            &roles[kind.role_b as usize],
            m,
            into,
        )?;
    }
    Ok(())
}

fn write_kind(
    name: &Name,
    a: &Role,
    b: &Role,
    m: &PairStructure,
    into: &mut Vec<u8>,
) -> Result<(), AllocError>
    ensures written { OnOk result (into.new.items ≡ into.old.items ++ kind_text name.now a.now b.now m.now) }
    ensures numbered { OnOk result (IsNumbered m.now) }
{
    into.extend_from_slice(b"kind ")?;
    into.extend_from_slice(name.as_str().as_bytes())?;
    into.extend_from_slice(b"\n")?;
    write_structure(a.locals(), b.locals(), m, into)?;
    into.extend_from_slice(b"end\n")?;
    Ok(())
}

fn write_structure(
    a: &[Name],
    b: &[Name],
    m: &PairStructure,
    into: &mut Vec<u8>,
) -> Result<(), AllocError>
    ensures written { OnOk result (into.new.items ≡ into.old.items ++ structure_text a.now b.now m.now) }
    ensures numbered { OnOk result (IsNumbered m.now) }
{
    write_states(a, b, m.states(), into)?;
    write_moves(m.moves(), into)?;
    Ok(())
}

fn write_states(
    a: &[Name],
    b: &[Name],
    states: &[(u8, u8)],
    into: &mut Vec<u8>,
) -> Result<(), AllocError>
    ensures written { OnOk result (into.new.items ≡ into.old.items ++ flat_map (state_text a.now b.now) states.now) }
    ensures few { length states.now ≤ 2 ^ 64 }
{
    for label in states {
        write_state(a, b, *label, into)?;
    }
    Ok(())
}

fn write_state(
    a: &[Name],
    b: &[Name],
    label: (u8, u8),
    into: &mut Vec<u8>,
) -> Result<(), AllocError>
    ensures { OnOk result (into.new.items ≡ into.old.items ++ state_text a.now b.now label) }
{
    into.extend_from_slice(b"state ")?;
    push_name(a, label.0, into)?;
    into.extend_from_slice(b" ")?;
    push_name(b, label.1, into)?;
    into.extend_from_slice(b"\n")?;
    Ok(())
}

fn write_moves(moves: &[Move], into: &mut Vec<u8>) -> Result<(), AllocError>
    ensures { OnOk result (into.new.items ≡ into.old.items ++ flat_map move_text moves.now) }
{
    for m in moves {
        write_move(m, into)?;
    }
    Ok(())
}

fn write_move(m: &Move, into: &mut Vec<u8>) -> Result<(), AllocError>
    ensures { OnOk result (into.new.items ≡ into.old.items ++ move_text m.now) }
{
    let mut buffer = Buffer::new();
    into.extend_from_slice(b"move ")?;
    into.extend_from_slice(buffer.format(m.from).as_bytes())?;
    into.extend_from_slice(match m.side {
        Side::A => b" a ",
        Side::B => b" b ",
    })?;
    into.extend_from_slice(buffer.format(m.to).as_bytes())?;
    into.extend_from_slice(b"\n")?;
    Ok(())
}
