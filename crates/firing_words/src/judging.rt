//! What is known decides a wish.
ghost use Rattle.std.specs.Prelude.{◌≡◌, ◌≢◌, ℕ, ◌+◌, ◌<◌, ◌≤◌, ◌↔◌, IsTrue, List, [], vec_capacity, length};
ghost use Rattle.interconnection.specs.Graph.{AreNeighbours};
ghost use Rattle.conjunctive_compose.specs.Firing.{WishFits};
ghost use Rattle.firing_words.specs.History.{IsPossible};
ghost use Rattle.firing_words.specs.inside.Judging.{IsJudged, IsStar};
ghost use Rattle.firing_words.specs.Judged.{NamesNeighbour};
ghost use Rattle.firing_words.specs.Lists.{Has};
ghost use Rattle.firing_words.specs.Stars.{AreKnown, HasReading, HasStar};

use crate::words::{Token, Words};
use crate::{Cell, Reading};
use conjunctive_compose::{StepAnswer, Wish};
use interconnection::Beside;

fn is_same(a: Cell, b: Cell) -> bool
    ensures { IsTrue result ↔ (a ≡ b) }
{
    match a {
        Cell::Process(k) => match b {
            Cell::Process(j) => k == j,
            Cell::Edge(_) => false,
        },
        Cell::Edge(e) => match b {
            Cell::Process(_) => false,
            Cell::Edge(f) => e == f,
        },
    }
}

/// A reading of the cell.
fn find(known: &[Reading], cell: Cell) -> Reading
    requires { HasReading known.now cell }
    ensures { Has result known.now × (result.cell ≡ cell) }
{
    for i in 0..known.len() {
        if is_same(known[i].cell, cell) {
            return known[i];
        }
    }
    unreachable!()
}

impl Words {
    ghost use Rattle.firing_words.specs.Of.{system_of, seat_view};

    /// The readings of the process, and of each of its edges in the order of its neighbours.
    pub(crate) fn gather(
        &self,
        seat: &Token,
        known: &[Reading],
        process: u32,
        list: &[Beside],
        star: &mut Vec<Reading>,
    )
        requires list { AreNeighbours (system_of self.now).network.edges process list.now }
        requires known { AreKnown (seat_view seat.now).known known.now }
        requires has { HasStar (system_of self.now) process known.now }
        requires space { length list.now + 1 ≤ vec_capacity star.old }
        ensures star { IsStar process list.now (seat_view seat.now).known star.new.items }
        ensures space { vec_capacity star.new ≡ vec_capacity star.old }
    {
        let _seat = seat;
        star.clear();
        star.push_reserved(find(known, Cell::Process(process)));
        for i in 0..list.len() {
            star.push_reserved(find(known, Cell::Edge(list[i].edge)));
        }
    }

    /// What the wish is answered wherever the whole state has what was read; where it moves, what its firing stores.
    pub(crate) fn judge_star(
        &self,
        seat: &Token,
        wish: Wish,
        list: &[Beside],
        readings: &[Reading],
        stores: &mut Vec<Reading>,
    ) -> StepAnswer
        requires fits { WishFits (system_of self.now) wish }
        requires list { AreNeighbours (system_of self.now).network.edges wish.process list.now }
        requires star { IsStar wish.process list.now (seat_view seat.now).known readings.now }
        requires possible { IsPossible (system_of self.now) (seat_view seat.now).known }
        requires space { length list.now + 1 ≤ vec_capacity stores.old }
        ensures judged { IsJudged (system_of self.now) (seat_view seat.now).known wish stores.new.items result }
        ensures named { NamesNeighbour (system_of self.now) result }
        ensures space { vec_capacity stores.new ≡ vec_capacity stores.old }
    {
        let _seat = seat;
        let system = self.system();
        let arc = system.arc(wish.process, wish.arc);
        let own = readings[0];
        stores.clear();
        if arc.from as u64 != own.content {
            return StepAnswer::Away {
                local: own.content as u8,
            };
        }
        stores.push_reserved(Reading {
            cell: own.cell,
            moves: own.moves + 1,
            content: arc.to as u64,
        });
        for i in 0..list.len() {
            let old = readings[i + 1];
            match system.next_pair(wish, &list[i], old.content) {
                Some(next) => {
                    stores.push_reserved(Reading {
                        cell: old.cell,
                        moves: old.moves + 1,
                        content: next,
                    });
                }
                None => {
                    return StepAnswer::Blocked {
                        neighbour: list[i].process,
                    };
                }
            }
        }
        StepAnswer::Moved
    }
}
