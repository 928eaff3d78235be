ghost use Rattle.conjunctive_compose.specs.Laws.{FiringKeepsPairs, NearDecides, NearDecidesAnswers, OnePairState, OthersStay, ProjectionIsPath, ReachableIsProper, RunGrows, StartIsProper};
ghost use Rattle.conjunctive_compose.specs.Looks.{EqualCountsEqualLocals, LookShowsProjection, ProjectionCounts};
ghost use Rattle.conjunctive_compose.specs.Order.{HoldsWithin, OrderStays, ToldStays};
ghost use Rattle.conjunctive_compose.specs.Reply.{HoldsLonger};
ghost use Rattle.conjunctive_compose.specs.Peel.{FiringKeepsPeelOrder, PeelOrderEnables};

/// The start is proper, and each edge is in the pair state where it starts.
pub fn start_is_proper()
    ensures { StartIsProper }
{}

/// An edge has one pair state at most.
pub fn one_pair_state()
    ensures { OnePairState }
{}

/// A firing keeps a whole state proper, and on each edge it is a move of the pair or leaves it.
pub fn firing_keeps_pairs()
    ensures { FiringKeepsPairs }
{}

/// What a run reaches is proper.
pub fn reachable_is_proper()
    ensures { ReachableIsProper }
{}

/// On each edge the projection of a run is a path of the edge's structure from the state where the edge starts.
pub fn projection_is_path()
    ensures { ProjectionIsPath }
{}

/// A firing changes the local state and the number of firings of no other process, and the value and number of no other edge.
pub fn others_stay()
    ensures { OthersStay }
{}

/// What is known of a process, its edges and its neighbours decides its firing.
pub fn near_decides()
    ensures { NearDecides }
{}

/// It decides every answer: a wish that is away, or blocked by a neighbour, is so wherever the same is known.
pub fn near_decides_answers()
    ensures { NearDecidesAnswers }
{}

/// A run with a wish that moves appended is a run.
pub fn run_grows()
    ensures { RunGrows }
{}

/// What a caller was told still holds, in its order, where entries of others, its own next entry, a place that it loads now, or a look that
/// shows enough are appended.
pub fn told_stays()
    ensures { ToldStays }
{}

/// What holds in a run holds in each longer one.
pub fn holds_longer()
    ensures { HoldsLonger }
{}

/// What holds in a run does not reach past it.
pub fn holds_within()
    ensures { HoldsWithin }
{}

/// A list in order that does not reach past the run stays so, where the same is appended; its items need not hold.
pub fn order_stays()
    ensures { OrderStays }
{}

/// A projection has as many moves as the run has firings of the edge's processes.
pub fn projection_counts()
    ensures { ProjectionCounts }
{}

/// A look at an edge after m firings shows the state where it starts for no firing, and else that of move m - 1 of the projection.
pub fn look_shows_projection()
    ensures { LookShowsProjection }
{}

/// Where a process has fired equally often it is in one local state.
pub fn equal_counts_equal_locals()
    ensures { EqualCountsEqualLocals }
{}

/// Where a process can go on after its firing, or permits all arcs of its neighbours, a peel order is left.
pub fn firing_keeps_peel_order()
    ensures { FiringKeepsPeelOrder }
{}

/// With a peel order some process can go on, if there is one.
pub fn peel_order_enables()
    ensures { PeelOrderEnables }
{}
