ghost use Rattle.interconnection.specs.Laws.{FewEdges, FewLocks, LocksStandOnce, NeighboursAreMutual, NextShapesAreAll, SharedLocksJoin};

/// A process is a neighbour of another exactly where the other is one of it, by the same edge and on the other side.
pub fn neighbours_are_mutual()
    ensures { NeighboursAreMutual }
{}

/// A lock plan has each lock of its process once.
pub fn locks_stand_once()
    ensures { LocksStandOnce }
{}

/// Two processes share exactly the locks of the edges between them: so neighbours never fire at the same time, and any
/// two others may.
pub fn shared_locks_join()
    ensures { SharedLocksJoin }
{}

/// Each edge counts at two processes: a network has at most half its greatest degree of edges a process.
pub fn few_edges()
    ensures { FewEdges }
{}

/// A network has few locks: at most 33 a process, so that 32 bits number them.
pub fn few_locks()
    ensures { FewLocks }
{}

/// The first shape of a process and each next one, up to the last, are all its shapes, each once, in rising order.
pub fn next_shapes_are_all()
    ensures { NextShapesAreAll }
{}
