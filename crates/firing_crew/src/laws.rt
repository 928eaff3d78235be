ghost use Rattle.firing_crew.specs.Laws.{NeverAway};

/// In a lawful report whose lists come by the callers' rule no reply is away: each process belongs to one caller, and the firings before a
/// place are those that its list shows before it.
pub fn never_away()
    ensures { NeverAway }
{}
