ghost use Rattle.skeleton_tool.specs.Command.{NamesCommands};
ghost use Rattle.skeleton_tool.specs.OneAnswer.{OneAnswer};
ghost use Rattle.skeleton_tool.specs.Third.{OneSystem};

/// Words are a command exactly where they are its name and its files, and none of them begins with a dash.
pub fn names_commands()
    ensures { NamesCommands }
{}

/// A specification and a solution of it make one system.
pub fn one_system()
    ensures { OneSystem }
{}

/// Two answers to the same words, over a shelf whose files are told and of which no count rose, have one status, and
/// one text, but for the solution that `synth` makes.
pub fn one_answer()
    ensures { OneAnswer }
{}
