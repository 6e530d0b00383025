//! What is read is what docs/SCRIPT.md says. The functions do nothing: each carries a law.
ghost use Rattle.script.specs.Asking.{PromptsRunScripts};
ghost use Rattle.script.specs.Grammar.{LinesAreRead};

/// A line is read as what its words say in the grammar, and as nothing if they are nowhere in it. So each line says
/// one thing at most.
pub fn lines_are_read()
    ensures { LinesAreRead }
{}

/// A line that says something in a script asks the same at a prompt, and no other line is run there.
pub fn prompts_run_scripts()
    ensures { PromptsRunScripts }
{}
