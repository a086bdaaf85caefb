//! The commands.

/// A command.
#[derive(Clone, Copy)]
pub enum Command {
    /// Writes the document of the pure kernel of a formula.
    ReducePure,
    /// Writes the document of the matching kernel of a formula.
    ReduceMatching,
    /// Writes the document of the linear kernel of a formula, or says why there is none.
    ReduceLinear,
    /// Writes the document of the general kernel of a formula, or an unfinished one.
    ReduceGeneral,
    /// Writes what the checks say of a formula and a document.
    Check,
    /// Writes a model of a formula that a document extends.
    Extend,
    /// Writes the numbers of a formula.
    Report,
    /// Writes the sizes of the kernels of the formula of a number.
    Demo,
    /// Writes a model of a formula, or a refutation, or an unfinished document.
    Solve,
    /// Writes what the checks say of a formula and an answer.
    Verify,
    /// Writes the maximal deficiency of a formula, with what shows it.
    Deficiency,
    /// Writes the matching kernel of a formula, and again after each edit of it.
    Edits,
    /// Writes a minimally unsatisfiable core of a formula, or a model, or an unfinished document.
    Mus,
}

/// The commands, in the order in which their words are looked for.
pub(crate) const COMMANDS: [Command; 13] = [
    Command::ReducePure,
    Command::ReduceMatching,
    Command::ReduceLinear,
    Command::ReduceGeneral,
    Command::Check,
    Command::Extend,
    Command::Report,
    Command::Demo,
    Command::Solve,
    Command::Verify,
    Command::Deficiency,
    Command::Edits,
    Command::Mus,
];
