//! Laws of the command, each on a function that calls other laws alone.

ghost use Rattle.check_command.specs.Checks.{ProofsAreJudgedOnce};

use proof_texts::proofs_are_read_once;

/// The bytes of a file of proofs come to one line: that of their number, where all hold, or
/// that of the first that does not.
pub fn proofs_are_judged_once()
    ensures { ProofsAreJudgedOnce }
{
    proofs_are_read_once();
}
