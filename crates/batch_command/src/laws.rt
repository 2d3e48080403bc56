//! A law of the command, on a function that calls another law alone.

ghost use Rattle.batch_command.specs.Asked.{ListsAreJudgedOnce};

use crate::list_lines::numbers_are_one;

/// A list comes to the first of its flaws, or it has none.
pub fn lists_are_judged_once()
    ensures { ListsAreJudgedOnce }
{
    numbers_are_one();
}
