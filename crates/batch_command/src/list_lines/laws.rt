//! A law of lists, on a function that calls another law alone.

ghost use Rattle.batch_command.specs.Numbers.{NumbersAreOne};

use json_fields::name_text::names_are_spelled_once;

/// Lines have one list of numbers.
pub fn numbers_are_one()
    ensures { NumbersAreOne }
{
    names_are_spelled_once();
}
