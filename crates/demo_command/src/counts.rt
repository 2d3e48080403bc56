//! Replies, counted in their text.

ghost use Rattle.std.specs.Prelude.{◌≡◌};
ghost use Rattle.demo_command.specs.Counts.{count_lines};

/// How many lines of a text begin so.
pub(crate) fn lines_with(head: &[u8], text: &[u8]) -> usize
    ensures { result ≡ count_lines head.now text.now }
{
    text.split(|byte| *byte == b'\n')
        .filter(|line| line.starts_with(head))
        .count()
}
