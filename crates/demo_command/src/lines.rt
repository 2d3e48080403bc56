//! The thousand lines of the demo.

ghost use Rattle.std.specs.Prelude.{◌≡◌, ◌++◌, ◌∷◌, ◌<◌, ◌^◌, [], IfOk, OnOk};
ghost use Rattle.served_clients.specs.sessions.Lines.{ended};
ghost use Rattle.demo_command.specs.Lines.{ask_text, demo_lines, next};

use itoa::Buffer;
use no_memory::NoMemory;
use std::alloc::Global;

/// How many lines there are.
pub(crate) const LINES: u32 = 1000;

/// The lines of the demo of a number, each with its end.
pub(crate) fn lines_of(alloc: Global, number: u32) -> Result<Vec<u8>, NoMemory>
    ensures { IfOk result (λ text. text.items ≡ ended (demo_lines number)) }
{
    let mut text = Vec::new(alloc);
    let mut drawn = u64::from(number);
    for before in 0..LINES {
        drawn = behind(drawn);
        put_ask(&mut text, before + 1, (drawn % 16_000) as u32)?;
    }
    Ok(text)
}

// The number that is drawn behind another one.
fn behind(drawn: u64) -> u64
    requires { drawn < 2 ^ 32 }
    ensures next { result ≡ next drawn }
    ensures small { result < 2 ^ 31 }
{
    (1_103_515_245 * drawn + 12_345) % 2_147_483_648
}

// Writes a line behind a text.
fn put_ask(text: &mut Vec<u8>, line: u32, tick: u32) -> Result<(), NoMemory>
    ensures { OnOk result (text.new.items ≡ text.old.items ++ ask_text line tick ++ 10 ∷ []) }
{
    let mut digits = Buffer::new();
    text.extend_from_slice(b"ask ")?;
    text.extend_from_slice(digits.format(line).as_bytes())?;
    text.extend_from_slice(b" F1 W E ")?;
    text.extend_from_slice(digits.format(tick).as_bytes())?;
    text.extend_from_slice(b" ")?;
    text.extend_from_slice(digits.format(tick).as_bytes())?;
    text.extend_from_slice(b" 0 17280 0\n")?;
    Ok(())
}
