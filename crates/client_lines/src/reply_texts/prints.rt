//! Fields behind what is written already.

ghost use Rattle.std.specs.Prelude.{◌∷◌, decimal, flat_map};
ghost use Rattle.std.specs.Fmt.{signed_decimal};
ghost use Rattle.json_fields.specs.Escapes.{escaped};
ghost use Rattle.client_lines.specs.Fields.{Writes, flag_field, said, spaced};

use byte_fields::Buffer;
use itoa::Buffer as Digits;
use json_fields::name_text::push_escaped;
use no_memory::NoMemory;
use rail_types::{Claim, Run, Tick};

/// What has a text. Where there is room for it, no memory is taken.
pub(crate) trait Print {
    ghost use Rattle.std.specs.Prelude.{ℕ, List};
    ghost use Rattle.client_lines.specs.Fields.{Writes};

    ghost text: { Self → List ℕ };

    /// Appends the text.
    fn print(&self, to: &mut Buffer) -> Result<(), NoMemory>
        ensures { Writes (text self.now) to.old to.new result };
}

/// Appends one text behind the other.
pub(crate) fn print_all<P: Print>(items: &[P], to: &mut Buffer) -> Result<(), NoMemory>
    ensures { Writes (flat_map P.text items.now) to.old to.new result }
{
    for item in items {
        let Ok(()) = item.print(to) else {
            return Err(NoMemory);
        };
    }
    Ok(())
}

/// Appends a word behind a space.
pub fn print_word(word: &[u8], to: &mut Buffer) -> Result<(), NoMemory>
    ensures { Writes (32 ∷ word.now) to.old to.new result }
{
    to.extend(b" ")?;
    to.extend(word)
}

/// Appends a number behind a space.
pub fn print_number(number: u64, to: &mut Buffer) -> Result<(), NoMemory>
    ensures { Writes (32 ∷ decimal number) to.old to.new result }
{
    let mut digits = Digits::new();
    print_word(digits.format(number).as_bytes(), to)
}

#[tactic(auto, unfolding(crate::specs::Fields::spaced))]
/// Appends a word and its number.
pub(crate) fn print_said(word: &[u8], number: u64, to: &mut Buffer) -> Result<(), NoMemory>
    ensures { Writes (spaced (said word.now number)) to.old to.new result }
{
    print_word(word, to)?;
    print_number(number, to)
}

/// Appends a name behind a space, as lines spell it.
pub fn print_name(name: &[u8], to: &mut Buffer) -> Result<(), NoMemory>
    ensures { Writes (32 ∷ escaped name.now) to.old to.new result }
{
    to.extend(b" ")?;
    push_escaped(name, to)
}

/// Appends a tick behind a space.
pub fn print_tick(tick: &Tick, to: &mut Buffer) -> Result<(), NoMemory>
    ensures { Writes (32 ∷ signed_decimal tick.now) to.old to.new result }
{
    let mut digits = Digits::new();
    print_word(digits.format(*tick).as_bytes(), to)
}

/// Appends `1` or `0` behind a space.
pub fn print_flag(flag: bool, to: &mut Buffer) -> Result<(), NoMemory>
    ensures { Writes (32 ∷ flag_field flag) to.old to.new result }
{
    if flag {
        print_word(b"1", to)
    } else {
        print_word(b"0", to)
    }
}

impl Print for Claim {
    ghost use Rattle.client_lines.specs.Fields.{claim_text};

    ghost text = { claim_text };

    #[tactic(auto, unfolding(crate::specs::Fields::spaced))]
    fn print(&self, to: &mut Buffer) -> Result<(), NoMemory> {
        print_number(u64::from(self.zone), to)?;
        print_tick(&self.span.from, to)?;
        print_tick(&self.span.to, to)
    }
}

impl Print for Run {
    ghost use Rattle.client_lines.specs.Fields.{run_text};

    ghost text = { run_text };

    #[tactic(auto, unfolding(crate::specs::Fields::spaced))]
    fn print(&self, to: &mut Buffer) -> Result<(), NoMemory> {
        print_number(u64::from(self.block), to)?;
        print_tick(&self.enter, to)?;
        print_tick(&self.leave, to)?;
        print_flag(self.stops, to)
    }
}
