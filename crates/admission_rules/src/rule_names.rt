//! The names of admission rules.

ghost use Rattle.std.specs.Prelude.{◌≡◌, ◌+◌, ◌≤◌, ◌++◌, length, IsOk, OnOk};
ghost use Rattle.std.specs.Io.{StartsWith};
ghost use Rattle.admission_rules.specs.Names.{name_text};

use byte_fields::Buffer;
use itoa::Buffer as Digits;
use no_memory::NoMemory;

/// The name of an admission rule. One of an operator's own has a number.
#[derive(Clone, Copy, Debug, PartialEq, Eq)]
pub enum RuleName {
    Quota,
    Curfew,
    Longest,
    Own(u32),
}

impl RuleName {
    /// Appends the name: `quota`, `curfew`, `longest`, or `own-` and the rule's number. Where there
    /// is room for it, no memory is taken; for want of memory a part of it may be there.
    pub fn push_text(self, to: &mut Buffer) -> Result<(), NoMemory>
        ensures ok { OnOk result (to.new.held ≡ to.old.held ++ name_text self) }
        ensures kept { StartsWith to.new.held to.old.held }
        ensures room { length (name_text self) ≤ to.old.spare → IsOk result }
        ensures spare { to.old.spare ≤ to.new.spare + length (name_text self) }
    {
        match self {
            RuleName::Quota => to.extend(b"quota"),
            RuleName::Curfew => to.extend(b"curfew"),
            RuleName::Longest => to.extend(b"longest"),
            RuleName::Own(number) => {
                let mut digits = Digits::new();
                to.extend(b"own-")?;
                to.extend(digits.format(number).as_bytes())
            }
        }
    }
}
