//! The lines of a client's rules.

ghost use Rattle.std.specs.Prelude.{◌≡◌, ◌++◌, OnOk};
ghost use Rattle.admission_rules.specs.Ruled.{ruled, stand};
ghost use Rattle.served_clients.specs.Rules.{rule_line, rule_lines, tally_text};

use admission_rules::{Rule, Tally};
use itoa::Buffer as Digits;
use line_answers::bytes::Buffer;
use no_memory::NoMemory;
use rail_types::Name;

/// Appends a line for each rule of a client, in order: `rule NAME RULE granted G freed F`. For want
/// of memory a part of them may be there.
pub fn push_rule_lines<L: Rule>(
    text: &mut Buffer,
    client: &Name,
    rules: &[L],
) -> Result<(), NoMemory>
    ensures { OnOk result
        (text.new.held ≡ text.old.held ++ rule_lines client.now (stand L.Rule rules.now)) }
{
    for rule in rules {
        push_rule(text, client, rule)?;
    }
    Ok(())
}

// Appends the line of a rule.
fn push_rule<L: Rule>(text: &mut Buffer, client: &Name, rule: &L) -> Result<(), NoMemory>
    ensures { OnOk result (text.new.held ≡ text.old.held
        ++ rule_line client.now (ruled (L.sense rule.now) (L.numbers rule.now))) }
{
    let tally = rule.tally();
    text.extend(b"rule ")?;
    text.extend(client.as_bytes())?;
    text.extend(b" ")?;
    rule.name().push_text(text)?;
    push_tally(text, &tally)?;
    text.extend(b"\n")?;
    Ok(())
}

// Appends a tally in words.
fn push_tally(text: &mut Buffer, tally: &Tally) -> Result<(), NoMemory>
    ensures { OnOk result (text.new.held ≡ text.old.held ++ tally_text tally.now) }
{
    let mut digits = Digits::new();
    text.extend(b" granted ")?;
    text.extend(digits.format(tally.granted).as_bytes())?;
    text.extend(b" freed ")?;
    text.extend(digits.format(tally.freed).as_bytes())?;
    Ok(())
}
