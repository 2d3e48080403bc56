//! The parts of replies.

ghost use Rattle.std.specs.Prelude.{flat_map};
ghost use Rattle.client_lines.specs.Fields.{Writes, spaced};
ghost use Rattle.client_lines.specs.Parts.{line_by, part_fields};

use crate::reply_texts::deeds::{print_deed, print_owner, print_rule, print_runs, print_state};
use crate::reply_texts::prints::{
    Print, print_all, print_name, print_number, print_said, print_word,
};
use admission_rules::rule_names::RuleName;
use byte_fields::Buffer;
use no_memory::NoMemory;
use rail_types::{Deed, List, Name, Owner, Run};

/// A part of a reply behind its first word: a number; a word and its number or name; a rule; the
/// owner of a claim in the way; the runs of a path; what an entry does; what became of it.
#[derive(Clone, Copy)]
pub(crate) enum Part<'a> {
    Number(u64),
    Said(&'a [u8], u64),
    Named(&'a [u8], &'a Name),
    Rule(RuleName),
    By(Owner),
    Runs(&'a List<Run>),
    Deed(&'a Deed),
    State(&'a Deed, &'a Option<u64>),
}

impl<'a> Print for Part<'a> {
    ghost use Rattle.client_lines.specs.Parts.{part_text};

    ghost text = { part_text };

    #[tactic(auto, unfolding(crate::specs::Fields::spaced))]
    fn print(&self, to: &mut Buffer) -> Result<(), NoMemory> {
        match self {
            Part::Number(number) => print_number(*number, to),
            Part::Said(word, number) => print_said(word, *number, to),
            Part::Named(word, name) => {
                print_word(word, to)?;
                print_name(name.as_bytes(), to)
            }
            Part::Rule(rule) => print_rule(*rule, to),
            Part::By(owner) => {
                print_word(b"by", to)?;
                print_owner(*owner, to)
            }
            Part::Runs(runs) => print_runs(runs.as_slice(), to),
            Part::Deed(deed) => print_deed(deed, to),
            Part::State(deed, freed_by) => print_state(deed, freed_by, to),
        }
    }
}

#[tactic(auto, using(crate::proofs::Printing::grouped))]
fn print_parts(parts: &[Part<'_>], to: &mut Buffer) -> Result<(), NoMemory>
    ensures { Writes (spaced (flat_map part_fields parts.now)) to.old to.new result }
{
    print_all(parts, to)
}

/// Appends a line of a word and its parts.
pub(crate) fn print_line(word: &[u8], parts: &[Part<'_>], to: &mut Buffer) -> Result<(), NoMemory>
    ensures { Writes (line_by word.now parts.now) to.old to.new result }
{
    to.extend(word)?;
    print_parts(parts, to)?;
    to.extend(b"\n")
}
