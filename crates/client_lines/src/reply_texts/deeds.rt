//! What entries do, as lines say it, and what became of them.

ghost use Rattle.std.specs.Prelude.{◌∷◌, decimal, flat_map, length};
ghost use Rattle.admission_rules.specs.Names.{name_text};
ghost use Rattle.client_lines.specs.Fields.{Writes, claim_fields, run_fields, spaced};
ghost use Rattle.client_lines.specs.Replies.{deed_fields, freed_fields, hold_fields, holds_fields};
ghost use Rattle.client_lines.specs.Replies.{owner_fields, runs_fields, state_fields};

use crate::reply_texts::prints::{print_all, print_name, print_number, print_said, print_word};
use admission_rules::rule_names::RuleName;
use byte_fields::Buffer;
use no_memory::NoMemory;
use rail_types::{Claim, Deed, Owner, Run};

#[tactic(auto, using(crate::proofs::Printing::grouped))]
fn print_claims(claims: &[Claim], to: &mut Buffer) -> Result<(), NoMemory>
    ensures { Writes (spaced (flat_map claim_fields claims.now)) to.old to.new result }
{
    print_all(claims, to)
}

#[tactic(auto, using(crate::proofs::Printing::grouped))]
fn print_each_run(runs: &[Run], to: &mut Buffer) -> Result<(), NoMemory>
    ensures { Writes (spaced (flat_map run_fields runs.now)) to.old to.new result }
{
    print_all(runs, to)
}

#[tactic(auto, unfolding(crate::specs::Fields::spaced))]
pub(crate) fn print_runs(runs: &[Run], to: &mut Buffer) -> Result<(), NoMemory>
    ensures { Writes (spaced (runs_fields runs.now)) to.old to.new result }
{
    print_word(b"runs", to)?;
    print_number(runs.len() as u64, to)?;
    print_each_run(runs, to)
}

#[tactic(auto, unfolding(crate::specs::Fields::spaced))]
fn print_counted(claims: &[Claim], to: &mut Buffer) -> Result<(), NoMemory>
    ensures { Writes (spaced (decimal (length claims.now) ∷ flat_map claim_fields claims.now))
        to.old to.new result }
{
    print_number(claims.len() as u64, to)?;
    print_claims(claims, to)
}

#[tactic(auto, unfolding(crate::specs::Fields::spaced))]
fn print_holds(claims: &[Claim], reason: &[u8], to: &mut Buffer) -> Result<(), NoMemory>
    ensures { Writes (spaced (holds_fields claims.now reason.now)) to.old to.new result }
{
    print_word(b"holds", to)?;
    print_name(reason, to)?;
    print_counted(claims, to)
}

#[tactic(auto, unfolding(crate::specs::Fields::spaced))]
fn print_hold(claims: &[Claim], reason: &[u8], to: &mut Buffer) -> Result<(), NoMemory>
    ensures { Writes (spaced (hold_fields claims.now reason.now)) to.old to.new result }
{
    if reason.len() == 0 {
        print_word(b"hold", to)?;
        print_claims(claims, to)
    } else {
        print_holds(claims, reason, to)
    }
}

pub(crate) fn print_deed(deed: &Deed, to: &mut Buffer) -> Result<(), NoMemory>
    ensures { Writes (spaced (deed_fields deed.now)) to.old to.new result }
{
    match deed {
        Deed::Hold(claims, reason) => print_hold(claims.as_slice(), reason.as_bytes(), to),
        Deed::Grant(_, path) => print_runs(path.runs.as_slice(), to),
        Deed::Free(entry) => print_said(b"free", *entry, to),
    }
}

#[tactic(auto, unfolding(crate::specs::Fields::spaced))]
fn print_freed(freed_by: &Option<u64>, to: &mut Buffer) -> Result<(), NoMemory>
    ensures { Writes (spaced (freed_fields freed_by.now)) to.old to.new result }
{
    match freed_by {
        Some(at) => print_said(b"freed", *at, to),
        None => print_word(b"live", to),
    }
}

#[tactic(auto, unfolding(crate::specs::Fields::spaced))]
pub(crate) fn print_state(
    deed: &Deed,
    freed_by: &Option<u64>,
    to: &mut Buffer,
) -> Result<(), NoMemory>
    ensures { Writes (spaced (state_fields deed.now freed_by.now)) to.old to.new result }
{
    match deed {
        Deed::Free(_) => print_word(b"done", to),
        Deed::Hold(_, _) => print_freed(freed_by, to),
        Deed::Grant(_, _) => print_freed(freed_by, to),
    }
}

pub(crate) fn print_owner(owner: Owner, to: &mut Buffer) -> Result<(), NoMemory>
    ensures { Writes (spaced (owner_fields owner)) to.old to.new result }
{
    match owner {
        Owner::Base(train) => print_said(b"base", u64::from(train), to),
        Owner::Entry(at) => print_said(b"entry", at, to),
    }
}

pub(crate) fn print_rule(rule: RuleName, to: &mut Buffer) -> Result<(), NoMemory>
    ensures { Writes (32 ∷ name_text rule) to.old to.new result }
{
    to.extend(b" ")?;
    rule.push_text(to)
}
