//! Proofs read from a text.

ghost use Rattle.std.specs.Prelude.{◌≡◌, ◌≤◌, length};
ghost use Rattle.proof_texts.specs.Lines.{Gives, counted_at, proof_at};
ghost use Rattle.proof_texts.specs.Read.{Reads};

use crate::cuts::Lines;
use crate::faults::ProofFault;
use crate::heads::{read_count, read_head};
use crate::members::read_members;
use crate::refusals::Proof;
use client_lines::Known;
use json_fields::name_text::names_are_spelled_once;
use rail_types::List;
use std::alloc::Global;
use tail_states::{Closed, Member};

/// Most bytes of a file of proofs.
pub const MAX_PROOF_FILE_BYTES: usize = 67_108_864;

// Reads how many members there are, and then the members.
fn read_counted(
    alloc: Global,
    lines: &mut Lines<'_>,
    known: &Known,
) -> Result<List<Member>, ProofFault>
    requires { length lines.old ≤ MAX_PROOF_FILE_BYTES }
    ensures members { Gives lines.new result (counted_at known.now lines.old) }
    ensures shorter { length lines.new ≤ length lines.old }
{
    let count = read_count(lines)?;
    let members = read_members(alloc, lines, known, count)?;
    Ok(members)
}

// Reads the lines of a proof.
fn read_lines(alloc: Global, lines: &mut Lines<'_>, known: &Known) -> Result<Proof, ProofFault>
    requires { length lines.old ≤ MAX_PROOF_FILE_BYTES }
    ensures proof { Gives lines.new result (proof_at known.now lines.old) }
    ensures shorter { length lines.new ≤ length lines.old }
{
    let head = read_head(alloc, lines, known)?;
    let members = read_counted(alloc, lines, known)?;
    Ok(Proof {
        at: head.at,
        number: head.number,
        request: head.request,
        closed: Closed { members },
    })
}

/// Reads the proof at the beginning of a text, and tells how many bytes of the text are the
/// proof's. `NotUnderstood` where the text begins with no proof's text; a text that names a
/// train, an operational point or a block that is not there is none. Memory grows with the text,
/// whatever counts stand in it.
pub fn read_proof(alloc: Global, text: &[u8], known: &Known) -> Result<(Proof, usize), ProofFault>
    requires short { length text.now ≤ MAX_PROOF_FILE_BYTES }
    ensures { Reads known.now text.now result }
{
    names_are_spelled_once();
    let mut lines = Lines::new(text);
    match read_lines(alloc, &mut lines, known) {
        Ok(proof) => {
            let count = text.len() - lines.left();
            Ok((proof, count))
        }
        Err(fault) => Err(fault),
    }
}
