//! The table of a stairway.

ghost use Rattle.std.specs.Prelude.{◌≡◌, ◌<◌, ◌++◌, IfOk, OnOk, All, drop, length, map, replicate};
ghost use Rattle.std.specs.Prelude.{take};
ghost use Rattle.blocking_time.specs.Paths.{IsPathIn};
ghost use Rattle.blocking_time.specs.Rules.{KeepsRunRules};
ghost use Rattle.blocking_time.specs.Runs.{block_at};
ghost use Rattle.stairway_print.specs.Stairs.{aligned as aligned_text, claim_line, claim_lines};
ghost use Rattle.stairway_print.specs.Stairs.{counts_of, cut_lines, stairs_line, stairs_text};

use blocking_time::stairway;
use itoa::Buffer;
use no_memory::NoMemory;
use rail_types::{Claim, Network, Path, Run, Settings};
use std::alloc::Global;

/// The stairway table of a path that keeps the rules of runs: a header, then a line for each
/// claim by run, then cell, with its zone, the first tick that it takes, the tick behind its
/// last, and the number of its run.
pub fn stairs_table(
    alloc: Global,
    net: &Network,
    settings: &Settings,
    path: &Path,
) -> Result<Vec<u8>, NoMemory>
    requires path { IsPathIn net.now settings.now path.now }
    requires keeps { KeepsRunRules net.now settings.now path.now }
    ensures { IfOk result (λ text. text.items ≡ stairs_text net.now settings.now path.now) }
{
    let claims = stairway(alloc, net, settings, path)?;
    let mut text = Vec::new(alloc);
    push_line(&mut text, b"zone", b"from", b"to", b"run")?;
    push_runs(&mut text, net, path.runs.as_slice(), &claims)?;
    Ok(text)
}

// Appends the lines of the claims of runs.
fn push_runs(
    to: &mut Vec<u8>,
    net: &Network,
    runs: &[Run],
    claims: &[Claim],
) -> Result<(), NoMemory>
    requires blocks { All (λ run. run.block < length net.now.blocks) runs.now }
    ensures { OnOk result (to.new.items ≡ to.old.items
        ++ cut_lines 0 (map (λ run. length (block_at net.now run.block).cells) runs.now)
        claims.now) }
{
    let mut rest = claims;
    let mut number = 0u64;
    'runs: for run in runs {
        let count = net.blocks.as_slice()[run.block as usize].cells.len();
        push_claims(to, number, first_of(rest, count))?;
        rest = behind(rest, count);
        number += 1;
    }
    Ok(())
}

fn first_of(claims: &[Claim], count: usize) -> &[Claim]
    ensures { result.now ≡ take count claims.now }
{
    let (first, _) = claims.split_at(count.min(claims.len()));
    first
}

fn behind(claims: &[Claim], count: usize) -> &[Claim]
    ensures { result.now ≡ drop count claims.now }
{
    let (_, others) = claims.split_at(count.min(claims.len()));
    others
}

// Appends the lines of the claims of one run.
pub(crate) fn push_claims(to: &mut Vec<u8>, run: u64, claims: &[Claim]) -> Result<(), NoMemory>
    ensures { OnOk result (to.new.items ≡ to.old.items ++ claim_lines run claims.now) }
{
    'claims: for claim in claims {
        push_claim(to, run, claim)?;
    }
    Ok(())
}

fn push_claim(to: &mut Vec<u8>, run: u64, claim: &Claim) -> Result<(), NoMemory>
    ensures { OnOk result (to.new.items ≡ to.old.items ++ claim_line run claim.now) }
{
    let (mut zone, mut from, mut end) = (Buffer::new(), Buffer::new(), Buffer::new());
    let mut number = Buffer::new();
    push_line(
        to,
        zone.format(claim.zone).as_bytes(),
        from.format(claim.span.from).as_bytes(),
        end.format(claim.span.to).as_bytes(),
        number.format(run).as_bytes(),
    )
}

pub(crate) fn push_line(
    to: &mut Vec<u8>,
    zone: &[u8],
    from: &[u8],
    end: &[u8],
    run: &[u8],
) -> Result<(), NoMemory>
    ensures { OnOk result
        (to.new.items ≡ to.old.items ++ stairs_line zone.now from.now end.now run.now) }
{
    push_aligned(to, 6, zone)?;
    push_aligned(to, 9, from)?;
    push_aligned(to, 9, end)?;
    push_aligned(to, 5, run)?;
    to.push(b'\n')?;
    Ok(())
}

// Appends a field behind as many spaces as the places that it leaves.
fn push_aligned(to: &mut Vec<u8>, width: usize, field: &[u8]) -> Result<(), NoMemory>
    ensures { OnOk result (to.new.items ≡ to.old.items ++ aligned_text width field.now) }
{
    push_spaces(to, width.saturating_sub(field.len()))?;
    to.extend_from_slice(field)?;
    Ok(())
}

fn push_spaces(to: &mut Vec<u8>, count: usize) -> Result<(), NoMemory>
    ensures { OnOk result (to.new.items ≡ to.old.items ++ replicate count 32) }
{
    'spaces: for _ in 0..count {
        to.push(b' ')?;
    }
    Ok(())
}
