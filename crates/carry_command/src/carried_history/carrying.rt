//! A history carried into another timetable.

ghost use Rattle.std.specs.Prelude.{◌≡◌, ◌<◌, ◌^◌, ◌∷◌, ◌++◌, [], All, IfOk, length};
ghost use Rattle.path_recover.specs.spelling.Within.{HasBody};
ghost use Rattle.path_recover.specs.journal.Headers.{header_of};
ghost use Rattle.path_recover.specs.journal.Histories.{bodies_of, front_of};
ghost use Rattle.carry_command.specs.Carried.{entries_at, IsCarriedOf};

use crate::carried_history::holding::roomy_copy_of;
use crate::carried_history::joining::{Carrying, carry_at};
use crate::carried_history::reasons::LeftOut;
use byte_fields::{Buffer, put_u8};
use no_memory::NoMemory;
use path_recover::claims::Occupations;
use path_recover::history::History;
use path_recover::journal::journal_text::header;
use rail_types::List;
use std::alloc::Global;

/// What was carried: the bytes of a journal with its entries, the positions that they had, and the
/// entries that were left out, each of both in the order in which they stood.
#[derive(Drop)]
pub struct Carried {
    pub file: List<u8>,
    pub kept: Vec<u64>,
    pub left: Vec<LeftOut>,
}

/// Carries the live holds and grants of a history into the timetable of an empty one of the same
/// network, in their order, and spells them as a journal for files with these digests. Each is
/// judged by that timetable and by those carried before it, and left out where it is not fresh by
/// them. No entry is copied, and the claims of each are looked up and held once. So the work is
/// that of judging and spelling each live entry once; and what is held beside the history is their
/// claims, their old positions and their bytes. Room is made first for as many claims as the
/// history had, which are let go of before, and for as many bytes as its journal had.
pub fn carry(
    alloc: Global,
    old: &History,
    claims: Occupations,
    bytes: u64,
    empty: &History,
    network: &[u8; 32],
    base: &[u8; 32],
) -> Result<Carried, NoMemory>
    requires empty { empty.now.entries ≡ [] }
    requires net { empty.now.timetable.net ≡ old.now.timetable.net }
    requires short { All (λ body. length body < 2 ^ 32) (bodies_of old.now.entries) }
    ensures carried { IfOk result (λ carried. IsCarriedOf empty.now.timetable old.now.entries
        (entries_at old.now.entries carried.kept.items) carried.kept.items carried.left.items) }
    ensures spelled { IfOk result (λ carried. carried.file
        ≡ front_of (header_of network.now base.now)
        (bodies_of (entries_at old.now.entries carried.kept.items)) ++ 0 ∷ []) }
    ensures has { IfOk result (λ carried.
        All HasBody (entries_at old.now.entries carried.kept.items)) }
{
    // What has its room from the first is never moved, and leaves no holes behind.
    let book = roomy_copy_of(alloc, empty, claims)?;
    let mut file = Buffer::new(alloc);
    file.reserve(bytes as usize)?;
    file.extend(&header(network, base))?;
    let mut kept = Vec::new(alloc);
    kept.reserve(old.front() as usize)?;
    let mut carrying = Carrying {
        book,
        file,
        kept,
        left: Vec::new(alloc),
    };
    for at in 0..old.front() {
        carry_at(old, empty, at, &mut carrying)?;
    }
    put_u8(&mut carrying.file, 0)?;
    Ok(Carried {
        file: List::from_vec(carrying.file.into_vec()),
        kept: carrying.kept,
        left: carrying.left,
    })
}
