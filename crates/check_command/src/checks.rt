//! A file of proofs, judged one by one.

ghost use Rattle.std.specs.Prelude.{◌≡◌, ◌≢◌, ◌≤◌, [], length, IfErr, IfOk, OnOk};
ghost use Rattle.proof_texts.specs.lines.Within.{AreSound};
ghost use Rattle.path_recover.specs.history.Legal.{IsLegal};
ghost use Rattle.proof_texts.specs.declared.reading.TheConstants.{MAX_PROOF_FILE_BYTES};
ghost use Rattle.rail_types.specs.Flaws.{first_flaw};
ghost use Rattle.refusal_proof.specs.tails.Following.{AreFollowers};
ghost use Rattle.check_command.specs.Checks.{TellsProofs};
ghost use Rattle.check_command.specs.Counts.{AreCounted};
ghost use Rattle.check_command.specs.Doubts.{BeginsWell, HasGood, IsDoubtIn, Refutes};
ghost use Rattle.check_command.specs.Replays.{IsUp, entries_of};

use crate::counts::SpotCounts;
use crate::doubts::{Doubt, Why, done_told, refusal_of};
use crate::judging::{Judged, followers_of, judge};
use crate::replays::{Replay, begin, go_to};
use command_reports::Refusal;
use no_memory::NoMemory;
use path_recover::history::History;
use proof_texts::lines::Known;
use proof_texts::{ProofFault, proofs_are_read_once, read_proof};
use rail_types::List;
use refusal_proof::tails::Followers;
use std::alloc::Global;

// Judges the proof at the beginning of a text, and tells how long its text is.
fn check_first(
    alloc: Global,
    known: &Known,
    followers: &Followers,
    counts: &mut SpotCounts,
    replay: &mut Replay,
    front: u64,
    text: &[u8],
) -> Result<usize, Why>
    requires short { length text.now ≤ MAX_PROOF_FILE_BYTES }
    requires some { text.now ≢ [] }
    requires sound { AreSound known.now }
    requires network { known.now.railway.network ≡ replay.old.history.timetable.net }
    requires followers { AreFollowers replay.old.history.timetable.net followers.now }
    requires counts { AreCounted replay.old.history.timetable.net counts.old.kept.items }
    requires legal { IsLegal replay.old.history.timetable (entries_of replay.old) }
    requires front { front ≡ length (entries_of replay.old) }
    requires up { IsUp replay.old }
    ensures counts { OnOk result
        (AreCounted replay.old.history.timetable.net counts.new.kept.items) }
    ensures timetable { OnOk result
        (replay.new.history.timetable ≡ replay.old.history.timetable) }
    ensures all { OnOk result (entries_of replay.new ≡ entries_of replay.old) }
    ensures up { OnOk result (IsUp replay.new) }
    ensures good { IfOk result (BeginsWell known.now replay.old.history.timetable
        (entries_of replay.old) text.now) }
    ensures refuted { IfErr result (Refutes known.now replay.old.history.timetable
        (entries_of replay.old) text.now) }
{
    // A text begins with one proof, and the timetable of a history is sound.
    proofs_are_read_once();
    replay.history.net();
    let (proof, count) = match read_proof(alloc, text, known) {
        Ok(read) => read,
        Err(ProofFault::NotUnderstood) => return Err(Why::NotUnderstood),
        Err(ProofFault::Memory) => return Err(Why::Memory),
    };
    if proof.at > front {
        return Err(Why::NotUnderstood);
    }
    go_to(alloc, replay, proof.at)?;
    let history = &replay.history;
    let settings = history.settings();
    match judge(
        alloc,
        history.net(),
        settings,
        &replay.book,
        followers,
        counts,
        &proof,
    )? {
        Judged::Good => Ok(count),
        Judged::Wide => Err(Why::Wide),
        Judged::Fails => Err(Why::Fails),
    }
}

// Judges the proofs of a text, one behind the other, and tells how many there are; or
// the first that does not hold.
fn check_all(
    alloc: Global,
    known: &Known,
    followers: &Followers,
    replay: &mut Replay,
    front: u64,
    bytes: &[u8],
) -> Result<u64, Doubt>
    requires short { length bytes.now ≤ MAX_PROOF_FILE_BYTES }
    requires sound { AreSound known.now }
    requires network { known.now.railway.network ≡ replay.old.history.timetable.net }
    requires followers { AreFollowers replay.old.history.timetable.net followers.now }
    requires legal { IsLegal replay.old.history.timetable (entries_of replay.old) }
    requires front { front ≡ length (entries_of replay.old) }
    requires up { IsUp replay.old }
    ensures good { IfOk result (HasGood known.now replay.old.history.timetable
        (entries_of replay.old) bytes.now (length bytes.now)) }
    ensures doubt { IfErr result (IsDoubtIn known.now replay.old.history.timetable
        (entries_of replay.old) bytes.now) }
{
    let mut counts = SpotCounts::new(alloc);
    let mut at = 0usize;
    let mut position = 0u64;
    while at < bytes.len() {
        let (_, text) = bytes.split_at(at);
        match check_first(alloc, known, followers, &mut counts, replay, front, text) {
            Ok(count) => {
                at += count;
                position += 1;
            }
            Err(why) => return Err(Doubt { position, why }),
        }
    }
    Ok(position)
}

// The same over a history that stands at its end.
fn check_bytes(
    alloc: Global,
    known: &Known,
    history: History,
    bytes: &[u8],
) -> Result<Result<u64, Doubt>, NoMemory>
    requires short { length bytes.now ≤ MAX_PROOF_FILE_BYTES }
    requires sound { AreSound known.now }
    requires network { known.now.railway.network ≡ history.timetable.net }
    ensures good { IfOk result (λ judged. IfOk judged (HasGood known.now history.timetable
        history.entries bytes.now (length bytes.now))) }
    ensures doubt { IfOk result (λ judged. IfErr judged (IsDoubtIn known.now history.timetable
        history.entries bytes.now)) }
{
    // Each entry of a history is legal by those before it, and its network has no flaw.
    let front = history.front();
    let followers = followers_of(alloc, history.net())?;
    let mut replay = begin(alloc, history)?;
    let judged = check_all(alloc, known, &followers, &mut replay, front, bytes);
    Ok(judged)
}

/// What the bytes of a file of proofs come to by a history: the line of how many there are, where
/// each holds; or the first that does not. The claims that are live at the first entries are kept
/// in one book, which goes on from the front of one proof to that of the next; where a front lies
/// before the one before it, the book is made anew. So proofs in the order of their fronts cost one
/// pass over the entries together.
pub(crate) fn tell_proofs(
    alloc: Global,
    known: &Known,
    history: History,
    bytes: &[u8],
) -> Result<List<u8>, Refusal>
    requires short { length bytes.now ≤ MAX_PROOF_FILE_BYTES }
    requires sound { AreSound known.now }
    requires network { known.now.railway.network ≡ history.timetable.net }
    ensures { TellsProofs known.now history.timetable history.entries bytes.now result }
{
    let Ok(judged) = check_bytes(alloc, known, history, bytes) else {
        return Err(Refusal::Memory);
    };
    match judged {
        Ok(count) => match done_told(alloc, count) {
            Ok(line) => Ok(line),
            Err(NoMemory) => Err(Refusal::Memory),
        },
        Err(doubt) => Err(refusal_of(alloc, doubt)),
    }
}
