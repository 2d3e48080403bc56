//! The top call.

ghost use Rattle.std.specs.Prelude.{◌≡◌, ◌≢◌, ◌⊎◌, ℕ, List, map, string_bytes};
ghost use Rattle.outside_io.specs.Openings.{Undisturbed};
ghost use Rattle.command_reports.specs.Scenes.{scene};
ghost use Rattle.osrd_stdcm.specs.Complete.{AreUnhindered, IsAnswered};
ghost use Rattle.osrd_stdcm.specs.Runs.{AskNoClients, AskNoDisk, AskNoLeft, AskNothing, IsDone};
ghost use Rattle.osrd_stdcm.specs.Runs.{IsRefused, RunLeaves, RunSays, TellsWords};

use crate::orders::obey;
use admission_rules::Rule;
use admission_rules::client_rules::ClientRules;
use command_reports::exit_status::Status;
use command_reports::{Refusal, finish};
use command_words::{WordsFault, read_words};
use outside_io::Outside;
use std::alloc::{AllocGlobal, Global};
use std::sync::Wait;
use std::thread::Threads;

/// Runs the command that the words ask for, with rules of clients.
///
/// `list --network F --out F` writes the table of a network's zones and blocks.
///
/// `init --network F --base F --journal F` begins a journal; with `--from G` the entries of an
/// old journal are moved to it.
///
/// `serve --network F --trains F --base F --journal F --client NAME=IN:OUT`, with 1 to 16 clients,
/// answers the lines of all clients at once, over the journal. With `--rule NAME=quota:N`,
/// `--rule NAME=curfew:FROM:TO` or `--rule NAME=longest:METRES`, any number of them, paths are
/// denied to clients by rules. These are made by the caller, and handed in: those of a client are
/// in the elements with its name, in order. Elements with other names are dropped. With
/// `--proof NAME=F`, at most one for a client, the proof of each reply to it that grants a path, or
/// tells that there is none, is written to F before the reply.
///
/// `stairs --network F --base F --journal F --entry I --out F` writes
/// the stairway table of a grant.
///
/// `capacity --network F --base F --journal F --first A --last B --from T --to T --out F`
/// writes how full a stretch is.
///
/// `check --network F --trains F --base F --journal F --proof F` judges proofs that requests could
/// not be granted, each by the first entries of the journal's history that it names, and reports
/// how many there are, or the first that does not hold.
///
/// `batch --network F --trains F --base F --journal F --client NAME=IN:OUT --workers W` reads a
/// list of asks as a whole, has its lines answered by 1 to 16 workers at once, over the journal,
/// and writes the replies in the order of the list. A worker is a client of its own: the first is
/// `NAME_01`. With `--rule NAME_01=quota:N` and the like paths are denied to workers by rules,
/// which are made and handed in as those of `serve` are. A list with a line that does not ask, or
/// with a number that stands twice, is refused as a whole.
///
/// `carry --network F --base F --journal F --from G --from-base H` carries the live holds and
/// grants of an old journal, which is one of the network and the base timetable of H, into a new
/// one, on an empty disk. Each is judged by the new timetable and by those carried before it.
/// Where one cannot stand there, nothing is carried, and the first such one is reported; with
/// `--left L` it is left out, and its line written to L before the new journal is.
///
/// `demo --number N --out F` asks a thousand times on a railway of its own, and
/// writes how many asks were granted.
///
/// Any other words are not understood, and this is reported.
pub fn run<R: AllocGlobal + Threads + Wait + Sync, O: Outside, L: Rule + Send>(
    rt: &R,
    words: &[String],
    outside: &mut O,
    rules: Vec<ClientRules<L>>,
) -> Status
    // All that is done, by the status and the report.
    ensures says { RunSays O.Src.Source O.Snk.Sink O.Dsk.Disk L.Rule rules.items
        (map string_bytes words.now) (scene O.Outside outside.old) (scene O.Outside outside.new)
        result }
    // Words comes exactly where the words ask for nothing; want of
    // memory alone may stand before it.
    ensures words { result ≡ Status.Words → AskNothing (map string_bytes words.now) }
    ensures form { AskNothing (map string_bytes words.now)
        → (result ≡ Status.Words) ⊎ (result ≡ Status.Memory) }
    // At Done all that was asked for was done.
    ensures done { result ≡ Status.Done → IsDone O.Src.Source O.Snk.Sink O.Dsk.Disk L.Rule
        rules.items (map string_bytes words.now) (scene O.Outside outside.old)
        (scene O.Outside outside.new) }
    // At No the command's own no was answered, for a reason that it has.
    ensures no { result ≡ Status.No → IsRefused O.Src.Source O.Snk.Sink O.Dsk.Disk
        (map string_bytes words.now) (scene O.Outside outside.old) (scene O.Outside outside.new) }
    // Where nothing hinders what the words ask for, it is done, or the command's own no is
    // answered, but for want of memory.
    ensures complete { AreUnhindered O.Src.Source O.Snk.Sink O.Dsk.Disk
        (scene O.Outside outside.old) (scene O.Outside outside.new) (map string_bytes words.now)
        → IsAnswered result }
    // At a refusal no sink gained anything, but for a file for the lines of entries that are left
    // out: whatever the words, and at want of memory too where they serve no clients.
    ensures refused { (name : List ℕ) → AskNoLeft (map string_bytes words.now) name
        → result ≢ Status.Done → result ≢ Status.ClientEnd → result ≢ Status.Report
        → result ≢ Status.Memory → O.sinks outside.new name ≡ O.sinks outside.old name }
    ensures clean { (name : List ℕ) → AskNoLeft (map string_bytes words.now) name
        → AskNoClients (map string_bytes words.now) → result ≢ Status.Done
        → result ≢ Status.Report → O.sinks outside.new name ≡ O.sinks outside.old name }
    // Whatever the status, a journal that is only to be read was only read. Where one is carried,
    // a crash at each moment leaves of the new disk what it would have left before, or the whole
    // journal, or bytes that are opened as none; and no sink gained anything but that of the lines,
    // once all was read and worked out.
    ensures leaves { RunLeaves O.Src.Source O.Dsk.Disk (map string_bytes words.now)
        (scene O.Outside outside.old) (scene O.Outside outside.new) }
    // Whatever the status, all that was opened is put back, and no disk is touched
    // but those that the words name.
    ensures back { Undisturbed (O.standing outside.old) (O.standing outside.new) }
    ensures disks { (name : List ℕ) → AskNoDisk (map string_bytes words.now) name
        → O.disks outside.new name ≡ O.disks outside.old name }
{
    match read_words(rt.alloc(), words) {
        Ok(order) => obey(rt, order, rules, outside),
        Err(WordsFault::NotUnderstood) => refuse_words(rt.alloc(), outside),
        Err(WordsFault::Memory) => finish(Err(Refusal::Memory), outside),
    }
}

// Reports that the words are not understood.
fn refuse_words<O: Outside>(alloc: Global, outside: &mut O) -> Status
    ensures { TellsWords O.Snk.Sink (scene O.Outside outside.old) (scene O.Outside outside.new)
        result }
{
    let refusal = Refusal::with(alloc, Status::Words, b"words not understood", b"");
    finish(Err(refusal), outside)
}
