//! The journal, and what its history says of the proofs.

ghost use Rattle.std.specs.Prelude.{◌≡◌, ◌≤◌, length, IfOk};
ghost use Rattle.proof_texts.specs.lines.Within.{AreSound};
ghost use Rattle.command_reports.specs.Scenes.{scene};
ghost use Rattle.proof_texts.specs.declared.reading.TheConstants.{MAX_PROOF_FILE_BYTES};
ghost use Rattle.check_command.specs.Checks.{TellsProofs};
ghost use Rattle.check_command.specs.Works.{IsBaseRead, ReadsJournal, ReadsProofs, named_by};
ghost use Rattle.check_command.specs.Works.{names_of, plain_of};

use crate::checks::tell_proofs;
use crate::files::read_proof_file;
use command_files::base::bases_make_timetables;
use command_files::train::Trains;
use command_files::{BaseFile, NetworkFile};
use command_reports::Refusal;
use no_memory::NoMemory;
use outside_io::Outside;
use path_recover::history::History;
use print_commands::read_journal_file;
use proof_texts::lines::Known;
use rail_types::named_network::{BlockName, Named, ZoneName};
use rail_types::{List, Name, networks_without_flaws};
use std::alloc::Global;

/// The names of a network's parts, and trains.
#[derive(Debug, Drop)]
pub(crate) struct Parts {
    stops: List<Name>,
    blocks: List<BlockName>,
    zones: List<ZoneName>,
    trains: Trains,
}

// A network's file without the names, since a history judges by numbers alone; and the names,
// which the texts of proofs have.
fn parted(alloc: Global, network: NetworkFile, trains: Trains) -> (NetworkFile, Parts)
    ensures plain { result.0 ≡ plain_of network }
    ensures parts { named_by network.named.network result.1 ≡ names_of network trains }
{
    let NetworkFile { named, digest } = network;
    let Named {
        network,
        stops,
        blocks,
        zones,
    } = named;
    let named = Named {
        network,
        stops: List::new(alloc),
        blocks: List::new(alloc),
        zones: List::new(alloc),
    };
    let parts = Parts {
        stops,
        blocks,
        zones,
        trains,
    };
    (NetworkFile { named, digest }, parts)
}

// What the texts of proofs may name.
fn known_of(alloc: Global, history: &History, parts: Parts) -> Result<Known, NoMemory>
    requires sound { AreSound (named_by history.now.timetable.net parts) }
    ensures { IfOk result (λ known. known ≡ named_by history.now.timetable.net parts) }
{
    networks_without_flaws();
    let Parts {
        stops,
        blocks,
        zones,
        trains,
    } = parts;
    let network = history.net().copy(alloc)?;
    let named = Named {
        network,
        stops,
        blocks,
        zones,
    };
    let known = Known::new(alloc, named, trains)?;
    Ok(known)
}

// What the bytes of a file of proofs come to by a history, with these names.
fn tell_parts(
    alloc: Global,
    history: History,
    parts: Parts,
    bytes: &[u8],
) -> Result<List<u8>, Refusal>
    requires short { length bytes.now ≤ MAX_PROOF_FILE_BYTES }
    requires sound { AreSound (named_by history.timetable.net parts) }
    ensures { TellsProofs (named_by history.timetable.net parts) history.timetable history.entries
        bytes.now result }
{
    let Ok(known) = known_of(alloc, &history, parts) else {
        return Err(Refusal::Memory);
    };
    tell_proofs(alloc, &known, history, bytes)
}

// Reads the file of proofs, and judges them by a history.
fn check_history<O: Outside>(
    alloc: Global,
    history: History,
    parts: Parts,
    proof: &str,
    outside: &mut O,
) -> Result<List<u8>, Refusal>
    requires sound { AreSound (named_by history.timetable.net parts) }
    ensures works { ReadsProofs O.Src.Source proof.now (named_by history.timetable.net parts)
        history (scene O.Outside outside.old) (scene O.Outside outside.new) result }
{
    let bytes = read_proof_file(alloc, proof, outside)?;
    tell_parts(alloc, history, parts, &bytes)
}

/// Reads the journal of these files, and judges the proofs by its history.
pub(crate) fn check_journal<O: Outside>(
    alloc: Global,
    network: NetworkFile,
    trains: Trains,
    base: BaseFile,
    journal: &str,
    proof: &str,
    outside: &mut O,
) -> Result<List<u8>, Refusal>
    requires read { IsBaseRead network trains base }
    ensures works { ReadsJournal O.Src.Source O.Dsk.Disk journal.now proof.now network trains base
        (scene O.Outside outside.old) (scene O.Outside outside.new) result }
{
    bases_make_timetables();
    let (plain, parts) = parted(alloc, network, trains);
    let history = read_journal_file(alloc, plain, base, journal, outside)?;
    check_history(alloc, history, parts, proof, outside)
}
