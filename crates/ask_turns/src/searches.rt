//! One search beside a client's copy.

ghost use Rattle.std.specs.Prelude.{◌≡◌, ◌++◌, ◌≤◌, false, [], IfOk, IsTrue, OnOk, length};
ghost use Rattle.client_lines.specs.Rooms.{PrintsRuns};
ghost use Rattle.client_lines.specs.Within.{AreSound};
ghost use Rattle.path_labels.specs.Answers.{IsFinding, claims_held};
ghost use Rattle.proof_texts.specs.Prints.{HasPointsOf};
ghost use Rattle.proof_texts.specs.Texts.{proof_text};
ghost use Rattle.rail_types.specs.declared.limits.TheConstants.{MAX_NUMBER};
ghost use Rattle.ask_turns.specs.Finds.{HasRoom, HasRoomOf, IsFoundBeside, MayBeSearched};
ghost use Rattle.ask_turns.specs.Finds.{entry_for};
ghost use Rattle.ask_turns.specs.Shown.{IsShown, ShowsBeside};

use crate::asks::{Ask, Found};
use crate::certificates::{Certified, certificates_can_be_told, seek_certified};
use crate::client_turns::Client;
use crate::laws::found_paths_are_short;
use byte_fields::Buffer;
use client_lines::Known;
use client_lines::reply_texts::reply_room;
use no_memory::NoMemory;
use path_labels::find_by;
use proof_texts::{Proof, proof_text};
use rail_types::named_network::Named;
use rail_types::{Deed, Entry, KeptRequest, MAX_NUMBER, Path, Settings, Wanted};
use std::alloc::Global;

// Searches a path beside the client's copy, and makes room for the reply that tells it. None where
// no path can be granted there. The buffer of the proof is emptied before, and where one is wanted
// it has the text of what shows the answer.
pub(crate) fn find_entry(
    alloc: Global,
    known: &Known,
    settings: &Settings,
    client: &Client,
    ask: &Ask,
    text: &mut Buffer,
    proves: bool,
    proof: &mut Buffer,
) -> Result<Option<Found>, NoMemory>
    requires sound { AreSound known.now }
    requires may { MayBeSearched known.now.railway.network settings.now ask.now }
    requires zones { length client.now.copy ≡ known.now.railway.network.zones }
    ensures found { IfOk result
        (IsFoundBeside known.now.railway.network settings.now client.now ask.now) }
    ensures shown { IfOk result (λ found. IsTrue proves
        → ShowsBeside known.now settings.now client.now ask.now proof.new.held found) }
    ensures bare { proves ≡ false → proof.new.held ≡ [] }
    ensures room { IfOk result (HasRoom text.new) }
    ensures held { text.new.held ≡ text.old.held }
    ensures spare { text.old.spare ≤ text.new.spare }
{
    found_paths_are_short();
    let sought = seek_path(alloc, known, settings, client, ask, proves, proof)?;
    let Some(path) = sought else {
        return Ok(None);
    };
    let found = taken(alloc, client, ask, path, text)?;
    Ok(Some(found))
}

// What takes a path that was found for an ask, with room for the reply that tells it.
fn taken(
    alloc: Global,
    client: &Client,
    ask: &Ask,
    path: Path,
    text: &mut Buffer,
) -> Result<Found, NoMemory>
    requires prints { PrintsRuns (length path.runs) path.runs }
    ensures entry { IfOk result (λ found. found.entry ≡ entry_for client.now.name ask.now path) }
    ensures runs { IfOk result (λ found. found.runs ≡ path.runs) }
    ensures room { IfOk result (λ found. HasRoomOf text.new found.runs) }
    ensures held { text.new.held ≡ text.old.held }
    ensures spare { text.old.spare ≤ text.new.spare }
{
    text.reserve(reply_room(path.runs.len() as u32))?;
    let runs = path.runs.copy(alloc)?;
    let entry = entry_of(alloc, client, ask, path)?;
    Ok(Found { entry, runs })
}

// The path of an ask beside the client's copy, or None. The buffer of the proof is emptied before,
// and where one is wanted it has the text of what shows the answer.
fn seek_path(
    alloc: Global,
    known: &Known,
    settings: &Settings,
    client: &Client,
    ask: &Ask,
    proves: bool,
    proof: &mut Buffer,
) -> Result<Option<Path>, NoMemory>
    requires sound { AreSound known.now }
    requires may { MayBeSearched known.now.railway.network settings.now ask.now }
    requires zones { length client.now.copy ≡ known.now.railway.network.zones }
    ensures found { IfOk result (IsFinding known.now.railway.network settings.now
        (claims_held client.now.copy) ask.now.request) }
    ensures shown { IfOk result (λ path. IsTrue proves
        → IsShown known.now known.now.railway.network settings.now (claims_held client.now.copy)
        client.now.front ask.now path proof.new.held) }
    ensures bare { proves ≡ false → proof.new.held ≡ [] }
{
    proof.clear();
    if proves {
        seek_shown(alloc, known, settings, client, ask, proof)
    } else {
        find_by(
            alloc,
            &known.railway().network,
            settings,
            client.copy(),
            &ask.request,
            &ask.guide,
        )
    }
}

// The same with the text of what shows the answer in an empty buffer.
fn seek_shown(
    alloc: Global,
    known: &Known,
    settings: &Settings,
    client: &Client,
    ask: &Ask,
    proof: &mut Buffer,
) -> Result<Option<Path>, NoMemory>
    requires sound { AreSound known.now }
    requires may { MayBeSearched known.now.railway.network settings.now ask.now }
    requires zones { length client.now.copy ≡ known.now.railway.network.zones }
    requires empty { proof.old.held ≡ [] }
    ensures found { IfOk result (IsFinding known.now.railway.network settings.now
        (claims_held client.now.copy) ask.now.request) }
    ensures shown { IfOk result (λ path. IsShown known.now known.now.railway.network settings.now
        (claims_held client.now.copy) client.now.front ask.now path proof.new.held) }
{
    certificates_can_be_told();
    let railway = known.railway();
    let net = &railway.network;
    let found = seek_certified(
        alloc,
        net,
        settings,
        client.copy(),
        &ask.request,
        &ask.guide,
    )?;
    let Certified {
        path,
        excluded,
        closed,
    } = found;
    let at = client.front();
    let shows = Proof {
        at,
        number: ask.number,
        request: excluded,
        closed,
    };
    append_proof(&shows, railway, proof)?;
    Ok(path)
}

// Appends the text of what shows an answer. A text tells no greater numbers than these; there is
// no memory for lists that are so long.
fn append_proof(shows: &Proof, railway: &Named, proof: &mut Buffer) -> Result<(), NoMemory>
    requires points { HasPointsOf (length railway.now.stops) shows.now.request }
    ensures early { OnOk result (shows.now.at ≤ MAX_NUMBER) }
    ensures few { OnOk result (length shows.now.closed.members ≤ MAX_NUMBER) }
    ensures text { OnOk result
        (proof.new.held ≡ proof.old.held ++ proof_text railway.now.stops shows.now) }
{
    if shows.at > MAX_NUMBER || shows.closed.members.len() as u64 > MAX_NUMBER {
        Err(NoMemory)
    } else {
        proof_text(shows, railway, proof)
    }
}

// The client's entry that takes a path for an ask.
fn entry_of(alloc: Global, client: &Client, ask: &Ask, path: Path) -> Result<Entry, NoMemory>
    ensures { IfOk result (λ entry. entry ≡ entry_for client.now.name ask.now path) }
{
    let owner = client.name().copy(alloc)?;
    let request = KeptRequest::copy_of(alloc, &ask.request)?;
    Ok(Entry {
        owner,
        number: ask.number,
        line: ask.line,
        deed: Deed::Grant(Wanted::Asked(request), path),
    })
}
