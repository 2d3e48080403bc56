ghost use Rattle.std.specs.Prelude.{◌≡◌, ◌+◌, ◌<◌, ◌≤◌, ◌^◌, [], ℕ, List, All, Some, IfErr, IfOk};
ghost use Rattle.std.specs.Prelude.{IfSome, OnOk, length};
ghost use Rattle.grant_journal.specs.Histories.{bodies_of, bytes_of};
ghost use Rattle.grant_log.specs.Following.{AreLive};
ghost use Rattle.occupation_book.specs.Held.{held};
ghost use Rattle.path_recover.specs.Failing.{IsAsFaulty, IsNotOfDisk, IsOnlyRead, IsUnread};
ghost use Rattle.path_recover.specs.Files.{IsFound, IsRefused, TellsHistory};
ghost use Rattle.path_recover.specs.Walks.{IsSpelledIn};
ghost use Rattle.rail_types.specs.declared.entries.Entry.{Entry as entry_type};

use crate::history_reading::histories::{Found, read_history};
use crate::history_reading::laws::one_reading;
use crate::history_reading::pieces::read_file;
use crate::journal_reading::{OpenFault, pass_header};
use grant_journal::journal_text::bytes_are_counted;
use grant_log::History;
use outside_io::Disk;
use std::alloc::Global;

/// Reads a journal of a version, for a network's file and a base timetable's file with these
/// digests: a sync, and one pass over the bytes. It begins with the empty history of their network
/// and their base timetable, and writes nothing.
pub fn read_journal<D: Disk>(
    alloc: Global,
    disk: &mut D,
    empty: History,
    version: u32,
    network: &[u8; 32],
    base: &[u8; 32],
) -> Result<Found, OpenFault>
    requires empty { empty.entries ≡ [] }
    ensures timetable { IfOk result (λ found. found.history.timetable ≡ empty.timetable) }
    ensures found { IfOk result (λ found. IfSome (D.contents disk.old) (λ file. IsFound
        empty.timetable version network.now base.now file found.history.entries found.gate)) }
    ensures room { IfOk result (λ found. found.gate + 1 < 2 ^ 64) }
    ensures used { IfOk result (λ found. found.gate + 1 ≡ bytes_of found.history.entries) }
    ensures short { IfOk result (λ found.
        All (λ body. length body < 2 ^ 32) (bodies_of found.history.entries)) }
    ensures spelled { IfOk result (λ found. All (IsSpelledIn version) found.history.entries) }
    ensures live { IfOk result (λ found. AreLive
        found.history.timetable (held found.claims) found.history.entries) }
    ensures zones { IfOk result (λ found.
        length found.claims ≡ found.history.timetable.net.zones) }
    ensures durable { OnOk result ((image : List ℕ) → D.images disk.new image →
        D.contents disk.old ≡ Some image) }
    ensures read { IsOnlyRead D.Disk disk.old disk.new }
    ensures tick { D.clock disk.new ≤ D.clock disk.old + 1 }
    ensures whole { IfErr result (λ fault. IfSome (D.contents disk.old) (λ file.
        (entries : List entry_type) → TellsHistory empty.timetable version network.now base.now
        file entries → IsUnread fault)) }
    ensures refused { IfErr result (λ fault. IfSome (D.contents disk.old) (λ file.
        IsRefused empty.timetable version network.now base.now file fault)) }
    ensures cause { IsAsFaulty (D.faults disk.old) (D.faults disk.new) result }
{
    one_reading();
    let file = read_file(alloc, disk)?;
    read_bytes(alloc, &file, empty, version, network, base)
}

// The history of these bytes.
pub(crate) fn read_bytes(
    alloc: Global,
    file: &[u8],
    empty: History,
    version: u32,
    network: &[u8; 32],
    base: &[u8; 32],
) -> Result<Found, OpenFault>
    requires empty { empty.entries ≡ [] }
    ensures timetable { IfOk result (λ found. found.history.timetable ≡ empty.timetable) }
    ensures found { IfOk result (λ found. IsFound
        empty.timetable version network.now base.now file.now found.history.entries found.gate) }
    ensures room { IfOk result (λ found. found.gate + 1 < 2 ^ 64) }
    ensures used { IfOk result (λ found. found.gate + 1 ≡ bytes_of found.history.entries) }
    ensures short { IfOk result (λ found.
        All (λ body. length body < 2 ^ 32) (bodies_of found.history.entries)) }
    ensures spelled { IfOk result (λ found. All (IsSpelledIn version) found.history.entries) }
    ensures live { IfOk result (λ found. AreLive
        found.history.timetable (held found.claims) found.history.entries) }
    ensures zones { IfOk result (λ found.
        length found.claims ≡ found.history.timetable.net.zones) }
    ensures refused { IfErr result
        (IsRefused empty.timetable version network.now base.now file.now) }
    ensures quiet { IfErr result IsNotOfDisk }
{
    bytes_are_counted();
    let left = pass_header(file, version, network, base)?;
    let found = read_history(alloc, empty, left, version)?;
    Ok(found)
}
