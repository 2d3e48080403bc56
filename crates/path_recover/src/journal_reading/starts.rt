ghost use Rattle.std.specs.Prelude.{◌≡◌, ◌↔◌, ◌++◌, ◌≤◌, [], ℕ, List, IfErr, IfOk, IfSome, IsNone};
ghost use Rattle.std.specs.Prelude.{IsTrue, length};
ghost use Rattle.grant_journal.specs.Headers.{header_of_version};
ghost use Rattle.path_recover.specs.Starts.{DiffersAt, IsOldVersion, NoneDiffers};
ghost use Rattle.path_recover.specs.Starts.{StartIsRefused, start_of};

use crate::journal_reading::OpenFault;
use grant_journal::journal_text::HEADER_BYTES;

// How many bytes every journal of a version begins with.
const START_BYTES: usize = 12;

fn start(version: u32) -> [u8; START_BYTES]
    ensures { result ≡ start_of version }
{
    let mut bytes = [0u8; 12];
    bytes[..8].copy_from_slice(b"STDCMJNL");
    bytes[8..].copy_from_slice(&version.to_be_bytes());
    bytes
}

// The first offset at which a file differs from a start, as far as both go.
fn first_difference(file: &[u8], start: &[u8]) -> Option<usize>
    ensures some { IfSome result (DiffersAt start.now file.now) }
    ensures none { IsNone result → NoneDiffers start.now file.now }
{
    let both = file.len().min(start.len());
    for at in 0..both {
        if file[at] != start[at] {
            return Some(at);
        }
    }
    None
}

fn digest(bytes: &[u8]) -> [u8; 32]
    requires { length bytes.now ≡ 32 }
    ensures { result ≡ bytes.now }
{
    let mut digest = [0u8; 32];
    digest.copy_from_slice(bytes);
    digest
}

fn is_same(one: &[u8], other: &[u8]) -> bool
    ensures { IsTrue result ↔ (one.now ≡ other.now) }
{
    one == other
}

fn begins_with(file: &[u8], start: &[u8]) -> bool
    ensures yes { IsTrue result → (rest : List ℕ) × (file.now ≡ start.now ++ rest) }
    ensures no { (rest : List ℕ) → file.now ≡ start.now ++ rest → IsTrue result }
{
    if file.len() < start.len() {
        return false;
    }
    let (front, _) = file.split_at(start.len());
    is_same(front, start)
}

// Whether a file is one of version 1, where another version is asked for.
fn is_old(file: &[u8], version: u32) -> bool
    ensures yes { IsTrue result → IsOldVersion version file.now }
    ensures no { IsOldVersion version file.now → IsTrue result }
{
    version != 1 && begins_with(file, &start(1))
}

// Both digests of a file that begins as a journal of this version, and
// what stands behind the header.
fn digests<'a>(file: &'a [u8], start: &[u8]) -> (&'a [u8], &'a [u8], &'a [u8])
    requires size { 76 ≤ length file.now }
    requires start { length start.now ≡ 12 }
    requires none { NoneDiffers start.now file.now }
    ensures split { file.now ≡ start.now ++ result.0.now ++ result.1.now ++ result.2.now }
    ensures network { length result.0.now ≡ 32 }
    ensures base { length result.1.now ≡ 32 }
{
    let (header, left) = file.split_at(HEADER_BYTES);
    let (_, digests) = header.split_at(START_BYTES);
    let (network, base) = digests.split_at(32);
    (network, base, left)
}

/// What stands behind the header of a journal of this version with these digests.
pub fn pass_header<'a>(
    file: &'a [u8],
    version: u32,
    network: &[u8; 32],
    base: &[u8; 32],
) -> Result<&'a [u8], OpenFault>
    ensures passed { IfOk result (λ left.
        file.now ≡ header_of_version version network.now base.now ++ left.now) }
    ensures refused { IfErr result (StartIsRefused version network.now base.now file.now) }
{
    if file.is_empty() {
        return Err(OpenFault::Empty);
    }
    if is_old(file, version) {
        return Err(OpenFault::OldVersion);
    }
    let start = start(version);
    if let Some(at) = first_difference(file, &start) {
        return Err(OpenFault::NotAJournal { at: at as u64 });
    }
    if file.len() < HEADER_BYTES {
        return Err(OpenFault::NotAJournal {
            at: file.len() as u64,
        });
    }
    let (had_network, had_base, left) = digests(file, &start);
    if !is_same(had_network, network) {
        return Err(OpenFault::OtherNetwork {
            had: digest(had_network),
            found: *network,
        });
    }
    if !is_same(had_base, base) {
        return Err(OpenFault::OtherBase {
            had: digest(had_base),
            found: *base,
        });
    }
    Ok(left)
}
