//! The gate of clients: opened for a book, seats taken and left, and closed.

ghost use Rattle.std.specs.Prelude.{◌≡◌, ◌≢◌, ◌+◌, ◌*◌, ◌<◌, ◌≤◌, ◌++◌, ◌∷◌, [], List, All};
ghost use Rattle.std.specs.Prelude.{AllPairs, IfErr, IfOk, length};
ghost use Rattle.line_answers.specs.gate.Passes.{opened, turns_given, turns_left, view};
ghost use Rattle.line_answers.specs.gate.Views.{StartsWith};
ghost use Rattle.client_lines.specs.Within.{AreSound};
ghost use Rattle.command_line.specs.declared.client_words.clients.TheConstants.{MAX_CLIENTS};
ghost use Rattle.admission_rules.specs.Ruled.{stand};
ghost use Rattle.served_clients.specs.Gates.{IsHost, IsNewcomer, IsOpened};
ghost use Rattle.served_clients.specs.declared.client_seats.gates.TheConstants.{TURNS_OF_A_CLIENT};
ghost use Rattle.served_clients.specs.Joins.{AreJoined};
ghost use Rattle.served_clients.specs.ClientRuns.{IsRun, told_own};
ghost use Rattle.served_clients.specs.Seats.{found_at, IsBack, IsDone, IsTaken};
ghost use Rattle.served_clients.specs.Talks.{Talk as talk_type};
ghost use Rattle.line_answers.specs.turns.Turns.{IsReady, timetable_at};
ghost use Rattle.line_answers.specs.turns.Sharing.{IsShared};
ghost use Rattle.line_answers.specs.book.Footings.{footing_of};
ghost use Rattle.line_answers.specs.book.Ledgers.{settled_of};
ghost use Rattle.rail_types.specs.declared.entries.Entry.{Entry as entry_type};
ghost use Rattle.line_answers.specs.tails.Following.{AreFollowers};

use crate::client_seats::newcomers::Newcomer;
use crate::client_seats::seats::Seat;
use crate::client_seats::tellings::told;
use admission_rules::Rule;
use client_lines::Known;
use line_answers::Shared;
use line_answers::book::Book;
use line_answers::gate::{Gate, Pass};
use line_answers::tails::Followers;
use line_answers::turns::Guest;
use no_memory::NoMemory;
use outside_io::{Between, Disk};
use rail_types::networks_without_flaws;
use std::alloc::Global;

/// Turns that a client may take: each of its lines takes at most four, and it has at most
/// `MAX_LINES`.
pub const TURNS_OF_A_CLIENT: u64 = 400_000;

/// Gives a book to a gate with seats for so many clients, at most `MAX_CLIENTS`, and hands out the
/// pass from which they get theirs. For want of memory the book is handed back.
pub fn open_gate<D: Disk>(
    alloc: Global,
    book: Book<D>,
    known: Known,
    clients: usize,
) -> Result<(Shared<D>, Pass<Book<D>>), (Book<D>, NoMemory)>
    requires few { clients ≤ MAX_CLIENTS }
    requires known { AreSound known }
    requires network { known.railway.network ≡ book.timetable.net }
    ensures opened { IfOk result (λ r. IsOpened book known clients r.0 r.1) }
    ensures refused { IfErr result (λ e. e.0 ≡ book) }
{
    let Ok(followers) = followers_of(alloc, &known) else {
        return Err((book, NoMemory));
    };
    let settings = *book.history().settings();
    let count = clients as u64;
    match Gate::new(alloc, book, count * TURNS_OF_A_CLIENT + 1) {
        Ok((gate, pass)) => {
            let shared = Shared {
                gate,
                known,
                settings,
                followers,
            };
            Ok((shared, pass))
        }
        Err((book, refused)) => Err((book, refused)),
    }
}

// Which blocks follow one another in the network.
fn followers_of(alloc: Global, known: &Known) -> Result<Followers, NoMemory>
    requires { AreSound known.now }
    ensures { IfOk result (AreFollowers known.now.railway.network) }
{
    networks_without_flaws();
    let followers = Followers::new(alloc, &known.railway().network)?;
    Ok(followers)
}

/// Gives a client a pass, with the turns that its lines may take, and tells its
/// rules of its entries that were found. Where it wants proofs, one goes along with
/// each of its replies that has one.
pub fn take_seat<'a, D: Disk, B: Between + Drop, L: Rule>(
    shared: &'a Shared<D>,
    pass: &mut Pass<Book<D>>,
    newcomer: Newcomer,
    between: B,
    rules: Vec<L>,
    proves: bool,
) -> Seat<'a, D, B, L>
    requires shared { IsShared shared.now }
    requires host { IsHost shared.now pass.old }
    requires share { TURNS_OF_A_CLIENT < (view pass.old).share }
    requires newcomer { IsNewcomer (timetable_at shared.now.gate) (found_at shared.now.gate)
        newcomer.client.name newcomer }
    ensures host { IsHost shared.now pass.new }
    ensures share { (view pass.new).share + TURNS_OF_A_CLIENT ≡ (view pass.old).share }
    ensures taken { IsTaken shared.now result }
    ensures name { result.guest.client.name ≡ newcomer.client.name }
    ensures between { result.guest.between ≡ between }
    ensures proves { result.guest.proves ≡ proves }
    ensures rules { stand L.Rule result.rules.items ≡ told_own (found_at shared.now.gate)
        newcomer.client.name (stand L.Rule rules.items) }
{
    let Newcomer { client, tellings } = newcomer;
    let pass = shared.gate.split(pass, TURNS_OF_A_CLIENT);
    let guest = Guest {
        pass,
        client,
        between,
        proves,
    };
    Seat {
        shared,
        guest,
        rules: told(rules, &tellings),
    }
}

/// Takes the pass of a client in again, and hands back its rules.
pub fn leave_seat<'a, D: Disk, B: Between + Drop, L: Rule>(
    shared: &Shared<D>,
    pass: &mut Pass<Book<D>>,
    seat: Seat<'a, D, B, L>,
) -> Vec<L>
    requires ready { IsReady shared.now.gate pass.old }
    requires back { IsBack shared.now seat }
    ensures ready { IsReady shared.now.gate pass.new }
    ensures share { (view pass.new).share ≡ (view pass.old).share + TURNS_OF_A_CLIENT }
    ensures turns { (view seat.entry.guest.pass).turns ≡ []
        → (view pass.new).turns ≡ (view pass.old).turns }
    ensures rules { result ≡ seat.entry.rules }
    ensures seen { (history : List entry_type)
        → All (λ list. StartsWith history list) (view pass.new).joined
        → All (λ list. StartsWith history list) (view pass.old).joined
        × StartsWith history (view seat.entry.guest.pass).seen }
    ensures joined { (talks : List talk_type) (talk : talk_type)
        → AreJoined shared.now (view pass.old) talks → IsDone L.Rule shared.now seat.entry talk
        → AreJoined shared.now (view pass.new) (talks ++ talk ∷ []) }
{
    let Seat {
        shared: _shared,
        guest,
        rules,
    } = seat;
    let Guest {
        pass: other,
        client: _client,
        between: _between,
        proves: _proves,
    } = guest;
    shared.gate.join(pass, other);
    rules
}

/// Hands back the book, once all seats are left.
pub fn close_gate<D: Disk>(shared: Shared<D>, pass: Pass<Book<D>>) -> Book<D>
    requires ready { IsReady shared.gate pass }
    requires share { (view pass).share ≡ turns_given shared.gate }
    requires settled { settled_of (opened shared.gate) ≡ length (found_at shared.gate) }
    // Where no turn was taken the book is as it was.
    ensures untouched { (view pass).turns ≡ [] → result ≡ opened shared.gate }
    ensures joined { All (λ list. StartsWith result.entries list) (view pass).joined }
    ensures begins { StartsWith result.entries (found_at shared.gate) }
    ensures footing { footing_of result ≡ footing_of (opened shared.gate) }
    // What the clients were told is one history.
    ensures run { (talks : List talk_type) → AreJoined shared (view pass) talks
        → AllPairs (λ a b. a.name ≢ b.name) talks
        → IsRun D.faults shared.known (opened shared.gate) result talks }
{
    let Shared {
        gate,
        known: _known,
        settings: _settings,
        followers: _followers,
    } = shared;
    let book = gate.close(pass);
    // The book tells that each of its entries is legal by those before it.
    book.keeps();
    book
}
