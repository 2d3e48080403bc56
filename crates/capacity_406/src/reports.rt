//! The text of a capacity.

ghost use Rattle.std.specs.Prelude.{◌≡◌, ◌+◌, ◌<◌, ◌≤◌, ◌^◌, ◌++◌, ◌+ℤ◌, ◌-ℤ◌, ◌<ℤ◌, ◌≤ℤ◌, ℕ, ◌↔◌};
ghost use Rattle.std.specs.Prelude.{codes, length, pos, min, All, IsErr, IfErr, IfOk, IsTrue, OnOk};
ghost use Rattle.std.specs.List.{flat_map};
ghost use Rattle.rail_types.specs.Limits.{IsNear, IsNearSpan};
ghost use Rattle.rail_types.specs.declared.limits.TheConstants.{FAR_TICK};
ghost use Rattle.rail_types.specs.declared.paths.Claim.{Claim as claim_type};
ghost use Rattle.capacity_406.specs.declared.TheConstants.{MAX_TRAINS as max_trains};
ghost use Rattle.capacity_406.specs.declared.trains.CapacityFault.TheVariants.{Many as many_of};
ghost use Rattle.capacity_406.specs.declared.trains.CapacityFault.TheVariants.{Memory as memory};
ghost use Rattle.capacity_406.specs.Trains.{AreBeside, AreOwnApart, IsFirstClaim};
ghost use Rattle.capacity_406.specs.Compression.{IsLeastCompression};
ghost use Rattle.capacity_406.specs.Chain.{IsChain};
ghost use Rattle.capacity_406.specs.Report.{IsCapacityText, capacity_text, chain_text, first_line};
ghost use Rattle.capacity_406.specs.Report.{head_line, later_line, link_lines, new_line, numbered};
ghost use Rattle.capacity_406.specs.Report.{owner_at as owner_of_link, owner_text, rate_of, ticked};
ghost use Rattle.capacity_406.specs.Report.{time_text, train_line, window_text, zones_text};
ghost use Rattle.capacity_406.specs.Inside.{IsNearShift};
ghost use Rattle.capacity_406.specs.Telling.{AreToldBy, IsTimeBetween, IsTimeOf, ends_at, moved_by};
ghost use Rattle.capacity_406.specs.Telling.{span_of, told_by};

use crate::compress;
use crate::firsts::{first_claim, firsts_of};
use crate::trains::{CapacityFault, Compressed, Link, Occupied, Stretch};
use itoa::Buffer;
use no_memory::NoMemory;
use rail_types::{Claim, Owner, Span, Tick};
use std::alloc::Global;

/// What is told of a train: its owner, its first begin after the shifts, and its shift.
#[derive(Clone, Copy)]
pub(crate) struct Told {
    pub(crate) owner: Owner,
    pub(crate) begin: Tick,
    pub(crate) shift: i64,
}

/// The text of the capacity of a stretch, for the trains that run on it, in the order in which they
/// are told (UIC Code 406): the time that they occupy after a compression and the rate of that to
/// the window, a line for each train with its begin and its shift, and a chain that shows why the
/// last start can't be earlier.
///
/// `Many` comes exactly for more than `MAX_TRAINS` trains; its count stops at the greatest `u32`.
pub fn capacity_of(
    alloc: Global,
    stretch: &Stretch,
    trains: &[Occupied],
) -> Result<Vec<u8>, CapacityFault>
    requires window { stretch.now.from < stretch.now.to }
    requires beside { AreBeside trains.now }
    requires own { AreOwnApart trains.now }
    ensures text { IfOk result (λ text. IsCapacityText stretch.now trains.now text.items) }
    ensures many { max_trains < length trains.now →
        IfErr result (λ fault. fault ≡ many_of (min (length trains.now) u32.MAX)) }
    ensures refused { max_trains < length trains.now → IsErr result }
    ensures few { length trains.now ≤ max_trains → IfErr result (λ fault. fault ≡ memory) }
{
    let compressed = compress(alloc, trains)?;
    Ok(text_of(alloc, stretch, trains, &compressed)?)
}

fn text_of(
    alloc: Global,
    stretch: &Stretch,
    trains: &[Occupied],
    compressed: &Compressed,
) -> Result<Vec<u8>, NoMemory>
    requires window { stretch.now.from < stretch.now.to }
    requires beside { AreBeside trains.now }
    requires own { AreOwnApart trains.now }
    requires few { length trains.now < 2 ^ 32 }
    requires least { IsLeastCompression trains.now compressed.now.shifts }
    requires near { All IsNearShift compressed.now.shifts }
    requires chain { IsChain trains.now compressed.now.shifts compressed.now.chain }
    ensures { IfOk result (λ text. IsCapacityText stretch.now trains.now text.items) }
{
    let firsts = firsts_of(alloc, trains)?;
    let told = told_of(alloc, trains, &firsts, compressed.shifts.as_slice())?;
    let occupied = occupied_time(&firsts, compressed.shifts.as_slice());
    let mut text = Vec::new(alloc);
    push_text(
        &mut text,
        stretch,
        occupied,
        &told,
        compressed.chain.as_slice(),
    )?;
    Ok(text)
}

// What is told of each train.
fn told_of(
    alloc: Global,
    trains: &[Occupied],
    firsts: &[Claim],
    shifts: &[i64],
) -> Result<Vec<Told>, NoMemory>
    requires counted { length firsts.now ≡ length trains.now }
    requires shifted { length shifts.now ≡ length trains.now }
    requires near { All (λ first. IsNearSpan first.span) firsts.now }
    requires shifts { All IsNearShift shifts.now }
    ensures { IfOk result (λ told. AreToldBy trains.now firsts.now shifts.now told.items) }
{
    let mut told = Vec::new(alloc);
    for train in 0..trains.len() {
        told.push(told_of_train(&trains[train], &firsts[train], &shifts[train]))?;
    }
    Ok(told)
}

fn told_of_train(train: &Occupied, first: &Claim, shift: &i64) -> Told
    requires near { IsNearSpan first.now.span }
    requires shift { IsNearShift shift.now }
    ensures { result ≡ told_by train.now.owner first.now shift.now }
{
    Told {
        owner: train.owner,
        begin: first.span.from + *shift,
        shift: *shift,
    }
}

// The time from the least first begin to the greatest end of a first claim after the shifts; 0
// without trains.
#[tactic(auto, using(crate::proofs::Telling::time_of_none, crate::proofs::Telling::time_of_any))]
fn occupied_time(firsts: &[Claim], shifts: &[i64]) -> u64
    requires few { length firsts.now < 2 ^ 32 }
    requires shifted { length shifts.now ≡ length firsts.now }
    requires near { All (λ first. IsNearSpan first.span) firsts.now }
    requires shifts { All IsNearShift shifts.now }
    requires late { (train : ℕ) (earliest : claim_type) → train < length firsts.now →
        IsFirstClaim firsts.now earliest →
        earliest.span.from <ℤ ends_at firsts.now shifts.now train }
    ensures time { IsTimeOf firsts.now shifts.now result }
    ensures short { result < 2 ^ 44 }
{
    if firsts.is_empty() {
        return 0;
    }
    time_of_some(firsts, shifts)
}

fn time_of_some(firsts: &[Claim], shifts: &[i64]) -> u64
    requires some { 0 < length firsts.now }
    requires few { length firsts.now < 2 ^ 32 }
    requires shifted { length shifts.now ≡ length firsts.now }
    requires near { All (λ first. IsNearSpan first.span) firsts.now }
    requires shifts { All IsNearShift shifts.now }
    requires late { (train : ℕ) (earliest : claim_type) → train < length firsts.now →
        IsFirstClaim firsts.now earliest →
        earliest.span.from <ℤ ends_at firsts.now shifts.now train }
    ensures time { IsTimeBetween firsts.now shifts.now result }
    ensures short { result < 2 ^ 44 }
{
    let earliest = first_claim(firsts);
    let last = last_to_end(firsts, shifts);
    time_between(&earliest.span, &span_at(firsts, shifts, last))
}

fn time_between(earliest: &Span, last: &Span) -> u64
    requires near { IsNearSpan earliest.now }
    requires end { last.now.to ≤ℤ FAR_TICK }
    requires later { earliest.now.from <ℤ last.now.to }
    ensures time { pos result ≡ last.now.to -ℤ earliest.now.from }
    ensures short { result < 2 ^ 44 }
{
    (last.to - earliest.from) as u64
}

// The train whose first claim ends last after the shifts.
fn last_to_end(firsts: &[Claim], shifts: &[i64]) -> u32
    requires some { (0 < length firsts.now) × (length firsts.now < 2 ^ 32) }
    requires shifted { length shifts.now ≡ length firsts.now }
    requires near { All (λ first. IsNearSpan first.span) firsts.now }
    requires shifts { All IsNearShift shifts.now }
    ensures bound { result < length firsts.now }
    ensures last { (train : ℕ) → train < length firsts.now →
        ends_at firsts.now shifts.now train ≤ℤ ends_at firsts.now shifts.now result }
{
    let mut last = 0u32;
    for train in 0..firsts.len() as u32 {
        let so_far = span_at(firsts, shifts, last);
        if ends_before(&so_far, &span_at(firsts, shifts, train)) {
            last = train;
        }
    }
    last
}

// The ticks of a train's first claim after the shifts.
fn span_at(firsts: &[Claim], shifts: &[i64], train: u32) -> Span
    requires train { train < length firsts.now }
    requires shifted { length shifts.now ≡ length firsts.now }
    requires near { All (λ first. IsNearSpan first.span) firsts.now }
    requires shifts { All IsNearShift shifts.now }
    ensures { result ≡ span_of firsts.now shifts.now train }
{
    moved(&firsts[train as usize].span, &shifts[train as usize])
}

fn moved(span: &Span, shift: &i64) -> Span
    requires near { IsNearSpan span.now }
    requires shift { IsNearShift shift.now }
    ensures { result ≡ moved_by shift.now span.now }
{
    Span {
        from: moved_tick(&span.from, shift),
        to: moved_tick(&span.to, shift),
    }
}

fn moved_tick(tick: &Tick, shift: &i64) -> Tick
    requires near { IsNear tick.now }
    requires shift { IsNearShift shift.now }
    ensures { result ≡ tick.now +ℤ shift.now }
{
    *tick + *shift
}

fn ends_before(one: &Span, other: &Span) -> bool
    ensures { IsTrue result ↔ (one.now.to <ℤ other.now.to) }
{
    one.to < other.to
}

fn push_text(
    to: &mut Vec<u8>,
    stretch: &Stretch,
    occupied: u64,
    told: &[Told],
    chain: &[Link],
) -> Result<(), NoMemory>
    requires window { stretch.now.from < stretch.now.to }
    requires short { occupied < 2 ^ 44 }
    requires trains { All (λ link. link.train < length told.now) chain.now }
    ensures { OnOk result
        (to.new.items ≡ to.old.items ++ capacity_text stretch.now occupied told.now chain.now) }
{
    push_head(to, stretch, told.len() as u64, occupied)?;
    push_trains(to, told)?;
    push_chain(to, told, chain)?;
    Ok(())
}

// The line of a stretch, of how many trains run on it, and of the time that they occupy it.
fn push_head(
    to: &mut Vec<u8>,
    stretch: &Stretch,
    trains: u64,
    occupied: u64,
) -> Result<(), NoMemory>
    requires window { stretch.now.from < stretch.now.to }
    requires short { occupied < 2 ^ 44 }
    ensures { OnOk result
        (to.new.items ≡ to.old.items ++ head_line stretch.now trains occupied) }
{
    push_stretch(to, stretch)?;
    push_counts(to, stretch, trains, occupied)?;
    Ok(())
}

fn push_stretch(to: &mut Vec<u8>, stretch: &Stretch) -> Result<(), NoMemory>
    ensures { OnOk result
        (to.new.items ≡ to.old.items ++ zones_text stretch.now ++ window_text stretch.now) }
{
    push_zones(to, stretch)?;
    push_window(to, stretch)?;
    Ok(())
}

fn push_zones(to: &mut Vec<u8>, stretch: &Stretch) -> Result<(), NoMemory>
    ensures { OnOk result (to.new.items ≡ to.old.items ++ zones_text stretch.now) }
{
    push_number(to, b"capacity zones ", u64::from(stretch.first))?;
    push_number(to, b" ", u64::from(stretch.last))?;
    Ok(())
}

fn push_window(to: &mut Vec<u8>, stretch: &Stretch) -> Result<(), NoMemory>
    ensures { OnOk result (to.new.items ≡ to.old.items ++ window_text stretch.now) }
{
    push_number(to, b" window ", u64::from(stretch.from))?;
    push_number(to, b" ", u64::from(stretch.to))?;
    Ok(())
}

fn push_counts(
    to: &mut Vec<u8>,
    stretch: &Stretch,
    trains: u64,
    occupied: u64,
) -> Result<(), NoMemory>
    requires window { stretch.now.from < stretch.now.to }
    requires short { occupied < 2 ^ 44 }
    ensures { OnOk result (to.new.items ≡ to.old.items ++ numbered (codes " trains ") trains
        ++ time_text stretch.now occupied ++ new_line) }
{
    push_number(to, b" trains ", trains)?;
    push_time(to, stretch, occupied)?;
    to.push(b'\n')?;
    Ok(())
}

fn push_time(to: &mut Vec<u8>, stretch: &Stretch, occupied: u64) -> Result<(), NoMemory>
    requires window { stretch.now.from < stretch.now.to }
    requires short { occupied < 2 ^ 44 }
    ensures { OnOk result (to.new.items ≡ to.old.items ++ time_text stretch.now occupied) }
{
    push_number(to, b" occupied ", occupied)?;
    push_number(to, b" rate ", rate(stretch, occupied))?;
    Ok(())
}

// Of each thousand ticks of the window those that are occupied.
fn rate(stretch: &Stretch, occupied: u64) -> u64
    requires window { stretch.now.from < stretch.now.to }
    requires short { occupied < 2 ^ 44 }
    ensures { result ≡ rate_of stretch.now occupied }
{
    1000 * occupied / u64::from(stretch.to - stretch.from)
}

fn push_trains(to: &mut Vec<u8>, told: &[Told]) -> Result<(), NoMemory>
    ensures { OnOk result (to.new.items ≡ to.old.items ++ flat_map train_line told.now) }
{
    for one in told {
        push_train(to, one)?;
    }
    Ok(())
}

fn push_train(to: &mut Vec<u8>, told: &Told) -> Result<(), NoMemory>
    ensures { OnOk result (to.new.items ≡ to.old.items ++ train_line told.now) }
{
    to.extend_from_slice(b"train ")?;
    push_owner(to, &told.owner)?;
    push_tick(to, b" begin ", &told.begin)?;
    push_tick(to, b" shift ", &told.shift)?;
    to.push(b'\n')?;
    Ok(())
}

// How many links a chain has, and their lines.
fn push_chain(to: &mut Vec<u8>, told: &[Told], chain: &[Link]) -> Result<(), NoMemory>
    requires trains { All (λ link. link.train < length told.now) chain.now }
    ensures { OnOk result (to.new.items ≡ to.old.items ++ chain_text told.now chain.now) }
{
    push_number(to, b"chain ", chain.len() as u64)?;
    to.push(b'\n')?;
    push_each_link(to, told, chain)?;
    Ok(())
}

// The lines of a chain's links, of which the first is told with its begin alone.
fn push_each_link(to: &mut Vec<u8>, told: &[Told], chain: &[Link]) -> Result<(), NoMemory>
    requires trains { All (λ link. link.train < length told.now) chain.now }
    ensures { OnOk result (to.new.items ≡ to.old.items ++ link_lines told.now chain.now) }
{
    let Some((first, rest)) = chain.split_first() else {
        return Ok(());
    };
    push_first(to, told, first)?;
    push_links(to, told, rest)?;
    Ok(())
}

fn push_first(to: &mut Vec<u8>, told: &[Told], link: &Link) -> Result<(), NoMemory>
    requires train { link.now.train < length told.now }
    ensures { OnOk result (to.new.items ≡ to.old.items ++ first_line told.now link.now) }
{
    to.extend_from_slice(b"link ")?;
    push_owner(to, &owner_at(told, link))?;
    push_tick(to, b" start ", &link.at)?;
    to.push(b'\n')?;
    Ok(())
}

fn push_links(to: &mut Vec<u8>, told: &[Told], links: &[Link]) -> Result<(), NoMemory>
    requires trains { All (λ link. link.train < length told.now) links.now }
    ensures { OnOk result
        (to.new.items ≡ to.old.items ++ flat_map (later_line told.now) links.now) }
{
    for link in links {
        push_link(to, told, link)?;
    }
    Ok(())
}

fn push_link(to: &mut Vec<u8>, told: &[Told], link: &Link) -> Result<(), NoMemory>
    requires train { link.now.train < length told.now }
    ensures { OnOk result (to.new.items ≡ to.old.items ++ later_line told.now link.now) }
{
    to.extend_from_slice(b"link ")?;
    push_owner(to, &owner_at(told, link))?;
    push_number(to, b" zone ", u64::from(link.zone))?;
    push_tick(to, b" at ", &link.at)?;
    to.push(b'\n')?;
    Ok(())
}

fn push_owner(to: &mut Vec<u8>, owner: &Owner) -> Result<(), NoMemory>
    ensures { OnOk result (to.new.items ≡ to.old.items ++ owner_text owner.now) }
{
    match owner {
        Owner::Base(train) => push_number(to, b"base ", u64::from(*train)),
        Owner::Entry(at) => push_number(to, b"entry ", *at),
    }
}

// The owner of a link's train.
fn owner_at(told: &[Told], link: &Link) -> Owner
    requires train { link.now.train < length told.now }
    ensures { result ≡ owner_of_link told.now link.now.train }
{
    told[link.train as usize].owner
}

// Appends a word and a tick.
fn push_tick(to: &mut Vec<u8>, word: &[u8], tick: &Tick) -> Result<(), NoMemory>
    ensures { OnOk result (to.new.items ≡ to.old.items ++ ticked word.now tick.now) }
{
    let mut digits = Buffer::new();
    to.extend_from_slice(word)?;
    to.extend_from_slice(digits.format(*tick).as_bytes())?;
    Ok(())
}

// Appends a word and a number.
fn push_number(to: &mut Vec<u8>, word: &[u8], number: u64) -> Result<(), NoMemory>
    ensures { OnOk result (to.new.items ≡ to.old.items ++ numbered word.now number) }
{
    let mut digits = Buffer::new();
    to.extend_from_slice(word)?;
    to.extend_from_slice(digits.format(number).as_bytes())?;
    Ok(())
}
