//! Proofs written as texts.

ghost use Rattle.std.specs.Prelude.{◌≡◌, ◌<◌, ◌∷◌, ◌++◌, [], length, map, decimal, flat_map, All};
ghost use Rattle.std.specs.Prelude.{OnErr, OnOk};
ghost use Rattle.json_fields.specs.Escapes.{escaped};
ghost use Rattle.client_lines.specs.Fields.{spaced};
ghost use Rattle.proof_texts.specs.Prints.{HasPointsOf, Prints, block_text, stop_text};
ghost use Rattle.proof_texts.specs.Texts.{asked_fields, count_fields, counted_fields, ended};
ghost use Rattle.proof_texts.specs.Texts.{entered_number, head_fields, member_text, name_at};
ghost use Rattle.proof_texts.specs.Texts.{place_fields, proof_text, request_fields, state_fields};
ghost use Rattle.proof_texts.specs.Texts.{stop_fields, time_fields};

use crate::refusals::Proof;
use byte_fields::Buffer;
use client_lines::reply_texts::{print_flag, print_name, print_number, print_tick, print_word};
use no_memory::NoMemory;
use rail_types::named_network::Named;
use rail_types::{Name, Request, Stop};
use running_time::Enter;
use tail_states::Member;

// The name of an operational point.
fn name_at(stops: &[Name], point: u32) -> &Name
    requires { point < length stops.now }
    ensures { result.now ≡ name_at stops.now point }
{
    &stops[point as usize]
}

fn print_point(stops: &[Name], point: u32, to: &mut Buffer) -> Result<(), NoMemory>
    requires { point < length stops.now }
    ensures { Prints (32 ∷ escaped (name_at stops.now point)) to.old to.new result }
{
    print_name(name_at(stops, point).as_bytes(), to)
}

#[tactic(auto, unfolding(client_lines::specs::Fields::spaced))]
fn print_stop(stops: &[Name], stop: &Stop, to: &mut Buffer) -> Result<(), NoMemory>
    requires { stop.now.stop < length stops.now }
    ensures { Prints (spaced (stop_fields stops.now stop.now)) to.old to.new result }
{
    print_point(stops, stop.stop, to)?;
    print_number(u64::from(stop.dwell), to)
}

fn print_each_stop(stops: &[Name], items: &[Stop], to: &mut Buffer) -> Result<(), NoMemory>
    requires { All (λ stop. stop.stop < length stops.now) items.now }
    ensures { Prints (flat_map (stop_text stops.now) items.now) to.old to.new result }
{
    for stop in items {
        let Ok(()) = print_stop(stops, stop, to) else {
            return Err(NoMemory);
        };
    }
    Ok(())
}

#[tactic(auto, using(crate::proofs::Printing::grouped))]
fn print_stops(stops: &[Name], items: &[Stop], to: &mut Buffer) -> Result<(), NoMemory>
    requires { All (λ stop. stop.stop < length stops.now) items.now }
    ensures { Prints (spaced (flat_map (stop_fields stops.now) items.now)) to.old to.new result }
{
    print_each_stop(stops, items, to)
}

#[tactic(auto, unfolding(client_lines::specs::Fields::spaced))]
fn print_counted(stops: &[Name], items: &[Stop], to: &mut Buffer) -> Result<(), NoMemory>
    requires { All (λ stop. stop.stop < length stops.now) items.now }
    ensures { Prints (spaced (counted_fields stops.now items.now)) to.old to.new result }
{
    print_number(items.len() as u64, to)?;
    print_stops(stops, items, to)
}

#[tactic(auto, unfolding(client_lines::specs::Fields::spaced))]
fn print_times(stops: &[Name], request: &Request, to: &mut Buffer) -> Result<(), NoMemory>
    requires { All (λ stop. stop.stop < length stops.now) request.now.stops }
    ensures { Prints (spaced (time_fields stops.now request.now)) to.old to.new result }
{
    print_tick(&request.depart.from, to)?;
    print_tick(&request.depart.to, to)?;
    print_tick(&request.arrive.from, to)?;
    print_tick(&request.arrive.to, to)?;
    print_counted(stops, request.stops.as_slice(), to)
}

#[tactic(auto, unfolding(client_lines::specs::Fields::spaced))]
fn print_request(stops: &[Name], request: &Request, to: &mut Buffer) -> Result<(), NoMemory>
    requires { HasPointsOf (length stops.now) request.now }
    ensures { Prints (spaced (request_fields stops.now request.now)) to.old to.new result }
{
    print_name(request.train.name.as_bytes(), to)?;
    print_point(stops, request.origin, to)?;
    print_point(stops, request.destination, to)?;
    print_times(stops, request, to)
}

#[tactic(auto, unfolding(client_lines::specs::Fields::spaced))]
fn print_asked(stops: &[Name], proof: &Proof, to: &mut Buffer) -> Result<(), NoMemory>
    requires { HasPointsOf (length stops.now) proof.now.request }
    ensures { Prints (spaced (asked_fields stops.now proof.now)) to.old to.new result }
{
    print_word(b"ask", to)?;
    print_number(proof.number, to)?;
    print_request(stops, &proof.request, to)
}

#[tactic(auto, unfolding(client_lines::specs::Fields::spaced))]
fn print_head(stops: &[Name], proof: &Proof, to: &mut Buffer) -> Result<(), NoMemory>
    requires { HasPointsOf (length stops.now) proof.now.request }
    ensures { Prints (ended (head_fields stops.now proof.now)) to.old to.new result }
{
    to.extend(b"proof")?;
    print_word(b"at", to)?;
    print_number(proof.at, to)?;
    print_asked(stops, proof, to)?;
    to.extend(b"\n")
}

#[tactic(auto, unfolding(client_lines::specs::Fields::spaced))]
fn print_count(count: usize, to: &mut Buffer) -> Result<(), NoMemory>
    ensures { Prints (ended (count_fields count)) to.old to.new result }
{
    to.extend(b"members")?;
    print_number(count as u64, to)?;
    to.extend(b"\n")
}

fn print_each_block(blocks: &[u32], to: &mut Buffer) -> Result<(), NoMemory>
    ensures { Prints (flat_map block_text blocks.now) to.old to.new result }
{
    for block in blocks {
        let Ok(()) = print_number(u64::from(*block), to) else {
            return Err(NoMemory);
        };
    }
    Ok(())
}

#[tactic(auto, using(crate::proofs::Printing::grouped))]
fn print_blocks(blocks: &[u32], to: &mut Buffer) -> Result<(), NoMemory>
    ensures { Prints (spaced (map decimal blocks.now)) to.old to.new result }
{
    print_each_block(blocks, to)
}

fn entered_number(entered: Enter) -> u32
    ensures { result ≡ entered_number entered }
{
    match entered {
        Enter::Still => 0,
        Enter::From(speed) => speed,
    }
}

#[tactic(auto, unfolding(client_lines::specs::Fields::spaced))]
fn print_state(member: &Member, to: &mut Buffer) -> Result<(), NoMemory>
    ensures { Prints (spaced (state_fields member.now)) to.old to.new result }
{
    print_number(u64::from(entered_number(member.place.entered)), to)?;
    print_flag(member.place.standing, to)?;
    print_number(u64::from(member.place.made), to)?;
    print_tick(&member.window.from, to)?;
    print_tick(&member.window.to, to)
}

fn print_place(member: &Member, to: &mut Buffer) -> Result<(), NoMemory>
    ensures { Prints (spaced (place_fields member.now)) to.old to.new result }
{
    print_blocks(member.place.tail.as_slice(), to)?;
    print_state(member, to)
}

#[tactic(auto, unfolding(client_lines::specs::Fields::spaced))]
fn print_member(member: &Member, to: &mut Buffer) -> Result<(), NoMemory>
    ensures { Prints (member_text member.now) to.old to.new result }
{
    to.extend(b"member")?;
    print_number(member.place.tail.len() as u64, to)?;
    print_place(member, to)?;
    to.extend(b"\n")
}

fn print_members(members: &[Member], to: &mut Buffer) -> Result<(), NoMemory>
    ensures { Prints (flat_map member_text members.now) to.old to.new result }
{
    for member in members {
        let Ok(()) = print_member(member, to) else {
            return Err(NoMemory);
        };
    }
    Ok(())
}

fn print_proof(stops: &[Name], proof: &Proof, to: &mut Buffer) -> Result<(), NoMemory>
    requires { HasPointsOf (length stops.now) proof.now.request }
    ensures { Prints (proof_text stops.now proof.now) to.old to.new result }
{
    let members = proof.closed.members.as_slice();
    print_head(stops, proof, to)?;
    print_count(members.len(), to)?;
    print_members(members, to)
}

/// Appends the text of a proof, whose operational points must be those of the network. For want
/// of memory nothing is appended.
pub fn proof_text(proof: &Proof, named: &Named, to: &mut Buffer) -> Result<(), NoMemory>
    requires points { HasPointsOf (length named.now.stops) proof.now.request }
    ensures ok { OnOk result
        (to.new.held ≡ to.old.held ++ proof_text named.now.stops proof.now) }
    ensures err { OnErr result (to.new.held ≡ to.old.held) }
{
    let before = to.len();
    let printed = print_proof(named.stops.as_slice(), proof, to);
    if printed.is_err() {
        to.truncate(before);
    }
    printed
}
