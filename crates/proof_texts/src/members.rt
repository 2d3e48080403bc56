//! The lines of a proof's members.

ghost use Rattle.std.specs.Prelude.{◌≡◌, ◌≤◌, pos, neg_ℤ, ◌-ℤ◌, ◌≤ℤ◌, length, Some};
ghost use Rattle.client_lines.specs.Cuts.{fields_of};
ghost use Rattle.client_lines.specs.Lines.{a_flag};
ghost use Rattle.client_lines.specs.Reading.{Gives as FieldsGive, GivesAll, line_reading, read};
ghost use Rattle.rail_types.specs.declared.limits.TheConstants.{MAX_TICK};
ghost use Rattle.proof_texts.specs.declared.reading.TheConstants.{MAX_PROOF_FILE_BYTES};
ghost use Rattle.proof_texts.specs.Forms.{a_block, a_member, a_span, a_state, entered_of, many};
ghost use Rattle.proof_texts.specs.Forms.{small_number};
ghost use Rattle.proof_texts.specs.Lines.{Gives, lined, members_at};

use crate::cuts::Lines;
use crate::faults::ProofFault;
use crate::heads::{take_position, take_word};
use client_lines::{Fields, Known, LineFault};
use json_fields::name_text::names_are_spelled_once;
use rail_types::{List, Tick, Window};
use running_time::Enter;
use stair_pieces::{Place, Tail};
use std::alloc::Global;
use tail_states::Member;

// Where the numbers of 32 bits end.
const END_OF_SMALL: u64 = 4_294_967_296;

fn take_small(fields: &mut Fields<'_>) -> Result<u32, LineFault>
    ensures { FieldsGive fields.new result (read small_number fields.old) }
{
    let number = fields.number(0, END_OF_SMALL)?;
    Ok(number as u32)
}

fn take_flag(fields: &mut Fields<'_>) -> Result<bool, LineFault>
    ensures { FieldsGive fields.new result (read a_flag fields.old) }
{
    let flag = fields.number(0, 2)?;
    Ok(flag == 1)
}

fn take_block(fields: &mut Fields<'_>, known: &Known) -> Result<u32, LineFault>
    ensures { FieldsGive fields.new result (read (a_block known.now) fields.old) }
{
    let block = fields.small_number(0, known.blocks())?;
    Ok(block)
}

// The blocks are taken one by one, so that memory grows with the line, whatever the count says.
fn take_blocks(
    alloc: Global,
    fields: &mut Fields<'_>,
    known: &Known,
    count: u64,
) -> Result<Tail, LineFault>
    ensures { FieldsGive fields.new result (read (many (a_block known.now) count) fields.old) }
{
    let mut tail = Tail::new(alloc);
    for _ in 0..count {
        let block = take_block(fields, known)?;
        tail.push(block)?;
    }
    Ok(tail)
}

fn entered_of(number: u32) -> Enter
    ensures { result ≡ entered_of number }
{
    if number == 0 {
        Enter::Still
    } else {
        Enter::From(number)
    }
}

// The last tick before another.
fn just_before(tick: &Tick) -> Option<Tick>
    requires { neg_ℤ MAX_TICK ≤ℤ tick.now }
    ensures { result ≡ Some (tick.now -ℤ pos 1) }
{
    Some(*tick - 1)
}

// A window with a tick.
#[tactic(auto, using(client_lines::proofs::Passed::passed), unfolding(crate::specs::Forms::a_span))]
fn take_span(fields: &mut Fields<'_>) -> Result<Window, LineFault>
    ensures { FieldsGive fields.new result (read a_span fields.old) }
{
    names_are_spelled_once();
    let from = fields.tick(&None)?;
    let to = fields.tick(&just_before(&from))?;
    Ok(Window { from, to })
}

#[tactic(auto, unfolding(crate::specs::Forms::a_state))]
fn take_state(fields: &mut Fields<'_>, tail: Tail) -> Result<Member, LineFault>
    ensures { FieldsGive fields.new result (read (a_state tail) fields.old) }
{
    let entered = take_small(fields)?;
    let standing = take_flag(fields)?;
    let made = take_small(fields)?;
    let window = take_span(fields)?;
    let place = Place {
        tail,
        entered: entered_of(entered),
        standing,
        made,
    };
    Ok(Member { place, window })
}

#[tactic(auto, unfolding(crate::specs::Forms::a_member))]
fn member_fields(alloc: Global, fields: &mut Fields<'_>, known: &Known) -> Result<Member, LineFault>
    ensures { FieldsGive fields.new result (read (a_member known.now) fields.old) }
{
    take_word(fields, b"member")?;
    let count = take_position(fields)?;
    let tail = take_blocks(alloc, fields, known, count)?;
    take_state(fields, tail)
}

fn member_of(alloc: Global, line: &[u8], known: &Known) -> Result<Member, LineFault>
    requires { length line.now ≤ MAX_PROOF_FILE_BYTES }
    ensures { GivesAll result (line_reading (a_member known.now) (fields_of line.now)) }
{
    let mut fields = Fields::new(line);
    let member = member_fields(alloc, &mut fields, known)?;
    let at = fields.at();
    match fields.next() {
        Some(_) => Err(LineFault::Bad { field: at }),
        None => Ok(member),
    }
}

fn read_member(alloc: Global, lines: &mut Lines<'_>, known: &Known) -> Result<Member, ProofFault>
    requires { length lines.old ≤ MAX_PROOF_FILE_BYTES }
    ensures member { Gives lines.new result (lined (a_member known.now) lines.old) }
    ensures shorter { length lines.new ≤ length lines.old }
{
    let Some(line) = lines.next() else {
        return Err(ProofFault::NotUnderstood);
    };
    let member = member_of(alloc, line, known)?;
    Ok(member)
}

/// Reads so many members, one by one, so that memory grows with the text, whatever the count says.
pub(crate) fn read_members(
    alloc: Global,
    lines: &mut Lines<'_>,
    known: &Known,
    count: u64,
) -> Result<List<Member>, ProofFault>
    requires { length lines.old ≤ MAX_PROOF_FILE_BYTES }
    ensures members { Gives lines.new result (members_at known.now count lines.old) }
    ensures shorter { length lines.new ≤ length lines.old }
{
    let mut members = List::new(alloc);
    for _ in 0..count {
        let member = read_member(alloc, lines, known)?;
        members.push(member)?;
    }
    Ok(members)
}
