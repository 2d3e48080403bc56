//! The lines of clients.

ghost use Rattle.std.specs.Prelude.{◌≡◌, ℕ, ◌≤◌, length, Err, Ok, IfErr, IfOk};
ghost use Rattle.client_lines.specs.Cuts.{fields_of};
ghost use Rattle.client_lines.specs.declared.asks.Line.{Line as line_type};
ghost use Rattle.client_lines.specs.declared.lines.TheConstants.{MAX_LINE_BYTES};
ghost use Rattle.client_lines.specs.Forms.{IsFirstWrong, Spells};
ghost use Rattle.client_lines.specs.Lines.{a_free, a_hold, a_holds, a_line, a_pin, a_request};
ghost use Rattle.client_lines.specs.Lines.{a_show, an_ask, behind, behind_first};
ghost use Rattle.client_lines.specs.Reading.{Gives, GivesAll, line_reading, read, RefusesFirst};

use crate::asks::{Ask, Line, Word};
use crate::cuts::Fields;
use crate::faults::LineFault;
use crate::groups::{Group, read_groups};
use crate::items::{read_point, read_position, read_reason, read_train, read_window};
use crate::known::Known;
use crate::words::{read_first_word, read_word};
use json_fields::name_text::names_are_spelled_once;
use rail_types::{Claim, Claims, MAX_HOLD_CLAIMS, MAX_PINNED_RUNS, MAX_STOPS, Name, Path, Request};
use std::alloc::Global;

/// Most bytes of a line, its end not counted.
pub const MAX_LINE_BYTES: usize = 65_536;

#[tactic(auto, unfolding(crate::specs::Lines::a_free))]
fn read_free(fields: &mut Fields<'_>) -> Result<Ask, LineFault>
    ensures { Gives fields.new result (read a_free fields.old) }
{
    let number = read_position(fields)?;
    let entry = read_position(fields)?;
    Ok(Ask::Free(number, entry))
}

#[tactic(auto, unfolding(crate::specs::Lines::a_show))]
fn read_show(fields: &mut Fields<'_>) -> Result<Ask, LineFault>
    ensures { Gives fields.new result (read a_show fields.old) }
{
    let entry = read_position(fields)?;
    Ok(Ask::Show(entry))
}

#[tactic(auto, unfolding(crate::specs::Lines::a_hold))]
#[inline(always)]
fn read_hold(alloc: Global, fields: &mut Fields<'_>, known: &Known) -> Result<Ask, LineFault>
    ensures { Gives fields.new result (read (a_hold known.now) fields.old) }
{
    let number = read_position(fields)?;
    let claim = Claim::read(alloc, fields, known, &None)?;
    let claims = Claims::one(alloc, claim);
    Ok(Ask::Hold(number, claims, Name::empty(alloc)))
}

#[tactic(auto, unfolding(crate::specs::Lines::a_holds))]
fn read_holds(alloc: Global, fields: &mut Fields<'_>, known: &Known) -> Result<Ask, LineFault>
    ensures { Gives fields.new result (read (a_holds known.now) fields.old) }
{
    let number = read_position(fields)?;
    let reason = read_reason(alloc, fields)?;
    let count = fields.small_number(1, MAX_HOLD_CLAIMS + 1)?;
    let claims = read_groups(alloc, fields, known, count as usize)?;
    Ok(Ask::Hold(number, Claims::from_list(claims), reason))
}

#[tactic(auto, unfolding(crate::specs::Lines::a_pin))]
fn read_pin(alloc: Global, fields: &mut Fields<'_>, known: &Known) -> Result<Ask, LineFault>
    ensures { Gives fields.new result (read (a_pin known.now) fields.old) }
{
    let number = read_position(fields)?;
    let train = read_train(alloc, fields, known)?;
    let count = fields.small_number(1, MAX_PINNED_RUNS + 1)?;
    let runs = read_groups(alloc, fields, known, count as usize)?;
    Ok(Ask::Pin(number, Path { train, runs }))
}

/// Takes the fields of a request: its train, its points, its windows and its stops.
#[tactic(auto, unfolding(crate::specs::Lines::a_request))]
pub fn read_request(
    alloc: Global,
    fields: &mut Fields<'_>,
    known: &Known,
) -> Result<Request, LineFault>
    ensures { Gives fields.new result (read (a_request known.now) fields.old) }
{
    let train = read_train(alloc, fields, known)?;
    let origin = read_point(alloc, fields, known)?;
    let destination = read_point(alloc, fields, known)?;
    let depart = read_window(fields)?;
    let arrive = read_window(fields)?;
    let count = fields.small_number(0, MAX_STOPS + 1)?;
    let stops = read_groups(alloc, fields, known, count as usize)?;
    Ok(Request {
        train,
        origin,
        destination,
        depart,
        arrive,
        stops,
    })
}

#[tactic(auto, unfolding(crate::specs::Lines::an_ask))]
fn read_ask(alloc: Global, fields: &mut Fields<'_>, known: &Known) -> Result<Ask, LineFault>
    ensures { Gives fields.new result (read (an_ask known.now) fields.old) }
{
    let number = read_position(fields)?;
    let request = read_request(alloc, fields, known)?;
    Ok(Ask::Path(number, request))
}

#[tactic(auto, unfolding(crate::specs::Lines::behind))]
#[inline(always)]
fn read_behind(
    alloc: Global,
    fields: &mut Fields<'_>,
    known: &Known,
    word: Word,
) -> Result<Ask, LineFault>
    ensures { Gives fields.new result (read (behind known.now word) fields.old) }
{
    match word {
        Word::Hold => read_hold(alloc, fields, known),
        Word::Holds => read_holds(alloc, fields, known),
        Word::Pin => read_pin(alloc, fields, known),
        Word::Ask => read_ask(alloc, fields, known),
        Word::Free => read_free(fields),
        Word::Show => read_show(fields),
        Word::Front => Ok(Ask::Front),
    }
}

#[tactic(auto, unfolding(crate::specs::Lines::behind_first))]
#[inline(always)]
fn read_fronted(
    alloc: Global,
    fields: &mut Fields<'_>,
    known: &Known,
    first: Option<Word>,
) -> Result<Line, LineFault>
    ensures { Gives fields.new result (read (behind_first known.now first) fields.old) }
{
    let (after, word) = match first {
        Some(word) => (None, word),
        None => {
            let after = read_position(fields)?;
            (Some(after), read_word(fields)?)
        }
    };
    let ask = read_behind(alloc, fields, known, word)?;
    Ok(Line { after, ask })
}

#[tactic(auto, unfolding(crate::specs::Lines::a_line))]
#[inline(always)]
fn read_fields(alloc: Global, fields: &mut Fields<'_>, known: &Known) -> Result<Line, LineFault>
    ensures { Gives fields.new result (read (a_line known.now) fields.old) }
{
    let first = read_first_word(fields)?;
    read_fronted(alloc, fields, known, first)
}

#[inline(always)]
fn read_all(alloc: Global, line: &[u8], known: &Known) -> Result<Line, LineFault>
    requires { length line.now ≤ MAX_LINE_BYTES }
    ensures { GivesAll result (line_reading (a_line known.now) (fields_of line.now)) }
{
    let mut fields = Fields::new(line);
    let read = read_fields(alloc, &mut fields, known)?;
    let at = fields.at();
    match fields.next() {
        Some(_) => Err(LineFault::Bad { field: at }),
        None => Ok(read),
    }
}

/// Reads a line of a client. One that asks for nothing is told its first wrong field, counted from
/// 1: the first that is not in its form or range, names what is not there, is missing, or is one
/// too many. Else memory was wanted.
#[inline(always)]
pub fn read_line(alloc: Global, line: &[u8], known: &Known) -> Result<Line, LineFault>
    requires { length line.now ≤ MAX_LINE_BYTES }
    // What is read is what the line spells.
    ensures spelled { IfOk result (Spells (a_line known.now) (fields_of line.now)) }
    // A line that spells something is read as that, unless memory runs out.
    ensures read { (said : line_type)
        → Spells (a_line known.now) (fields_of line.now) said → GivesAll result (Ok said) }
    // The field that is told is the first wrong one.
    ensures wrong { IfErr result (RefusesFirst (a_line known.now) (fields_of line.now)) }
    // A line with a wrong field is told the first of them, unless memory runs out.
    ensures refused { (field : ℕ)
        → IsFirstWrong (a_line known.now) (fields_of line.now) field
        → GivesAll result (Err field) }
{
    names_are_spelled_once();
    read_all(alloc, line, known)
}
