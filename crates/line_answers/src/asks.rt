//! A path that is sought: what its number stands for, and then its searches.
ghost use Rattle.std.specs.Prelude.{◌≡◌, ◌+◌, ◌⊎◌, ◌≤◌, IfErr, IfOk, IfSome};
ghost use Rattle.std.specs.Prelude.{ℕ, Bool, List, [], None};
ghost use Rattle.admission_rules.specs.Ruled.{Ruled};
ghost use Rattle.book_gate.specs.Passes.{turns_left, view};
ghost use Rattle.client_lines.specs.Within.{IsAskWithin};
ghost use Rattle.client_lines.specs.declared.asks.Ask.TheVariants.{Path as path_of};
ghost use Rattle.rail_types.specs.Limits.{IsClientName, IsRequestWithinLimits};
ghost use Rattle.rail_types.specs.Limits.{IsTrainWithinLimits};
ghost use Rattle.rail_types.specs.declared.entries.Deed.TheVariants.{Grant};
ghost use Rattle.rail_types.specs.declared.entries.Wanted.TheVariants.{Asked};
ghost use Rattle.rail_types.specs.declared.paths.Path.{Path as path_type};
ghost use Rattle.client_lines.specs.Rooms.{IsBehindEntry, room_for};
ghost use Rattle.client_lines.specs.declared.asks.Line.{Line as line_type};
ghost use Rattle.ask_turns.specs.history.Verdict.{place_of};
ghost use Rattle.ask_turns.specs.Clients.{HasCopy, IsCopyOf, Knows, StaysCopyOf};
ghost use Rattle.ask_turns.specs.Sharing.{IsShared};
ghost use Rattle.ask_turns.specs.labels.ChartCourses.{IsChartCourse};
ghost use Rattle.ask_turns.specs.labels.Courses.{IsCourse};
ghost use Rattle.ask_turns.specs.labels.Guides.{IsGuide};
ghost use Rattle.ask_turns.specs.labels.TrainCharts.{IsChartOf};
ghost use Rattle.ask_turns.specs.tails.Listed.{Refuses};
ghost use Rattle.ask_turns.specs.Turns.{IsReached, IsReady, Looks, timetable_at};
ghost use Rattle.line_answers.specs.Asked.{AnswersBehind, HasRoomIn, asking};
ghost use Rattle.line_answers.specs.Callers.{AnswersAllowed, AnswersLine, caller_of};
ghost use Rattle.line_answers.specs.Points.{added};
ghost use Rattle.line_answers.specs.Proved.{ShowsBehind, ShowsLine};
ghost use Rattle.line_answers.specs.Tells.{AddsNothing};

use crate::lines::Sent;
use crate::numbers::check_number;
use crate::replies::{ask_told, halted};
use ask_turns::client_turns::Client;
use ask_turns::labels::{ChartCourse, Course, Guide, TrainChart, guides_are_narrow};
use ask_turns::tails::{PlacesFault, SpotsFault, places, sound_networks_are_asked};
use ask_turns::{Ask, Guest, Shared, try_searches};
use book_gate::Pass;
use byte_fields::Buffer;
use client_lines::reply_texts::Reply;
use no_memory::NoMemory;
use outside_io::{Between, Disk};
use path_commit::Book;
use proof_texts::asks_can_be_told;
use rail_types::{Deed, KeptRequest, List, Network, Path, Request, Train, Wanted};
use std::alloc::Global;
use std::sync::Wait;

// Seeks a path.
pub(crate) fn ask<R: Wait, D: Disk, B: Between>(
    rt: &R,
    alloc: Global,
    shared: &Shared<D>,
    guest: &mut Guest<D, B>,
    sent: Sent,
    request: Request,
    text: &mut Buffer,
    proof: &mut Buffer,
) -> Reply
    requires ready { IsReady shared.now.gate guest.old.pass }
    requires budget { 4 ≤ turns_left guest.old.pass }
    requires knows { Knows (timetable_at shared.now.gate) guest.old.client
        (view guest.old.pass).seen }
    requires name { IsClientName guest.old.client.name }
    requires shared { IsShared shared.now }
    requires within { IsAskWithin (timetable_at shared.now.gate).net
        (path_of sent.number request) }
    requires spare { room_for 0 ≤ text.old.spare }
    ensures ready { IsReady shared.now.gate guest.new.pass }
    ensures budget { turns_left guest.old.pass ≤ turns_left guest.new.pass + 4 }
    ensures name { guest.new.client.name ≡ guest.old.client.name }
    ensures proves { guest.new.proves ≡ guest.old.proves }
    ensures knows { Knows (timetable_at shared.now.gate) guest.new.client
        (view guest.new.pass).seen }
    ensures answers { AnswersAllowed shared.now guest.old.client.name sent.line
        (asking sent.after sent.number request) result
        (view guest.old.pass) (view guest.new.pass) }
    ensures shown { ShowsLine shared.now guest.old.proves
        (asking sent.after sent.number request) result proof.new.held
        (view guest.old.pass) (view guest.new.pass) }
    ensures held { text.new.held ≡ text.old.held }
    ensures room { HasRoomIn text.new result ⊎ AddsNothing result }
{
    match check_request(
        rt,
        alloc,
        shared,
        &mut guest.pass,
        &mut guest.client,
        sent,
        &request,
    ) {
        Ok(()) => seek_path(rt, alloc, shared, guest, sent, request, text, proof),
        Err(told) => told,
    }
}

// Looks in a turn whether the number of a path that is sought is new, and tells what it is else.
pub(crate) fn check_request<R: Wait, D: Disk>(
    rt: &R,
    alloc: Global,
    shared: &Shared<D>,
    pass: &mut Pass<Book<D>>,
    client: &mut Client,
    sent: Sent,
    request: &Request,
) -> Result<(), Reply>
    requires ready { IsReady shared.now.gate pass.old }
    requires budget { 1 ≤ turns_left pass.old }
    requires knows { Knows (timetable_at shared.now.gate) client.old (view pass.old).seen }
    requires name { IsClientName client.old.name }
    ensures ready { IsReady shared.now.gate pass.new }
    ensures budget { turns_left pass.old ≤ turns_left pass.new + 1 }
    ensures name { client.new.name ≡ client.old.name }
    ensures knows { Knows (timetable_at shared.now.gate) client.new (view pass.new).seen }
    ensures looks { IfOk result (λ _. Looks (view pass.old) (view pass.new)) }
    ensures reached { IfOk result (λ _. IsReached sent.after (view pass.new).found.list) }
    ensures unknown { IfOk result (λ _.
        place_of (view pass.new).found.list client.old.name sent.number ≡ None) }
    ensures copy { IfOk result (λ _.
        IsCopyOf (timetable_at shared.now.gate) client.new (view pass.new).found.list) }
    ensures answers { IfErr result (λ told. (rules : List Ruled)
        → AnswersLine (caller_of shared.now rules client.old.name sent.line)
        (asking sent.after sent.number request.now) told (view pass.old) (view pass.new)) }
    ensures shown { IfErr result (λ told. (line : line_type) (proves : Bool) (text : List ℕ)
        → ShowsLine shared.now proves line told text (view pass.old) (view pass.new)) }
    ensures none { IfErr result (λ told. added told ≡ []) }
    ensures short { IfErr result (λ told. IsBehindEntry 0 told ⊎ AddsNothing told) }
{
    match deed_of(alloc, request) {
        Ok(deed) => check_number(rt, alloc, shared, pass, client, sent, &deed),
        Err(NoMemory) => Err(Reply::NoMemory),
    }
}

// The grant of a path without runs for a request: of a path that is asked
// for the request alone counts.
fn deed_of(alloc: Global, request: &Request) -> Result<Deed, NoMemory>
    ensures { IfOk result (λ deed.
        (path : path_type) × (deed ≡ Grant (Asked request.now) path)) }
{
    let path = Path {
        train: request.train.copy(alloc)?,
        runs: List::new(alloc),
    };
    let request = KeptRequest::copy_of(alloc, request)?;
    Ok(Deed::Grant(Wanted::Asked(request), path))
}

// Seeks a path behind a turn in which the number was new.
fn seek_path<R: Wait, D: Disk, B: Between>(
    rt: &R,
    alloc: Global,
    shared: &Shared<D>,
    guest: &mut Guest<D, B>,
    sent: Sent,
    request: Request,
    text: &mut Buffer,
    proof: &mut Buffer,
) -> Reply
    requires ready { IsReady shared.now.gate guest.old.pass }
    requires budget { 3 ≤ turns_left guest.old.pass }
    requires copy { IsCopyOf (timetable_at shared.now.gate) guest.old.client
        (view guest.old.pass).seen }
    requires name { IsClientName guest.old.client.name }
    requires shared { IsShared shared.now }
    requires within { IsAskWithin (timetable_at shared.now.gate).net
        (path_of sent.number request) }
    requires spare { room_for 0 ≤ text.old.spare }
    ensures ready { IsReady shared.now.gate guest.new.pass }
    ensures budget { turns_left guest.old.pass ≤ turns_left guest.new.pass + 3 }
    ensures name { guest.new.client.name ≡ guest.old.client.name }
    ensures proves { guest.new.proves ≡ guest.old.proves }
    ensures knows { Knows (timetable_at shared.now.gate) guest.new.client
        (view guest.new.pass).seen }
    ensures answers { AnswersBehind shared.now guest.old.client.name sent.line sent.number request
        result (view guest.old.pass) (view guest.new.pass) }
    ensures shown { ShowsBehind shared.now guest.old.proves sent.number request result
        proof.new.held (view guest.old.pass) (view guest.new.pass) }
    ensures held { text.new.held ≡ text.old.held }
    ensures room { HasRoomIn text.new result ⊎ AddsNothing result }
{
    let guide = match guide_of(alloc, shared, &mut guest.client, &request) {
        Ok(guide) => guide,
        Err(PlacesFault::Wide { count: _count }) => {
            return Reply::Wide {
                number: sent.number,
                front: guest.client.front(),
            };
        }
        Err(PlacesFault::Memory) => return Reply::NoMemory,
    };
    let ask = Ask {
        number: sent.number,
        line: sent.line,
        request,
        guide,
    };
    let reply = search_along(rt, alloc, shared, guest, &ask, text, proof);
    guest.client.keep_guide(ask.request, ask.guide);
    reply
}

// What guides the search of a request: the course that is kept for such a request; or else its
// course over the chart of its train, where there is one; or else its course over listed places,
// which are worked out.
fn guide_of<D: Disk>(
    alloc: Global,
    shared: &Shared<D>,
    client: &mut Client,
    request: &Request,
) -> Result<Guide, PlacesFault>
    requires shared { IsShared shared.now }
    requires request { IsRequestWithinLimits request.now }
    requires copy { HasCopy (timetable_at shared.now.gate) client.old }
    ensures guide { IfOk result (IsGuide (timetable_at shared.now.gate).net
        (timetable_at shared.now.gate).settings request.now) }
    ensures wide { IfErr result (Refuses (timetable_at shared.now.gate).net request.now) }
    ensures copy { StaysCopyOf (timetable_at shared.now.gate) client.old client.new }
    ensures name { client.new.name ≡ client.old.name }
    ensures front { client.new.front ≡ client.old.front }
{
    if let Some(course) = client.take_course(request) {
        return Ok(Guide::Listed(course));
    }
    if let Some(course) = chart_course_of(alloc, shared, client, request) {
        return Ok(Guide::Charted(course));
    }
    let course = worked_out(alloc, shared, request)?;
    Ok(Guide::Listed(course))
}

// The course of a request over the chart of its train. None where there is no chart, or it does not
// bound the places of the request; and where memory is wanted.
fn chart_course_of<D: Disk>(
    alloc: Global,
    shared: &Shared<D>,
    client: &mut Client,
    request: &Request,
) -> Option<ChartCourse>
    requires shared { IsShared shared.now }
    requires request { IsRequestWithinLimits request.now }
    requires copy { HasCopy (timetable_at shared.now.gate) client.old }
    ensures course { IfSome result (IsChartCourse (timetable_at shared.now.gate).net
        (timetable_at shared.now.gate).settings request.now) }
    ensures copy { StaysCopyOf (timetable_at shared.now.gate) client.old client.new }
    ensures name { client.new.name ≡ client.old.name }
    ensures front { client.new.front ≡ client.old.front }
{
    let Some(chart) = chart_of(alloc, shared, client, &request.train) else {
        return None;
    };
    if !chart.is_narrow(request) {
        client.keep_chart(chart);
        return None;
    }
    let net = network_of(shared);
    let settings = &shared.settings;
    let Ok(course) = ChartCourse::of(alloc, net, settings, &shared.followers, request, chart) else {
        return None;
    };
    Some(course)
}

// The chart of a train: the one that the client keeps, or else one that is made, where the client
// wants it. None where it does not, where the train has too many spots, and where memory is wanted.
fn chart_of<D: Disk>(
    alloc: Global,
    shared: &Shared<D>,
    client: &mut Client,
    train: &Train,
) -> Option<TrainChart>
    requires shared { IsShared shared.now }
    requires train { IsTrainWithinLimits train.now }
    requires copy { HasCopy (timetable_at shared.now.gate) client.old }
    ensures chart { IfSome result (IsChartOf (timetable_at shared.now.gate).net
        (timetable_at shared.now.gate).settings train.now) }
    ensures copy { StaysCopyOf (timetable_at shared.now.gate) client.old client.new }
    ensures name { client.new.name ≡ client.old.name }
    ensures front { client.new.front ≡ client.old.front }
{
    if let Some(chart) = client.take_chart(train) {
        return Some(chart);
    }
    if !client.wants_chart(train) {
        return None;
    }
    let net = network_of(shared);
    match TrainChart::of(alloc, net, &shared.settings, &shared.followers, train) {
        Ok(chart) => Some(chart),
        Err(SpotsFault::TooMany { count: _count }) => {
            client.note_wide(alloc, train);
            None
        }
        Err(SpotsFault::Memory) => None,
    }
}

// Works out the course of a request.
fn worked_out<D: Disk>(
    alloc: Global,
    shared: &Shared<D>,
    request: &Request,
) -> Result<Course, PlacesFault>
    requires shared { IsShared shared.now }
    requires request { IsRequestWithinLimits request.now }
    ensures course { IfOk result (IsCourse (timetable_at shared.now.gate).net
        (timetable_at shared.now.gate).settings request.now) }
    ensures wide { IfErr result (Refuses (timetable_at shared.now.gate).net request.now) }
{
    sound_networks_are_asked();
    let net = network_of(shared);
    let places = places(alloc, net, &shared.followers, request)?;
    let course = Course::of(alloc, net, &shared.settings, request, places)?;
    Ok(course)
}

// Searches a path by what guides its search, behind a turn in which the number was new.
fn search_along<R: Wait, D: Disk, B: Between>(
    rt: &R,
    alloc: Global,
    shared: &Shared<D>,
    guest: &mut Guest<D, B>,
    ask: &Ask,
    text: &mut Buffer,
    proof: &mut Buffer,
) -> Reply
    requires ready { IsReady shared.now.gate guest.old.pass }
    requires budget { 3 ≤ turns_left guest.old.pass }
    requires copy { IsCopyOf (timetable_at shared.now.gate) guest.old.client
        (view guest.old.pass).seen }
    requires name { IsClientName guest.old.client.name }
    requires shared { IsShared shared.now }
    requires within { IsAskWithin (timetable_at shared.now.gate).net
        (path_of ask.now.number ask.now.request) }
    requires guide { IsGuide (timetable_at shared.now.gate).net
        (timetable_at shared.now.gate).settings ask.now.request ask.now.guide }
    requires spare { room_for 0 ≤ text.old.spare }
    ensures ready { IsReady shared.now.gate guest.new.pass }
    ensures budget { turns_left guest.old.pass ≤ turns_left guest.new.pass + 3 }
    ensures name { guest.new.client.name ≡ guest.old.client.name }
    ensures proves { guest.new.proves ≡ guest.old.proves }
    ensures knows { Knows (timetable_at shared.now.gate) guest.new.client
        (view guest.new.pass).seen }
    ensures answers { AnswersBehind shared.now guest.old.client.name ask.now.line ask.now.number
        ask.now.request result (view guest.old.pass) (view guest.new.pass) }
    ensures shown { ShowsBehind shared.now guest.old.proves ask.now.number ask.now.request result
        proof.new.held (view guest.old.pass) (view guest.new.pass) }
    ensures held { text.new.held ≡ text.old.held }
    ensures room { HasRoomIn text.new result ⊎ AddsNothing result }
{
    asks_can_be_told();
    guides_are_narrow();
    match try_searches(rt, alloc, shared, guest, ask, text, proof) {
        Ok(outcome) => ask_told(ask.number, outcome, guest.client.front()),
        Err(halt) => halted(halt),
    }
}

// The network of the book.
fn network_of<D: Disk>(shared: &Shared<D>) -> &Network
    requires { IsShared shared.now }
    ensures { result.now ≡ (timetable_at shared.now.gate).net }
{
    &shared.known.railway().network
}
