//! The lines that are a worker's own already.

ghost use Rattle.std.specs.Prelude.{◌≡◌, ◌+◌, ◌<◌, ◌≤◌, [], All, IfSome, length, slice_index_or};
ghost use Rattle.std.specs.Prelude.{vec_capacity};
ghost use Rattle.batch_command.specs.InOrder.{places};
ghost use Rattle.batch_command.specs.Clerks.{EachWent, IsSound, lines_left, owned_places, WasAsked};
ghost use Rattle.served_clients.specs.lines.declared.lines.TheConstants.{MAX_LINE_BYTES};
ghost use Rattle.served_clients.specs.sessions.declared.sessions.TheConstants.{MAX_LINES};

use crate::batch_server::clerks::Clerk;
use batch_pool::Worker;
use outside_io::{Between, Disk};
use rail_types::Name;
use served_clients::admission::Rule;
use served_clients::lines::reply_texts::Reply;
use std::sync::Wait;

/// Each line that is a worker's own is answered by this one, in the order of the list.
/// There is room for the answers.
pub(crate) fn keep<'a, R: Wait, D: Disk + Send, B: Between + Send + Drop, L: Rule + Send + Drop>(
    rt: &R,
    mut clerks: Vec<Clerk<'a, D, B, L>>,
    lines: &[Name],
    owners: &[Option<u32>],
    kept: Vec<(u32, Reply)>,
) -> (Vec<Clerk<'a, D, B, L>>, Vec<(u32, Reply)>)
    requires sound { All IsSound clerks.items }
    requires fresh { All (λ clerk. clerk.asked ≡ 0) clerks.items }
    requires left { All (λ clerk. length lines.now ≤ lines_left clerk) clerks.items }
    requires count { length lines.now ≤ MAX_LINES }
    requires texts { All (λ line. length line ≤ MAX_LINE_BYTES) lines.now }
    requires owners { length owners.now ≡ length lines.now }
    requires theirs { All (λ owner. IfSome owner (λ worker. worker < length clerks.items))
        owners.now }
    requires none { kept.items ≡ [] }
    requires room { length lines.now ≤ vec_capacity kept }
    ensures places { places result.1.items ≡ owned_places owners.now }
    ensures count { length result.0.items ≡ length clerks.entry.items }
    ensures went { EachWent L.Rule lines.now owners.now result.1.items
        clerks.entry.items result.0.items }
    ensures left { All (λ clerk. length lines.now ≤ lines_left clerk + length result.1.items)
        result.0.items }
{
    let kept = answer_kept(rt, clerks.as_mut_slice(), lines, owners, kept);
    (clerks, kept)
}

fn answer_kept<'a, R: Wait, D: Disk + Send, B: Between + Send + Drop, L: Rule + Send + Drop>(
    rt: &R,
    clerks: &mut [Clerk<'a, D, B, L>],
    lines: &[Name],
    owners: &[Option<u32>],
    mut kept: Vec<(u32, Reply)>,
) -> Vec<(u32, Reply)>
    requires sound { All IsSound clerks.old }
    requires fresh { All (λ clerk. clerk.asked ≡ 0) clerks.old }
    requires left { All (λ clerk. length lines.now ≤ lines_left clerk) clerks.old }
    requires count { length lines.now ≤ MAX_LINES }
    requires texts { All (λ line. length line ≤ MAX_LINE_BYTES) lines.now }
    requires owners { length owners.now ≡ length lines.now }
    requires theirs { All (λ owner. IfSome owner (λ worker. worker < length clerks.old))
        owners.now }
    requires none { kept.items ≡ [] }
    requires room { length lines.now ≤ vec_capacity kept }
    ensures places { places result.items ≡ owned_places owners.now }
    ensures went { EachWent L.Rule lines.now owners.now result.items clerks.old clerks.new }
    ensures left { All (λ clerk. length lines.now ≤ lines_left clerk + length result.items)
        clerks.new }
{
    for at in 0..lines.len() {
        if let Some(worker) = owners[at] {
            let line = lines[at].as_bytes();
            let reply = ask(rt, clerks, worker, at as u32, line);
            kept.push_reserved((at as u32, reply));
        }
    }
    kept
}

// Asks the worker at a place a line.
fn ask<R: Wait, W: Worker>(rt: &R, workers: &mut [W], worker: u32, at: u32, text: &[u8]) -> W::Reply
    requires there { worker < length workers.old }
    requires left { (d : _) → 1 ≤ W.left (slice_index_or workers.old worker d) }
    requires sound { (d : _) → W.is_sound (slice_index_or workers.old worker d) }
    requires line { W.is_line text.now }
    ensures { WasAsked W.gives W.left W.is_sound worker at text.now workers.old result workers.new }
{
    workers[worker as usize].answer(rt, at, text)
}
