//! Clients whose streams are put back.

ghost use Rattle.std.specs.Prelude.{◌≤◌, length, map};
ghost use Rattle.command_reports.specs.Scenes.{scene};
ghost use Rattle.request_server.specs.PlannedClients.{client_loans, returned_of, streams_of};
ghost use Rattle.served_clients.specs.StreamClients.{stream_loans};
ghost use Rattle.served_clients.specs.Lending.{AreIn};
ghost use Rattle.command_line.specs.Proofs.{proof_of as file_of};

use crate::client_plans::proofs::sink_of;
use admission_rules::Rule;
use command_line::client_words::ClientWord;
use command_line::proof_words::{ProofWord, proof_of};
use outside_io::Outside;
use served_clients::client_streams::{ClientStreams, put_back_served};
use served_clients::{Plan, Session};

/// Puts back the streams of the first clients, so many as there are plans, the last of them first.
pub fn put_back_plans<O: Outside, L: Rule>(
    clients: &[ClientWord],
    proofs: &[ProofWord],
    mut plans: Vec<Plan<O::Src, O::Snk, O::Btw, L>>,
    outside: &mut O,
)
    requires many { length plans.items ≤ length clients.now }
    ensures back { AreIn (client_loans clients.now proofs.now (map streams_of plans.items))
        (scene O.Outside outside.old) (scene O.Outside outside.new) }
{
    while let Some(plan) = plans.pop() {
        let Plan {
            name: _name,
            source,
            sink,
            proofs: proved,
            between: _between,
            rules: _rules,
        } = plan;
        let streams = ClientStreams {
            source,
            sink,
            proof: sink_of(proved),
        };
        put_back_streams(&clients[plans.len()], proofs, streams, outside);
    }
}

/// Puts back the streams of clients that were served, the last of them first.
pub fn put_back_sessions<O: Outside, L: Rule>(
    clients: &[ClientWord],
    proofs: &[ProofWord],
    mut sessions: Vec<Session<O::Src, O::Snk, L>>,
    outside: &mut O,
)
    requires many { length sessions.items ≤ length clients.now }
    ensures back { AreIn (client_loans clients.now proofs.now (map returned_of sessions.items))
        (scene O.Outside outside.old) (scene O.Outside outside.new) }
{
    while let Some(session) = sessions.pop() {
        let Session {
            name: _name,
            source,
            sink,
            proofs: proved,
            ended: _ended,
            rules: _rules,
        } = session;
        let streams = ClientStreams {
            source,
            sink,
            proof: sink_of(proved),
        };
        put_back_streams(&clients[sessions.len()], proofs, streams, outside);
    }
}

// Puts back the streams of a client.
fn put_back_streams<O: Outside>(
    client: &ClientWord,
    proofs: &[ProofWord],
    streams: ClientStreams<O::Src, O::Snk>,
    outside: &mut O,
)
    ensures back { AreIn
        (stream_loans client.now (file_of proofs.now client.now.client) streams)
        (scene O.Outside outside.old) (scene O.Outside outside.new) }
{
    put_back_served(client, proof_of(proofs, &client.client), streams, outside);
}
