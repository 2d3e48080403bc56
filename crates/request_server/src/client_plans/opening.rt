//! Clients whose streams are opened.

ghost use Rattle.std.specs.Prelude.{◌≡◌, ◌≢◌, ℕ, List, map, IfErr, IfOk};
ghost use Rattle.command_reports.specs.Scenes.{scene};
ghost use Rattle.request_server.specs.PlannedClients.{AreClients, AreFit, client_calls};
ghost use Rattle.request_server.specs.PlannedClients.{client_loans};
ghost use Rattle.request_server.specs.PlannedClients.{sink_in, streams_of};
ghost use Rattle.admission_rules.specs.Clients.{rules_named};
ghost use Rattle.served_clients.specs.StreamClients.{AreDistinct, IsFit, stream_calls};
ghost use Rattle.served_clients.specs.StreamClients.{stream_loans};
ghost use Rattle.served_clients.specs.Lending.{AreOut};
ghost use Rattle.served_clients.specs.Refusing.{IsStopped};
ghost use Rattle.command_line.specs.Proofs.{proof_of as file_of};

use crate::client_plans::proofs::proofs_to;
use crate::client_plans::returning::put_back_plans;
use admission_rules::Rule;
use admission_rules::client_rules::{ClientRules, take_rules};
use command_line::client_words::ClientWord;
use command_line::proof_words::{ProofWord, proof_of};
use command_reports::Refusal;
use outside_io::Outside;
use served_clients::Plan;
use served_clients::client_streams::{ClientStreams, between_of, open_served};
use std::alloc::Global;

/// Opens the source and the sink of each client, and the file of its proofs if it has one, in the
/// order of the clients, takes what the outside has called between its searches, and takes its
/// rules out of those of all: those in the elements with its name, in order. Where a name cannot be
/// opened, or memory is wanted, all that was opened is put back as it was; a name that cannot be
/// opened refuses, as `open: NAME`.
pub fn open_clients<O: Outside, L: Rule>(
    alloc: Global,
    clients: &[ClientWord],
    proofs: &[ProofWord],
    rules: &mut [ClientRules<L>],
    outside: &mut O,
) -> Result<Vec<Plan<O::Src, O::Snk, O::Btw, L>>, Refusal>
    requires clients { AreClients clients.now proofs.now }
    ensures out { IfOk result (λ plans.
        AreOut (client_loans clients.now proofs.now (map streams_of plans.items))
        (scene O.Outside outside.old) (scene O.Outside outside.new)) }
    ensures fit { IfOk result (λ plans.
        AreFit clients.now proofs.now (map streams_of plans.items)) }
    ensures names { IfOk result (λ plans.
        map (λ plan. plan.name) plans.items ≡ map (λ client. client.client) clients.now) }
    ensures rules { IfOk result (λ plans. map (λ plan. plan.rules.items) plans.items
        ≡ map (λ client. rules_named client.client rules.old) clients.now) }
    ensures stopped { IfErr result (IsStopped (client_calls clients.now proofs.now)
        (scene O.Outside outside.old) (scene O.Outside outside.new)) }
{
    let Ok(mut plans) = Vec::with_capacity(alloc, clients.len()) else {
        return Err(Refusal::Memory);
    };
    for client in clients {
        match open_client(alloc, client, proofs, rules, outside) {
            Ok(plan) => plans.push_reserved(plan),
            Err(refusal) => {
                put_back_plans(clients, proofs, plans, outside);
                return Err(refusal);
            }
        }
    }
    Ok(plans)
}

// Opens the streams of a client, and takes its rules and what is called between its searches.
fn open_client<O: Outside, L: Rule>(
    alloc: Global,
    client: &ClientWord,
    proofs: &[ProofWord],
    all: &mut [ClientRules<L>],
    outside: &mut O,
) -> Result<Plan<O::Src, O::Snk, O::Btw, L>, Refusal>
    requires calls { AreDistinct
        (stream_calls client.now (file_of proofs.now client.now.client)) }
    ensures out { IfOk result (λ plan. AreOut
        (stream_loans client.now (file_of proofs.now client.now.client) (streams_of plan))
        (scene O.Outside outside.old) (scene O.Outside outside.new)) }
    ensures fit { IfOk result (λ plan.
        IsFit (file_of proofs.now client.now.client) (sink_in plan.proofs)) }
    ensures name { IfOk result (λ plan. plan.name ≡ client.now.client) }
    ensures rules { IfOk result (λ plan.
        plan.rules.items ≡ rules_named client.now.client all.old) }
    ensures others { IfOk result (λ plan. (other : List ℕ) → other ≢ client.now.client
        → rules_named other all.new ≡ rules_named other all.old) }
    ensures stopped { IfErr result (IsStopped
        (stream_calls client.now (file_of proofs.now client.now.client))
        (scene O.Outside outside.old) (scene O.Outside outside.new)) }
{
    let Ok(name) = client.client.copy(alloc) else {
        return Err(Refusal::Memory);
    };
    let Ok(rules) = take_rules(alloc, &name, all) else {
        return Err(Refusal::Memory);
    };
    let file = proof_of(proofs, &client.client);
    match open_served(alloc, client, file, outside) {
        Ok(streams) => {
            let ClientStreams {
                source,
                sink,
                proof,
            } = streams;
            let between = between_of(&client.client, outside);
            Ok(Plan {
                name,
                source,
                sink,
                proofs: proofs_to(proof),
                between,
                rules,
            })
        }
        Err(refusal) => Err(refusal),
    }
}
