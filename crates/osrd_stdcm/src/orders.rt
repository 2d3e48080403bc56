//! Orders, carried out.

ghost use Rattle.std.specs.Prelude.{◌≡◌, ◌≢◌, ℕ, List, option_map};
ghost use Rattle.outside_io.specs.Openings.{Undisturbed};
ghost use Rattle.command_words.specs.Orders.{IsWithinLimits};
ghost use Rattle.command_reports.specs.Scenes.{scene};
ghost use Rattle.served_clients.specs.GivenNames.{given_names, names_in};
ghost use Rattle.osrd_stdcm.specs.Carries.{carry_names};
ghost use Rattle.osrd_stdcm.specs.Orders.{HasNoClients, NamesNoDisk, NamesNoLeft, OrderIsDone};
ghost use Rattle.osrd_stdcm.specs.Orders.{OrderIsRefused, OrderLeaves, OrderSays};

use admission_rules::Rule;
use admission_rules::client_rules::ClientRules;
use batch_command::run_batch;
use capacity_406::Stretch;
use carry_command::{CarryNames, run_carry};
use check_command::run_check;
use command_reports::exit_status::Status;
use command_words::{Order, Text};
use demo_command::run_demo;
use init_command::{run_init, run_move};
use outside_io::Outside;
use print_commands::capacity_command::run_capacity;
use print_commands::list_command::run_list;
use print_commands::stairs_command::run_stairs;
use request_server::serve_command::run_serve;
use served_clients::RunNames;
use std::alloc::AllocGlobal;
use std::sync::Wait;
use std::thread::Threads;

/// Carries out an order, with rules of clients.
pub(crate) fn obey<R: AllocGlobal + Threads + Wait + Sync, O: Outside, L: Rule + Send>(
    rt: &R,
    order: Order,
    rules: Vec<ClientRules<L>>,
    outside: &mut O,
) -> Status
    requires limits { IsWithinLimits order }
    ensures says { OrderSays O.Src.Source O.Snk.Sink O.Dsk.Disk L.Rule rules.items order
        (scene O.Outside outside.old) (scene O.Outside outside.new) result }
    ensures done { result ≡ Status.Done → OrderIsDone O.Src.Source O.Snk.Sink O.Dsk.Disk L.Rule
        rules.items order (scene O.Outside outside.old) (scene O.Outside outside.new) }
    ensures no { result ≡ Status.No → OrderIsRefused O.Src.Source O.Snk.Sink O.Dsk.Disk order
        (scene O.Outside outside.old) (scene O.Outside outside.new) }
    ensures leaves { OrderLeaves O.Src.Source O.Dsk.Disk order (scene O.Outside outside.old)
        (scene O.Outside outside.new) }
    ensures clean { (name : List ℕ) → NamesNoLeft order name → HasNoClients order
        → result ≢ Status.Done → result ≢ Status.Report
        → O.sinks outside.new name ≡ O.sinks outside.old name }
    ensures refused { (name : List ℕ) → NamesNoLeft order name → result ≢ Status.Done
        → result ≢ Status.ClientEnd → result ≢ Status.Report → result ≢ Status.Memory
        → O.sinks outside.new name ≡ O.sinks outside.old name }
    ensures words { result ≢ Status.Words }
    ensures back { Undisturbed (O.standing outside.old) (O.standing outside.new) }
    ensures disks { (name : List ℕ) → NamesNoDisk order name
        → O.disks outside.new name ≡ O.disks outside.old name }
{
    let alloc = rt.alloc();
    match order {
        Order::Tables { network, out } => run_list(alloc, network.as_str(), out.as_str(), outside),
        Order::Init {
            network,
            base,
            journal,
            from,
        } => match from {
            None => run_init(
                alloc,
                network.as_str(),
                base.as_str(),
                journal.as_str(),
                outside,
            ),
            Some(from) => run_move(
                alloc,
                network.as_str(),
                base.as_str(),
                journal.as_str(),
                from.as_str(),
                outside,
            ),
        },
        Order::Stairs {
            network,
            base,
            journal,
            entry,
            out,
        } => run_stairs(
            alloc,
            network.as_str(),
            base.as_str(),
            journal.as_str(),
            entry,
            out.as_str(),
            outside,
        ),
        Order::Capacity {
            network,
            base,
            journal,
            first,
            last,
            from,
            to,
            out,
        } => {
            let stretch = Stretch {
                first,
                last,
                from,
                to,
            };
            run_capacity(
                alloc,
                network.as_str(),
                base.as_str(),
                journal.as_str(),
                &stretch,
                out.as_str(),
                outside,
            )
        }
        Order::Serve {
            network,
            trains,
            base,
            journal,
            clients,
            proofs,
            ..
        } => {
            let names = run_names_of(&network, &trains, &base, &journal);
            run_serve(
                rt,
                &names,
                clients.as_slice(),
                proofs.as_slice(),
                rules,
                outside,
            )
        }
        Order::Demo { number, out } => run_demo(rt, number, out.as_str(), outside),
        Order::Check {
            network,
            trains,
            base,
            journal,
            proof,
        } => run_check(
            alloc,
            network.as_str(),
            trains.as_str(),
            base.as_str(),
            journal.as_str(),
            proof.as_str(),
            outside,
        ),
        Order::Batch {
            network,
            trains,
            base,
            journal,
            client,
            workers,
            ..
        } => {
            let names = run_names_of(&network, &trains, &base, &journal);
            run_batch(rt, &names, &client, workers, rules, outside)
        }
        Order::Carry {
            network,
            base,
            journal,
            from,
            from_base,
            left,
        } => {
            let names = names_of(&network, &base, &journal, &from, &from_base, &left);
            run_carry(alloc, &names, outside)
        }
    }
}

// The names of an order that answers the lines of clients.
fn run_names_of<'a>(
    network: &'a Text,
    trains: &'a Text,
    base: &'a Text,
    journal: &'a Text,
) -> RunNames<'a>
    ensures { names_in result ≡ given_names network.now trains.now base.now journal.now }
{
    RunNames {
        network: network.as_str(),
        trains: trains.as_str(),
        base: base.as_str(),
        journal: journal.as_str(),
    }
}

// The names of an order to carry.
fn names_of<'a>(
    network: &'a Text,
    base: &'a Text,
    journal: &'a Text,
    from: &'a Text,
    from_base: &'a Text,
    left: &'a Option<Text>,
) -> CarryNames<'a>
    ensures { result ≡ carry_names network.now base.now journal.now from.now from_base.now
        left.now }
{
    CarryNames::new(
        network.as_str(),
        base.as_str(),
        journal.as_str(),
        from.as_str(),
        from_base.as_str(),
        name_in(left),
    )
}

// A name that may be left out.
fn name_in(name: &Option<Text>) -> Option<&str>
    ensures { option_map (λ text. text.now) result ≡ name.now }
{
    match name {
        Some(text) => Some(text.as_str()),
        None => None,
    }
}
