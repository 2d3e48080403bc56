//! The workers of a batch, each with its rules.

ghost use Rattle.std.specs.Prelude.{◌≡◌, ◌≤◌, IfOk};
ghost use Rattle.batch_command.specs.Lists.{AreMembers};
ghost use Rattle.command_line.specs.declared.batch_words.clients.TheConstants.{
  MAX_BATCH_NAME_BYTES,
};
ghost use Rattle.command_line.specs.declared.batch_words.clients.TheConstants.{MAX_WORKERS};
ghost use Rattle.served_clients.specs.Lending.{IsUnchanged};
ghost use Rattle.command_reports.specs.Scenes.{scene};

use crate::batch_server::Member;
use command_line::batch_words::{worker_name, worker_names_differ};
use no_memory::NoMemory;
use outside_io::Outside;
use rail_types::Name;
use served_clients::admission::Rule;
use served_clients::admission::client_rules::{ClientRules, take_rules};
use served_clients::client_streams::between_of;
use std::alloc::Global;

/// So many workers of a batch, in order, each with what the outside has called
/// between its searches, and with its rules taken out of those of all: those in the
/// elements with its name, in order.
pub(crate) fn members_of<O: Outside, L: Rule>(
    alloc: Global,
    batch: &Name,
    workers: u32,
    mut rules: Vec<ClientRules<L>>,
    outside: &mut O,
) -> Result<Vec<Member<O::Btw, L>>, NoMemory>
    requires few { workers ≤ MAX_WORKERS }
    ensures members { IfOk result (λ members.
        AreMembers batch.now workers rules.items members.items) }
    ensures still { IsUnchanged (scene O.Outside outside.old) (scene O.Outside outside.new) }
{
    worker_names_differ();
    let mut members = Vec::new(alloc);
    for before in 0..workers {
        let name = worker_name(alloc, batch, before + 1)?;
        let own = take_rules(alloc, &name, rules.as_mut_slice())?;
        let between = between_of(&name, outside);
        members.push(Member {
            name,
            between,
            rules: own,
        })?;
    }
    Ok(members)
}
