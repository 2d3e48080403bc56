//! How a batch ended.

ghost use Rattle.batch_command.specs.Ends.{IsEnds};

use crate::batch_reports::texts::text_of;
use crate::batch_server::Worked;
use no_memory::NoMemory;
use rail_types::{List, Name};
use served_clients::admission::Rule;
use served_clients::serve_reports::{Ends, status_at, status_untold};
use served_clients::sessions::Ended;
use std::alloc::Global;

/// The end of a batch: the status is `ClientEnd` where the sink failed, `Memory` where
/// memory was wanted, else `Done`. The report has a line for the batch, and behind it
/// those of the workers in order.
pub fn ends_of<L: Rule>(alloc: Global, batch: &Name, written: &Ended, worked: &[Worked<L>]) -> Ends
    ensures ends { IsEnds L.Rule batch.now written.now worked.now result }
{
    let status = status_at(written.why);
    match text_of(alloc, batch, written, worked) {
        Ok(text) => Ends {
            status,
            text: Some(List::from_vec(text.into_vec())),
        },
        Err(NoMemory) => Ends {
            status: status_untold(status),
            text: None,
        },
    }
}
