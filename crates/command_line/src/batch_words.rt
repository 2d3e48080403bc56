//! The words of a batch: its client, its workers and their rules.

mod batches;
mod clients;
mod laws;
mod names;
mod rules;

pub use batches::{BatchWord, read_batch_word};
pub use clients::{MAX_BATCH_NAME_BYTES, MAX_WORKERS, read_batch_client, read_workers};
pub use laws::{limits_are_these, worker_names_are_names, worker_names_differ};
pub use names::{worker_name, worker_names};
pub use rules::read_worker_rules;
