//! The files of a run.

use command_files::train::Trains;
use command_files::{BaseFile, NetworkFile};

/// The network, the base timetable and the trains of a run.
#[derive(Debug, Drop)]
pub struct Files {
    pub network: NetworkFile,
    pub base: BaseFile,
    pub trains: Trains,
}
