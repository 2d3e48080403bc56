//! Who answers a list: the client, and how many workers.

use command_line::client_words::ClientWord;

/// The client whose list is answered, and how many workers answer it.
#[derive(Clone, Copy)]
pub(crate) struct ListWorkers<'a> {
    pub(crate) client: &'a ClientWord,
    pub(crate) workers: u32,
}
