//! What the server can be asked to do.

use command_line::Text;
use command_line::client_words::ClientWord;
use command_line::proof_words::ProofWord;
use command_line::rule_words::RuleWord;
use rail_types::List;

/// Greatest number that a demonstration may begin with.
pub const MAX_DEMO_NUMBER: u32 = 2_147_483_647;

/// An order to the server.
#[derive(Debug, Drop)]
pub enum Order {
    /// Write the table of a network's zones and blocks: the names of the
    /// network's file, and of the table's.
    Tables {
        network: Text,
        out: Text,
    },
    /// Begin a journal for a network's and a base timetable's file, on an empty disk; or
    /// move a journal of version 1 there. The names of the two files, of the new
    /// journal, and of the old one.
    Init {
        network: Text,
        base: Text,
        journal: Text,
        from: Option<Text>,
    },
    /// Write the stairway of a grant: the names of the network's, the base timetable's and
    /// the journal's file, the grant's position in the history, at most `MAX_NUMBER`, and
    /// the name of the table's file.
    Stairs {
        network: Text,
        base: Text,
        journal: Text,
        entry: u64,
        out: Text,
    },
    /// Write how much of a window the trains on some zones take up: the names of the network's, the
    /// base timetable's and the journal's file, the first and the last zone, the window's first
    /// tick and the tick at which it ends, both 0 to `MAX_TICK`, and the name of the text's file.
    Capacity {
        network: Text,
        base: Text,
        journal: Text,
        first: u32,
        last: u32,
        from: u32,
        to: u32,
        out: Text,
    },
    /// Answer the lines of clients: the names of the network's, the trains', the base
    /// timetable's and the journal's file, the clients, 1 to `MAX_CLIENTS`, with names and
    /// streams of their own, the files for the proofs of some of them, and the rules by which
    /// paths may be denied to them.
    Serve {
        network: Text,
        trains: Text,
        base: Text,
        journal: Text,
        clients: List<ClientWord>,
        proofs: List<ProofWord>,
        rules: List<RuleWord>,
    },
    /// Answer the lines of a client that are made up from a number, at most `MAX_DEMO_NUMBER`, and
    /// write how many paths were granted: the number, and the name of the summary's file.
    Demo {
        number: u32,
        out: Text,
    },
    /// Check the proofs of a file by the journal's history: the names of the network's, the
    /// trains', the base timetable's and the journal's file, and of the file of proofs.
    Check {
        network: Text,
        trains: Text,
        base: Text,
        journal: Text,
        proof: Text,
    },
    /// Answer one list of asks by several workers: the names of the network's, the trains', the
    /// base timetable's and the journal's file, the client whose list it is, with a name of at most
    /// `MAX_BATCH_NAME_BYTES`, how many workers there are, 1 to `MAX_WORKERS`, and the rules by
    /// which paths may be denied to each of them.
    Batch {
        network: Text,
        trains: Text,
        base: Text,
        journal: Text,
        client: ClientWord,
        workers: u32,
        rules: List<RuleWord>,
    },
    /// Carry what is live in an old journal into a new one: the names of the network's and the base
    /// timetable's file that the new one is for, of the new journal, of the old one, and of the
    /// base timetable's file that the old one is for; and of the file for the lines of entries that
    /// are left out, where any may be. Each is a value of the words, so it is not empty and has no
    /// dash in front. The old journal is not the new one, and the file for lines is none of the
    /// other five: the definition `AreApart`; the rule is that of names in docs/FORMATS.md.
    Carry {
        network: Text,
        base: Text,
        journal: Text,
        from: Text,
        from_base: Text,
        left: Option<Text>,
    },
}
