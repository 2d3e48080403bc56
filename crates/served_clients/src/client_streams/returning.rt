//! Streams put back.

ghost use Rattle.std.specs.Prelude.{option_map};
ghost use Rattle.command_reports.specs.Scenes.{scene};
ghost use Rattle.served_clients.specs.StreamClients.{file_loans, pair_loans, stream_loans};
ghost use Rattle.served_clients.specs.Lending.{AreIn};

use crate::client_streams::streams::ClientStreams;
use command_line::Text;
use command_line::client_words::ClientWord;
use outside_io::Outside;

/// Puts back the file of a client's proofs, if there is one, then its sink, and then its source.
pub fn put_back_served<O: Outside>(
    client: &ClientWord,
    file: Option<&Text>,
    streams: ClientStreams<O::Src, O::Snk>,
    outside: &mut O,
)
    ensures back { AreIn
        (stream_loans client.now (option_map (λ text. text.now) file.entry) streams)
        (scene O.Outside outside.old) (scene O.Outside outside.new) }
{
    let ClientStreams {
        source,
        sink,
        proof,
    } = streams;
    put_back_file(file, proof, outside);
    put_back_client(client, source, sink, outside);
}

// Puts back the file of a client's proofs, if there is one.
fn put_back_file<O: Outside>(file: Option<&Text>, proof: Option<O::Snk>, outside: &mut O)
    ensures back { AreIn (file_loans (option_map (λ text. text.now) file.entry) proof)
        (scene O.Outside outside.old) (scene O.Outside outside.new) }
{
    if let (Some(file), Some(proof)) = (file, proof) {
        outside.put_back_sink(file.as_str(), proof);
    }
}

/// Puts back the source and the sink of a client.
pub fn put_back_client<O: Outside>(
    client: &ClientWord,
    source: O::Src,
    sink: O::Snk,
    outside: &mut O,
)
    ensures back { AreIn (pair_loans client.now (source, sink))
        (scene O.Outside outside.old) (scene O.Outside outside.new) }
{
    outside.put_back_sink(client.output.as_str(), sink);
    outside.put_back_source(client.input.as_str(), source);
}
