//! Streams opened under their names.

ghost use Rattle.std.specs.Prelude.{◌∷◌, [], IfErr, IfOk, option_map};
ghost use Rattle.command_reports.specs.Scenes.{scene};
ghost use Rattle.outside_io.specs.Openings.{source_at, sink_at};
ghost use Rattle.served_clients.specs.StreamClients.{AreDistinct, file_calls, file_loans, IsFit};
ghost use Rattle.served_clients.specs.StreamClients.{pair_calls, pair_loans, stream_calls};
ghost use Rattle.served_clients.specs.StreamClients.{stream_loans};
ghost use Rattle.served_clients.specs.Lending.{AreOut, SinkIsOut, SourceIsOut};
ghost use Rattle.served_clients.specs.Refusing.{IsStopped};

use crate::client_streams::returning::put_back_client;
use crate::client_streams::streams::ClientStreams;
use command_line::Text;
use command_line::client_words::ClientWord;
use command_reports::{Refusal, not_opened};
use outside_io::Outside;
use std::alloc::Global;

/// Opens the source and the sink of a client, and the file of its proofs, if there is
/// one. Where a name cannot be opened, all that was opened is put back as it was, and
/// this name refuses, as `open: NAME`.
pub fn open_served<O: Outside>(
    alloc: Global,
    client: &ClientWord,
    file: Option<&Text>,
    outside: &mut O,
) -> Result<ClientStreams<O::Src, O::Snk>, Refusal>
    requires distinct { AreDistinct (stream_calls client.now (option_map (λ text. text.now) file)) }
    ensures out { IfOk result (λ streams.
        AreOut (stream_loans client.now (option_map (λ text. text.now) file.entry) streams)
        (scene O.Outside outside.old) (scene O.Outside outside.new)) }
    ensures fit { IfOk result (λ streams.
        IsFit (option_map (λ text. text.now) file.entry) streams.proof) }
    ensures stopped { IfErr result
        (IsStopped (stream_calls client.now (option_map (λ text. text.now) file.entry))
        (scene O.Outside outside.old) (scene O.Outside outside.new)) }
{
    let (source, sink) = match open_streams(alloc, client, outside) {
        Ok(pair) => pair,
        Err(refusal) => return Err(refusal),
    };
    match open_file(alloc, file, outside) {
        Ok(proof) => Ok(ClientStreams {
            source,
            sink,
            proof,
        }),
        Err(refusal) => {
            put_back_client(client, source, sink, outside);
            Err(refusal)
        }
    }
}

// Opens the file of a client's proofs, if there is one.
fn open_file<O: Outside>(
    alloc: Global,
    file: Option<&Text>,
    outside: &mut O,
) -> Result<Option<O::Snk>, Refusal>
    ensures out { IfOk result (λ proof.
        AreOut (file_loans (option_map (λ text. text.now) file.entry) proof)
        (scene O.Outside outside.old) (scene O.Outside outside.new)) }
    ensures fit { IfOk result (IsFit (option_map (λ text. text.now) file.entry)) }
    ensures stopped { IfErr result
        (IsStopped (file_calls (option_map (λ text. text.now) file.entry))
        (scene O.Outside outside.old) (scene O.Outside outside.new)) }
{
    match file {
        None => Ok(None),
        Some(text) => match open_sink(alloc, text.as_str(), outside) {
            Ok(sink) => Ok(Some(sink)),
            Err(refusal) => Err(refusal),
        },
    }
}

/// Opens the source and the sink of a client. Where the sink cannot be opened, the source is put
/// back as it was; a name that cannot be opened refuses, as `open: NAME`.
pub fn open_streams<O: Outside>(
    alloc: Global,
    client: &ClientWord,
    outside: &mut O,
) -> Result<(O::Src, O::Snk), Refusal>
    ensures out { IfOk result (λ pair. AreOut (pair_loans client.now pair)
        (scene O.Outside outside.old) (scene O.Outside outside.new)) }
    ensures stopped { IfErr result (IsStopped (pair_calls client.now)
        (scene O.Outside outside.old) (scene O.Outside outside.new)) }
{
    let source = match open_source(alloc, client.input.as_str(), outside) {
        Ok(source) => source,
        Err(refusal) => return Err(refusal),
    };
    match open_sink(alloc, client.output.as_str(), outside) {
        Ok(sink) => Ok((source, sink)),
        Err(refusal) => {
            outside.put_back_source(client.input.as_str(), source);
            Err(refusal)
        }
    }
}

// Opens a source.
fn open_source<O: Outside>(alloc: Global, name: &str, outside: &mut O) -> Result<O::Src, Refusal>
    ensures out { IfOk result (λ source. SourceIsOut name.now source
        (scene O.Outside outside.old) (scene O.Outside outside.new)) }
    ensures stopped { IfErr result (IsStopped (source_at name.now ∷ [])
        (scene O.Outside outside.old) (scene O.Outside outside.new)) }
{
    match outside.source(name) {
        Ok(source) => Ok(source),
        Err(_) => Err(not_opened(alloc, name)),
    }
}

// Opens a sink.
fn open_sink<O: Outside>(alloc: Global, name: &str, outside: &mut O) -> Result<O::Snk, Refusal>
    ensures out { IfOk result (λ sink. SinkIsOut name.now sink
        (scene O.Outside outside.old) (scene O.Outside outside.new)) }
    ensures stopped { IfErr result (IsStopped (sink_at name.now ∷ [])
        (scene O.Outside outside.old) (scene O.Outside outside.new)) }
{
    match outside.sink(name) {
        Ok(sink) => Ok(sink),
        Err(_) => Err(not_opened(alloc, name)),
    }
}
