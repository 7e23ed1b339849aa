//! Explains how a server's run ended.
use app_ends::{put_fault, put_reasons, put_report, put_unknown_condition, seen_document};
use app_explain::{
    Seen, SeenStream, StreamFault, StreamWord, explain_connection, explain_sent_stream,
    explain_unbound, explain_unfiled, explain_unkept, explain_wait,
};
use app_host::{FileSource, Notes, System, World};
use app_serve::{
    Host, ServiceFault, explain_unread_token, known_senders, say_idle, say_strangers, senders_of,
    streams_name, watchers_name,
};
use app_text::{Source, Text, rows_of};
use pd_engine::Spec;
use pd_report::{Refusal, Report};
use std::alloc::{AllocError, Global};
use std::random::RandomSource;
use std::sync::Wait;
use std::thread::Threads;

/// Explains that the file of the token can't be read, which place can't be bound, and why, or that a connection failed.
fn put_network<F, N>(out: &mut Text, host: &Host<'_, F, N>) {
    if let Some(why) = host.peers.unread_token() {
        explain_unread_token(out, why);
        return;
    }
    let Some(streams) = out.take_made(streams_name(host)) else {
        return;
    };
    let Some(watchers) = out.take_made(watchers_name(host)) else {
        return;
    };
    match host.peers.unbound() {
        Some((true, why)) => explain_unbound(out, watchers.shown(), why),
        Some((false, why)) => explain_unbound(out, streams.shown(), why),
        None => explain_connection(out, streams.shown()),
    }
}

/// Explains that the session couldn't be kept, or the file of the port not be written.
fn put_unkept<F, N>(out: &mut Text, host: &Host<'_, F, N>) {
    match host.peers.unfiled() {
        Some(why) => explain_unfiled(out, why),
        None => explain_unkept(out, host.peers.unkept()),
    }
}

/// The document of the session, with what was asked, if its bytes are known and it isn't refused.
fn spec_of<F, N>(host: &Host<'_, F, N>) -> Option<Spec> {
    let source = seen_document(host.notes, host.service.spec)?;
    Spec::read_with_options(host.alloc, source.bytes, &host.service.options).ok()
}

/// Explains that not all streams connected in time.
fn put_wait<F, N>(out: &mut Text, host: &Host<'_, F, N>) {
    let service = host.service;
    let Some(place) = out.take_made(streams_name(host)) else {
        return;
    };
    let Some(spec) = spec_of(host) else {
        explain_connection(out, place.shown());
        return;
    };
    let Some(known) = out.take_made(known_senders(host.alloc, host.peers, host.peers.count()))
    else {
        return;
    };
    let Some(senders) = out.take_made(senders_of(host.alloc, host.peers, &known)) else {
        return;
    };
    let seconds = service.wait.unwrap_or(0);
    explain_wait(out, spec.names(), place.shown(), seconds, &senders);
    say_strangers(out, host);
}

/// Explains why a stream is refused, and who sent it.
fn put_stream<F, N>(out: &mut Text, host: &Host<'_, F, N>, fault: StreamFault) {
    let Some(known) = out.take_made(known_senders(host.alloc, host.peers, host.peers.count()))
    else {
        return;
    };
    let Some(senders) = out.take_made(senders_of(host.alloc, host.peers, &known)) else {
        return;
    };
    let spec = spec_of(host);
    let names = spec.as_ref().map(|spec| spec.names());
    explain_sent_stream(out, host.alloc, names, fault, &senders);
    if fault.word == StreamWord::Unended {
        say_idle(out, host);
    }
}

/// What the stream at this place is called: by its file, if it is kept.
fn stream_name<F, N>(host: &Host<'_, F, N>, place: usize) -> Result<String, AllocError> {
    let number = (place as u64).saturating_add(1);
    let Some(folder) = host.service.keep else {
        return format!(in host.alloc; "stream {number}");
    };
    match host.peers.at(place).and_then(|peer| peer.file()) {
        Some(file) => String::from_str(host.alloc, file),
        None => format!(in host.alloc; "{folder}/{number}.stream"),
    }
}

/// What the streams are called, in the order in which they connected.
fn stream_names<F, N>(host: &Host<'_, F, N>) -> Result<Vec<String>, AllocError> {
    let mut names = Vec::new(host.alloc);
    for place in 0..host.peers.count() {
        names.push(stream_name(host, place)?)?;
    }
    Ok(names)
}

/// What was read of the streams, which are called so.
fn seen_streams<'a>(
    alloc: Global,
    notes: &'a Notes,
    names: &'a [String],
) -> Result<Vec<SeenStream<'a>>, AllocError> {
    let mut seen = Vec::new(alloc);
    for (place, name) in names.iter().enumerate() {
        let bytes = notes.stream(place).and_then(|note| note.bytes());
        seen.push(SeenStream {
            file: "",
            source: bytes.map(|bytes| Source {
                name: name.as_str(),
                bytes,
                before: 0,
            }),
            failure: "",
        })?;
    }
    Ok(seen)
}

/// Explains the answers of a server's report, or why it is a refusal, by these streams.
fn put_seen_report<'a, T: RandomSource + Threads + Wait + Sync, F: FileSource, N>(
    out: &mut Text,
    rt: &T,
    host: &'a Host<'a, F, N>,
    streams: &'a [SeenStream<'a>],
    report: &Report,
) {
    let seen = Seen {
        document: seen_document(host.notes, host.service.spec),
        options: Some(&host.service.options),
        streams,
        order: "Streams count in the order in which they connected.\n",
        notes: None,
        run_limit: None,
    };
    put_report(out, rt, host.alloc, seen, host.gate.widest(), report);
    put_reasons(out, host.alloc, &host.service.fail_on, report);
}

/// The same by what was read of the streams.
fn put_service_report<T: RandomSource + Threads + Wait + Sync, F: FileSource, N>(
    out: &mut Text,
    rt: &T,
    host: &Host<'_, F, N>,
    report: &Report,
) {
    if let Report::Refused(Refusal::Stream { stream, line, word }) = report {
        let (stream, line) = (*stream, *line);
        return match StreamWord::of(word) {
            Some(word) => put_stream(out, host, StreamFault { stream, line, word }),
            None => (),
        };
    }
    let Some(names) = out.take_made(stream_names(host)) else {
        return;
    };
    let Some(streams) = out.take_made(seen_streams(host.alloc, host.notes, &names)) else {
        return;
    };
    put_seen_report(out, rt, host, &streams, report);
}

/// Says which predicate isn't there that is named.
fn put_unknown<F, N>(out: &mut Text, host: &Host<'_, F, N>) {
    match spec_of(host) {
        Some(spec) => put_unknown_condition(out, host.alloc, &spec, &host.service.fail_on),
        None => (),
    }
}

/// Explains how a server's run ended.
fn put_service<Y: System>(
    out: &mut Text,
    world: &World<'_, Y>,
    host: &Host<'_, Y::Files, Y::Network>,
    end: &Result<Option<Report>, ServiceFault>,
) {
    match end {
        Ok(Some(report)) => put_service_report(out, world.rt, host, report),
        Ok(None) => put_unknown(out, host),
        Err(ServiceFault::Engine(fault)) => {
            let spec = host.service.spec;
            put_fault(out, world, None, spec, &[], fault);
        }
        Err(ServiceFault::Network) => put_network(out, host),
        Err(ServiceFault::Late) => put_wait(out, host),
        Err(ServiceFault::Unkept) => put_unkept(out, host),
    }
}

/// The explanation of how a server's run ended, as far as it could be made; empty if none is wanted.
pub(crate) fn service_text<Y: System>(
    world: &World<'_, Y>,
    host: &Host<'_, Y::Files, Y::Network>,
    end: &Result<Option<Report>, ServiceFault>,
) -> Vec<u8> {
    let mut out = Text::new(world.alloc);
    if world.explain {
        put_service(&mut out, world, host, end);
    }
    rows_of(world.alloc, out)
}
