//! Judges a session whose streams come by connections.
ghost use Rattle.app_arguments.specs.Places as places;
ghost use Rattle.app_arguments.specs.Views.{format_view, place_view};
ghost use Rattle.app_host.specs.FileSources.{IsReadOf, ReadLeaves};
ghost use Rattle.app_serve.specs.Kept.{AsksForFiles, WritesFiles};
ghost use Rattle.app_serve.specs.Served.{IsServed, OfServed};
ghost use Rattle.app_serve.specs.Watched.{IsBeside};
ghost use Rattle.app_serve.specs.ServiceFaults.{named_service_ending, service_ending};
ghost use Rattle.app_host.specs.Faults.{is_out_of_memory, judgement_ending};
ghost use Rattle.app_serve.specs.declared.service_fault.ServiceFault.TheVariants as faults;
ghost use Rattle.judge_runs.specs.Wishes.{Condition};
ghost use Rattle.app_arguments.specs.ConditionViews.{fail_on_view};
ghost use Rattle.def_format.specs.Documents.{IsDocument, inquiry_of};
ghost use Rattle.def_judgement.specs.Headline.{is_judged};
ghost use Rattle.app_arguments.specs.Statuses.{LeavesOf, MayBeUnread, OfConnections, OfNamed, ServiceMayFail};
ghost use Rattle.pd_report.specs.Views.{report_view};
ghost use Rattle.judge_session.specs.Inquiries.{inquiry_view};
ghost use Rattle.pd_spec.specs.Views.{IsFaultOf, document_view, options_view};
ghost use Rattle.std.specs.Prelude.{◌≡◌, ◌⊎◌, ◌↔◌, ◌<◌, ◌∷◌, ℕ, All, List, Option, Err, IfErr, IfOk, IfSome, IsOk, IsSome, MatchResult, None, Ok, Some, [], false, length, map, true};

use super::arrivals::{Entrance, next_stream, room_for};
use super::host::Host;
use super::keeping::Keeping;
use super::kept_session::{begin_keeping, end_keeping};
use super::notices::Notices;
use super::peer::Peer;
use super::place_names::{watchers_path, watchers_port};
use super::port_file::write_port_file;
use super::recording_source::RecordingSource;
use super::served::judge_served;
use super::service_fault::ServiceFault;
use super::service_notices::ServiceNotices;
use super::watchers::Watchers;
use app_arguments::{Format, Place, Workers};
use app_door::Room;
use app_host::{
    FileSource, Network, NotedSource, System, World, is_out_of_memory, open_noted, read_document,
};
use def_judgement::one_document;
use judge_session::EngineFault;
use pd_engine::{ByteSource, Crew, Inquiry, NoGate, NoObserver, Observer, Report, Spec, SpecFault};
use std::alloc::{AllocError, Global};
use std::io::Write;
use std::random::RandomSource;
use std::sync::Wait;
use std::thread::Threads;
use std::time::Instant;

/// Binds the place of the streams, or that of the watchers.
///
/// # Errors
/// `Network`, if it can't be bound, which is noted.
fn bind<F, N: Network>(
    host: &Host<'_, F, N>,
    place: &Place<'_>,
    is_watchers: bool,
) -> Result<N::Listener, ServiceFault>
    ensures on { IfOk result (λ listener. N.is_on listener (place_view place.now)) }
    ensures sure { N.never_fails ≡ true → IsOk result }
    ensures err { IfErr result (λ fault. fault ≡ faults.Network) }
{
    match host.network.bind(place) {
        Ok(listener) => Ok(listener),
        Err(error) => {
            host.peers.note_unbound(host.alloc, is_watchers, &error);
            Err(ServiceFault::Network)
        }
    }
}

/// Binds the place of the watchers, which is beside that of the streams, if any are to be accepted.
///
/// # Errors
/// `Network`, if it can't be bound, and `Memory`.
fn bind_watchers<F, N: Network>(host: &Host<'_, F, N>) -> Result<Option<N::Listener>, ServiceFault>
    ensures asked { IfOk result (λ listener. IsSome listener ↔ (0 < host.now.service.now.watchers)) }
    ensures on { IfOk result (λ listener. IfSome listener (λ bound.
        IsBeside (place_view host.now.service.now.place) (N.is_on bound))) }
    ensures sure { N.never_fails ≡ true → IfErr result (λ fault. fault ≡ faults.Engine EngineFault.Memory) }
    ensures err { IfErr result (λ fault. (fault ≡ faults.Network) ⊎ (fault ≡ faults.Engine EngineFault.Memory)) }
{
    if host.service.watchers == 0 {
        return Ok(None);
    }
    match &host.service.place {
        Place::Port(address, port) => {
            let place = Place::Port(*address, watchers_port(*port));
            Ok(Some(bind(host, &place, true)?))
        }
        Place::Socket(path) => {
            let beside = watchers_path(host.alloc, *path)?;
            let place = Place::Socket(beside.as_str());
            Ok(Some(bind(host, &place, true)?))
        }
    }
}

/// Notes which ports are bound.
fn note_ports<F, N: Network>(
    host: &Host<'_, F, N>,
    streams: &N::Listener,
    watchers: &Option<N::Listener>,
) {
    if let Some(port) = host.network.port_of(streams) {
        host.peers.note_port(port);
    }
    if let Some(listener) = watchers {
        if let Some(port) = host.network.port_of(listener) {
            host.peers.note_watchers_port(port);
        }
    }
}

/// When the streams are waited for no longer, if there is such a moment.
///
/// # Errors
/// `Network`, if the clock can't be read.
fn wait_end<N: Network>(network: &N, wait: Option<u64>) -> Result<Option<Instant>, ServiceFault>
    ensures endless { wait ≡ None → IfOk result (λ end. end ≡ None) }
    ensures sure { N.never_fails ≡ true → IsOk result }
    ensures err { IfErr result (λ fault. fault ≡ faults.Network) }
{
    let Some(seconds) = wait else {
        return Ok(None);
    };
    match network.seconds_from_now(seconds) {
        Ok(end) => Ok(Some(end)),
        Err(_) => Err(ServiceFault::Network),
    }
}

/// Notes the address of who made a connection; it is empty if that isn't known.
fn note_address<F, N: Network>(
    host: &Host<'_, F, N>,
    connection: &N::Connection,
    peer: Option<&Peer>,
) {
    if let Some(peer) = peer {
        if let Ok(address) = host.network.peer_address(host.alloc, connection) {
            peer.note_address(address.unwrap_or(String::new(host.alloc)));
        }
    }
}

/// Accepts a stream, which is the one of this number, counted from 0, and notes its address for its peer.
///
/// # Errors
/// `Network`, if it can't be accepted, `Late`, if it doesn't come in time, and `Memory`.
fn accept_stream<'a, F, N: Network, W: Write + Drop, T: Notices>(
    host: &Host<'a, F, N>,
    entrance: &Entrance<N::Listener>,
    room: &mut Option<Room<'_, N::Connection>>,
    place: usize,
    keeping: Option<Keeping<'a, W, T>>,
    notices: &'a T,
) -> Result<RecordingSource<'a, N::Connection, W, T>, ServiceFault>
    ensures given { IfOk result (λ stream. (at : places.Place) → N.is_on entrance.now.listener at
        → N.may_give host.now.network.now at (N.Connection.left stream.source.source)) }
    ensures open { IfOk result (λ stream. N.Connection.has_ended stream.source.source ≡ false) }
    ensures sure { entrance.now.end ≡ None → N.never_fails ≡ true → IsOk result }
    ensures err { IfErr result (λ fault. (fault ≡ faults.Network) ⊎ (fault ≡ faults.Late)
        ⊎ (fault ≡ faults.Engine EngineFault.Memory)) }
{
    let connection = next_stream(host, entrance, room)?;
    note_address(host, &connection, host.peers.at(place));
    notices.has_connected(place);
    let source = NotedSource::new(host.alloc, connection, host.notes.stream(place));
    Ok(RecordingSource::new(host.alloc, source, place, host.peers, keeping, notices))
}

/// Accepts this many streams at a place, and gives the place up. Of each it is noted who sends it; they are kept by
/// these, from the last one on, as long as there are any.
///
/// # Errors
/// `Network`, if one can't be accepted, `Late`, if one doesn't come in time, and `Memory`.
fn accept_streams<'a, F, N: Network, W: Write + Drop, T: Notices>(
    host: &Host<'a, F, N>,
    entrance: Entrance<N::Listener>,
    room: Option<Room<'_, N::Connection>>,
    count: usize,
    kept: Vec<Keeping<'a, W, T>>,
    notices: &'a T,
) -> Result<Vec<RecordingSource<'a, N::Connection, W, T>>, ServiceFault>
    ensures count { IfOk result (λ streams. length streams.items ≡ count) }
    ensures given { IfOk result (λ streams. (at : places.Place) → N.is_on entrance.listener at
        → All (λ stream. N.may_give host.now.network.now at (N.Connection.left stream.source.source))
        streams.items) }
    ensures open { IfOk result (λ streams.
        All (λ stream. N.Connection.has_ended stream.source.source ≡ false) streams.items) }
    ensures sure { entrance.end ≡ None → N.never_fails ≡ true
        → IfErr result (λ fault. fault ≡ faults.Engine EngineFault.Memory) }
    ensures err { IfErr result (λ fault. (fault ≡ faults.Network) ⊎ (fault ≡ faults.Late)
        ⊎ (fault ≡ faults.Engine EngineFault.Memory)) }
{
    let mut streams = Vec::new(host.alloc);
    let mut kept = kept;
    let mut room = room;
    for place in 0..count {
        let keeping = kept.pop();
        match accept_stream(host, &entrance, &mut room, place, keeping, notices) {
            Ok(stream) => streams.push(stream)?,
            Err(fault) => {
                note_starts(host, &streams);
                return Err(fault);
            }
        }
    }
    Ok(streams)
}

/// Notes of each of these streams how it begins, as far as it has come.
fn note_starts<F, N: Network, W, T>(
    host: &Host<'_, F, N>,
    streams: &[RecordingSource<'_, N::Connection, W, T>],
) {
    for (place, stream) in streams.iter().enumerate() {
        if let Some(peer) = host.peers.at(place) {
            let _ = note_start(host, &stream.source.source, peer);
        }
    }
}

/// Notes how a stream begins, as far as it has come.
fn note_start<F, N: Network>(
    host: &Host<'_, F, N>,
    connection: &N::Connection,
    peer: &Peer,
) -> Result<(), AllocError> {
    let mut piece = [0u8; 1024];
    let count = host.network.first_bytes(connection, &mut piece);
    let mut start = Vec::new(host.alloc);
    for byte in piece.iter().take(count) {
        start.push(*byte)?;
        if *byte == b'\n' {
            break;
        }
    }
    peer.note_start(start);
    Ok(())
}

/// How a server ends by how its judgement ends.
fn service_end(end: Result<Report, EngineFault>) -> Result<Report, ServiceFault>
    ensures ending { (fail_on : List Condition) → service_ending fail_on result ≡ judgement_ending fail_on end }
    ensures same { MatchResult end (λ report. result ≡ Ok report) (λ fault. result ≡ Err (faults.Engine fault)) }
{
    match end {
        Ok(report) => Ok(report),
        Err(fault) => Err(ServiceFault::Engine(fault)),
    }
}

/// Judges a document, with what is asked, and the streams while the observer watches, writes the report in the format
/// that is asked for, and flushes the output. It gives the report.
///
/// # Errors
/// As `judge_served`.
fn judge_accepted<
    S: RandomSource + Threads + Wait + Sync,
    F: FileSource,
    N,
    R: ByteSource + Send + Drop,
    B: Observer + Sync,
    O: Write,
>(
    rt: &S,
    host: &Host<'_, F, N>,
    inquiry: Inquiry<'_, '_, '_>,
    streams: Vec<R>,
    observer: &B,
    output: &mut O,
) -> Result<Report, EngineFault>
    requires { All (λ stream. R.has_ended stream ≡ false) streams.items }
    ensures written { (fail_on : List Condition) → ReadLeaves (OfServed (format_view host.now.service.now.format)
        (map R.left streams.items) fail_on (inquiry_view inquiry.entry)) (judgement_ending fail_on result)
        (O.contents output.old) (O.contents output.new) }
    ensures err { IfErr result (λ fault. (fault ≡ EngineFault.Memory) ⊎ (fault ≡ EngineFault.Write)) }
{
    let service = host.service;
    let crew = Crew::new(rt, service.workers.count(), host.gate);
    let format = service.format;
    judge_served(
        &crew, host.alloc, inquiry, streams, format, observer, output,
    )
}

/// Binds the places, begins to keep the session, if it is to be kept, writes the file of the port, if there is to be
/// one, accepts a stream for each process of the document, judges the document and the streams, and writes the report.
/// Meanwhile the watchers are accepted, and each is shown how far the streams are read.
///
/// # Errors
/// As `serve`, but for `Read`; `Unkept` leaves nothing written.
fn serve_session<
    S: RandomSource + Threads + Wait + Sync,
    F: FileSource,
    N: Network + Sync,
    O: Write,
>(
    rt: &S,
    host: &Host<'_, F, N>,
    inquiry: Inquiry<'_, '_, '_>,
    spec: &Spec,
    output: &mut O,
) -> Result<Report, ServiceFault>
    requires document { IsDocument (inquiry_view inquiry) (document_view spec.now) }
    ensures written { (fail_on : List Condition) → ReadLeaves (OfConnections
        (IsServed (format_view host.now.service.now.format)) (N.may_give host.now.network.now
        (place_view host.now.service.now.place))
        (ServiceMayFail host.now.service.now.wait N.never_fails) (AsksForFiles host.now.service.now) fail_on
        (inquiry_view inquiry.entry)) (service_ending fail_on result) (O.contents output.old) (O.contents output.new) }
    ensures err { IfErr result (λ fault. (fault ≡ faults.Network) ⊎ (fault ≡ faults.Late)
        ⊎ ((fault ≡ faults.Unkept) × (AsksForFiles host.now.service.now))
        ⊎ (fault ≡ faults.Engine EngineFault.Memory) ⊎ (fault ≡ faults.Engine EngineFault.Write)) }
{
    one_document();
    let service = host.service;
    let end = wait_end(host.network, service.wait)?;
    let room = room_for(host, spec)?;
    let listener = bind(host, &service.place, false)?;
    let watchers = Watchers {
        network: host.network,
        listener: bind_watchers(host)?,
        count: service.watchers,
        spec,
        alloc: host.alloc,
    };
    let notices = ServiceNotices { host, spec };
    let kept = begin_keeping(host, inquiry, spec, &notices)?;
    note_ports(host, &listener, &watchers.listener);
    write_port_file(host)?;
    notices.listens();
    let count = spec.names().processes();
    let entrance = Entrance { listener, end };
    let streams = accept_streams(host, entrance, room, count, kept, &notices)?;
    service_end(judge_accepted(rt, host, inquiry, streams, &watchers, output))
}

/// Judges a document, with what is asked, and no streams, writes the report in this format, and flushes the output.
///
/// # Errors
/// As `judge_served`.
fn judge_no_streams<Y: System, O: Write>(
    world: &World<'_, Y>,
    inquiry: Inquiry<'_, '_, '_>,
    workers: &Workers,
    format: Format,
    output: &mut O,
) -> Result<Report, EngineFault>
    ensures written { (fail_on : List Condition) → ReadLeaves (OfServed (format_view format) [] fail_on
        (inquiry_view inquiry.entry)) (judgement_ending fail_on result) (O.contents output.old)
        (O.contents output.new) }
    ensures err { IfErr result (λ fault. (fault ≡ EngineFault.Memory) ⊎ (fault ≡ EngineFault.Write)) }
{
    let streams = Vec::<<Y::Network as Network>::Connection>::new(world.alloc);
    let crew = Crew::new(world.rt, workers.count(), &NoGate);
    judge_served(
        &crew,
        world.alloc,
        inquiry,
        streams,
        format,
        &NoObserver,
        output,
    )
}

/// Reports why a document is refused. No place is bound.
///
/// # Errors
/// As `serve`, but for `Read` and `Network`.
fn refuse_document<Y: System, O: Write>(
    world: &World<'_, Y>,
    host: &Host<'_, Y::Files, Y::Network>,
    inquiry: Inquiry<'_, '_, '_>,
    fault: &SpecFault,
    output: &mut O,
) -> Result<Report, ServiceFault>
    requires { IsFaultOf (inquiry_view inquiry) fault.now }
    ensures written { (place : places.Place) (fail_on : List Condition) (wait : Option ℕ)
        (keep port_file : Option (List ℕ)) → ReadLeaves (OfConnections
        (IsServed (format_view host.now.service.now.format)) (Y.Network.may_give host.now.network.now place)
        (ServiceMayFail wait Y.Network.never_fails) (WritesFiles keep port_file) fail_on
        (inquiry_view inquiry.entry))
        (service_ending fail_on result) (O.contents output.old) (O.contents output.new) }
    ensures memory { is_out_of_memory fault.now ≡ true → result ≡ Err (faults.Engine EngineFault.Memory) }
    // Its refusal is the report that is written whole, or the call fails.
    ensures refused { IfOk result (λ report. is_judged (report_view report) ≡ false) }
    ensures err { IfErr result (λ fault. (fault ≡ faults.Engine EngineFault.Memory)
        ⊎ (fault ≡ faults.Engine EngineFault.Write)) }
{
    one_document();
    if is_out_of_memory(fault) {
        return Err(ServiceFault::Engine(EngineFault::Memory));
    }
    let service = host.service;
    let end = judge_no_streams(world, inquiry, &service.workers, service.format, output);
    service_end(end)
}

/// How a server ends whose session is kept, or isn't, by how it ended before that was known.
fn kept_end(end: Result<Report, ServiceFault>, is_kept: bool) -> Result<Report, ServiceFault>
    ensures kept { is_kept ≡ true → result ≡ end }
    ensures unkept { is_kept ≡ false
        → MatchResult end (λ _. result ≡ Err faults.Unkept) (λ fault. result ≡ Err fault) }
{
    match end {
        Ok(report) => {
            if is_kept {
                Ok(report)
            } else {
                Err(ServiceFault::Unkept)
            }
        }
        Err(fault) => Err(fault),
    }
}

/// The report, if there is one.
fn report_of(end: &Result<Report, ServiceFault>) -> Option<&Report> {
    match end {
        Ok(report) => Some(report),
        Err(_) => None,
    }
}

/// Keeps the session, if it is to be kept, while it is judged as by `serve_session`.
///
/// # Errors
/// As `serve`, but for `Read`.
fn serve_kept<S: RandomSource + Threads + Wait + Sync, F: FileSource, N: Network + Sync, O: Write>(
    rt: &S,
    host: &Host<'_, F, N>,
    inquiry: Inquiry<'_, '_, '_>,
    spec: &Spec,
    output: &mut O,
) -> Result<Report, ServiceFault>
    requires document { IsDocument (inquiry_view inquiry) (document_view spec.now) }
    ensures { (fail_on : List Condition) → ReadLeaves (OfConnections
        (IsServed (format_view host.now.service.now.format)) (N.may_give host.now.network.now
        (place_view host.now.service.now.place))
        (ServiceMayFail host.now.service.now.wait N.never_fails) (AsksForFiles host.now.service.now) fail_on
        (inquiry_view inquiry.entry)) (service_ending fail_on result) (O.contents output.old) (O.contents output.new) }
{
    let end = serve_session(rt, host, inquiry, spec, output);
    let is_kept = end_keeping(host, report_of(&end));
    kept_end(end, is_kept)
}

/// How a server ends that has each predicate that is named, by how it ended before.
fn named_end(end: Result<Report, ServiceFault>) -> Result<Option<Report>, ServiceFault>
    ensures { (fail_on : List Condition) → named_service_ending fail_on result ≡ service_ending fail_on end }
{
    match end {
        Ok(report) => Ok(Some(report)),
        Err(fault) => Err(fault),
    }
}

/// Looks up in a document, with what is asked, the predicates that are named; if all are there, judges it and the
/// streams that come, as `serve_kept`. It gives the report, or nothing if a predicate isn't there: then no place is
/// bound, and nothing is written.
///
/// # Errors
/// As `serve`, but for `Read`.
fn serve_named<S: RandomSource + Threads + Wait + Sync, F: FileSource, N: Network + Sync, O: Write>(
    rt: &S,
    host: &Host<'_, F, N>,
    inquiry: Inquiry<'_, '_, '_>,
    spec: &Spec,
    output: &mut O,
) -> Result<Option<Report>, ServiceFault>
    requires document { IsDocument (inquiry_view inquiry) (document_view spec.now) }
    ensures { ReadLeaves (OfNamed (fail_on_view host.now.service.now.fail_on) (OfConnections
        (IsServed (format_view host.now.service.now.format)) (N.may_give host.now.network.now
        (place_view host.now.service.now.place))
        (ServiceMayFail host.now.service.now.wait N.never_fails) (AsksForFiles host.now.service.now)
        (fail_on_view host.now.service.now.fail_on)) (inquiry_view inquiry.entry))
        (named_service_ending (fail_on_view host.now.service.now.fail_on) result) (O.contents output.old)
        (O.contents output.new) }
{
    one_document();
    if host
        .service
        .fail_on
        .unknown_name(spec.predicates())
        .is_none()
    {
        return named_end(serve_kept(rt, host, inquiry, spec, output));
    }
    Ok(None)
}

/// Judges a document, with what is asked, and the streams that come, or reports why the document is refused. It gives
/// the report, or nothing if a predicate that is named isn't there.
///
/// # Errors
/// As `serve`, but for `Read`.
fn serve_document<Y: System, O: Write>(
    world: &World<'_, Y>,
    host: &Host<'_, Y::Files, Y::Network>,
    document: &[u8],
    output: &mut O,
) -> Result<Option<Report>, ServiceFault>
    ensures { ReadLeaves (OfNamed (fail_on_view host.now.service.now.fail_on) (OfConnections
        (IsServed (format_view host.now.service.now.format)) (Y.Network.may_give host.now.network.now
        (place_view host.now.service.now.place)) (ServiceMayFail host.now.service.now.wait
        Y.Network.never_fails) (AsksForFiles host.now.service.now) (fail_on_view
        host.now.service.now.fail_on)) (inquiry_of (options_view host.now.service.now.options) document.now))
        (named_service_ending (fail_on_view host.now.service.now.fail_on) result) (O.contents output.old)
        (O.contents output.new) }
{
    one_document();
    let inquiry = Inquiry {
        document,
        options: &host.service.options,
    };
    match Spec::read_with_options(host.alloc, document, &host.service.options) {
        Ok(spec) => serve_named(world.rt, host, inquiry, &spec, output),
        Err(fault) => named_end(refuse_document(world, host, inquiry, &fault, output)),
    }
}

/// Opens and reads the document of a server's session.
///
/// # Errors
/// `Read`, if it can't be opened or read, and `Memory`.
fn read_service<F: FileSource, N>(host: &Host<'_, F, N>) -> Result<Vec<u8>, EngineFault>
    ensures document { IfOk result (λ bytes. IsReadOf bytes.items
        (F.file_of host.now.files.now host.now.service.now.spec.now).source) }
    ensures unread { result ≡ Err EngineFault.Read → MayBeUnread
        (F.file_of host.now.files.now host.now.service.now.spec.now ∷ [])
        (F.file_of host.now.files.now host.now.service.now.spec.now ∷ []) }
    ensures err { IfErr result (λ fault. (fault ≡ EngineFault.Memory) ⊎ (fault ≡ EngineFault.Read)) }
{
    let file = open_noted(
        host.alloc,
        host.files,
        host.service.spec,
        host.notes.document(),
    )?;
    let document = read_document(host.alloc, file)?;
    Ok(document)
}

/// Opens and reads the document of a session; binds the places, unless the document, with what is asked, is refused, or
/// doesn't have a predicate that is named; accepts a stream for each process; judges the document and the streams,
/// writes the report, and flushes the output. It gives the report, or nothing if a predicate that is named isn't there,
/// and notes for the host's peers who sends each stream. Meanwhile the watchers are accepted, and each is shown how far
/// the streams are read; it returns once all of them have come, or one can't be accepted.
///
/// # Errors
/// `Read`, if the document can't be opened or read, `Network`, if a place can't be bound or a stream not be accepted,
/// `Late`, if a stream doesn't come in time, and `Memory` leave nothing written. `Write` leaves a part of the report
/// written, or all of it if only the flush failed. `Unkept`, if the session can't be kept that is to be, or the file of
/// the port not be written, leaves nothing written, or all of the report.
pub fn serve<Y: System, O: Write>(
    world: &World<'_, Y>,
    host: &Host<'_, Y::Files, Y::Network>,
    output: &mut O,
) -> Result<Option<Report>, ServiceFault>
    ensures { LeavesOf (options_view host.now.service.now.options) (Y.Files.file_of
        host.now.files.now host.now.service.now.spec.now) (MayBeUnread (Y.Files.file_of host.now.files.now
        host.now.service.now.spec.now ∷ []) (Y.Files.file_of host.now.files.now host.now.service.now.spec.now ∷ []))
        (OfNamed (fail_on_view host.now.service.now.fail_on) (OfConnections
        (IsServed (format_view host.now.service.now.format)) (Y.Network.may_give host.now.network.now
        (place_view host.now.service.now.place)) (ServiceMayFail host.now.service.now.wait Y.Network.never_fails)
        (AsksForFiles host.now.service.now) (fail_on_view host.now.service.now.fail_on)))
        (named_service_ending (fail_on_view host.now.service.now.fail_on) result) (O.contents output.old)
        (O.contents output.new) }
{
    match read_service(host) {
        Ok(document) => serve_document(world, host, &document, output),
        Err(fault) => Err(ServiceFault::Engine(fault)),
    }
}
