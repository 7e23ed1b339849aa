//! How far the lines of a stream have been read.
ghost use Rattle.std.specs.Prelude.{◌≡◌, List, length, option_map, take, Ok, Some, IfNone, IfOk, IfSome, OnErr, OnOk};
ghost use Rattle.def_model.specs.Events as events;
ghost use Rattle.pd_frames.specs.Views.{line_view, lines_view};
ghost use Rattle.def_format.specs.Readings.{IsClosed, NothingMore, with_end};
ghost use Rattle.std.specs.Bool.{OnFalse, OnTrue};
ghost use Rattle.def_format.specs.ReadingLaws.{after_record, read_line, read_on, unless_stopped};
ghost use Rattle.def_format.specs.Records.{Happens, id_fits};
ghost use Rattle.pd_spec.specs.Views.{document_view};
ghost use Rattle.read_traces.specs.Columns.{event_with, seen_kind_view};
ghost use Rattle.pd_events.specs.Faults.{record_fault_view};
ghost use Rattle.pd_events.specs.Parts.{event_due};
ghost use Rattle.pd_events.specs.Progress.{in_record, join_view, joined_of, joined_view, open_reading, reading_view, stop_of, stop_of_fault};
ghost use Rattle.pd_events.specs.Views.{record_view, stream_kind_view};

use super::plain::plain_event;
use super::record::read_record;
use super::room::Room;
use super::{LineRecord, RecordFault, StreamFault, StreamKind};
use def_format::ID_BYTE_LIMIT;
use pd_frames::Line;
use pd_pred::Names;
use pd_spec::Spec;
use read_traces::{Events, Kind, seen};
use std::alloc::{AllocError, Global};

/// The join of a stream's process.
#[derive(Clone, Copy)]
pub struct Join {
    /// The process, counted from 0.
    pub process: usize,
    /// The number of the join's line, counted from 1.
    pub line: u64,
}

/// Where a stream is.
#[derive(Clone, Copy)]
pub enum Phase {
    /// No record has come.
    Fresh,
    /// Its process has joined.
    Joined(Join),
    /// Its end line has come.
    Ended(Join),
    /// It has a fault, after the join if there was one.
    Faulted(Option<Join>, StreamFault),
}

impl Phase {
    /// The join, if there was one.
    pub fn join(self) -> Option<Join>
        ensures { joined_view result ≡ joined_of self }
    {
        match self {
            Phase::Fresh => None,
            Phase::Joined(join) | Phase::Ended(join) => Some(join),
            Phase::Faulted(joined, _) => joined,
        }
    }

    /// Whether the end line or a fault has come.
    pub fn is_closed(self) -> bool
        ensures yes { OnTrue result (IsClosed (stop_of self)) }
        ensures no { OnFalse result (stop_of self ≡ NothingMore) }
    {
        match self {
            Phase::Fresh | Phase::Joined(_) => false,
            Phase::Ended(_) => true,
            Phase::Faulted(_, _) => true,
        }
    }

    /// The same phase with this fault after it, if there is one and the stream hasn't stopped before.
    fn with_fault(self, following: Option<StreamFault>) -> Phase
        ensures { (events : List events.Event) → reading_view result events
            ≡ with_end (stop_of_fault following) (reading_view self events) }
    {
        match (self, following) {
            (Phase::Fresh, Some(fault)) => Phase::Faulted(None, fault),
            (Phase::Joined(join), Some(fault)) => Phase::Faulted(Some(join), fault),
            (phase, _) => phase,
        }
    }
}

/// What a record's fault is in a stream, if it isn't out of memory.
pub(crate) fn kind_of(fault: RecordFault) -> Option<StreamKind>
    ensures { option_map stream_kind_view result ≡ option_map in_record (record_fault_view fault) }
{
    match fault {
        RecordFault::Json => Some(StreamKind::Json),
        RecordFault::Shape => Some(StreamKind::Shape),
        RecordFault::Join => Some(StreamKind::Join),
        RecordFault::UnknownProcess => Some(StreamKind::UnknownProcess),
        RecordFault::UnknownVar => Some(StreamKind::UnknownVar),
        RecordFault::Value => Some(StreamKind::Value),
        RecordFault::MessageId => Some(StreamKind::MessageId),
        RecordFault::Memory => None,
    }
}

/// Adds an event after the join, unless there are as many as a stream may have.
fn add_event(
    limit: usize,
    join: Join,
    events: &mut Events,
    number: u64,
    kind: Kind<'_>,
    sets: &[(usize, i64)],
) -> Result<Phase, AllocError>
    ensures after { IfOk result (λ phase. reading_view phase events.new
        ≡ after_record limit (Some (join_view join)) (open_reading (Some (join_view join)) events.old)
        number (Ok (Happens (event_with (seen_kind_view kind.entry) sets.now)))) }
    ensures keeps { take (length events.old) events.new ≡ events.old }
{
    if events.len() >= limit {
        return Ok(Phase::Faulted(
            Some(join),
            StreamFault {
                line: number,
                kind: StreamKind::Events,
            },
        ));
    }
    events.push_parts(kind, sets)?;
    Ok(Phase::Joined(join))
}

/// Takes a record. An event is added to those of the stream.
fn take_record(
    limit: usize,
    joined: Option<Join>,
    events: &mut Events,
    number: u64,
    given: LineRecord,
) -> Result<Phase, AllocError>
    ensures after { IfOk result (λ phase. reading_view phase events.new
        ≡ after_record limit (joined_view joined) (open_reading (joined_view joined) events.old)
        number (Ok (record_view given))) }
    ensures keeps { take (length events.old) events.new ≡ events.old }
{
    let fault = |kind| Phase::Faulted(joined, StreamFault { line: number, kind });
    match (joined, given) {
        (None, LineRecord::Join(process)) => Ok(Phase::Joined(Join {
            process,
            line: number,
        })),
        (None, LineRecord::Happened(_) | LineRecord::Finish) => Ok(fault(StreamKind::Join)),
        (Some(_), LineRecord::Join(_)) => Ok(fault(StreamKind::Join)),
        (Some(join), LineRecord::Happened(event)) => {
            add_event(limit, join, events, number, seen(&event.kind), &event.sets)
        }
        (Some(join), LineRecord::Finish) => Ok(Phase::Ended(join)),
    }
}

/// Whether the id of this kind of event has 1 to 64 bytes, if there is one.
fn has_fitting_id(kind: Kind<'_>) -> bool
    ensures { result ≡ id_fits (seen_kind_view kind.entry) }
{
    match kind {
        Kind::Local => true,
        Kind::Send(id) | Kind::Recv(id) => !id.is_empty() && id.len() <= ID_BYTE_LIMIT,
    }
}

/// Takes the event of this kind that a line of the plain shape says, or the fault of its id.
fn take_kind(
    limit: usize,
    join: Join,
    events: &mut Events,
    number: u64,
    kind: Kind<'_>,
    sets: &[(usize, i64)],
) -> Result<Phase, AllocError>
    ensures after { IfOk result (λ phase. reading_view phase events.new
        ≡ after_record limit (Some (join_view join)) (open_reading (Some (join_view join)) events.old)
        number (event_due (seen_kind_view kind.entry) sets.now)) }
    ensures keeps { take (length events.old) events.new ≡ events.old }
{
    if !has_fitting_id(kind) {
        return Ok(Phase::Faulted(
            Some(join),
            StreamFault {
                line: number,
                kind: StreamKind::MessageId,
            },
        ));
    }
    add_event(limit, join, events, number, kind, sets)
}

/// Takes a line after the join, if it has the plain shape.
fn take_plain(
    limit: usize,
    names: &Names,
    room: &mut Room,
    join: Join,
    events: &mut Events,
    line: &Line<'_>,
) -> Result<Option<Phase>, AllocError>
    ensures after { IfOk result (λ found. IfSome found (λ after. reading_view after events.new
        ≡ read_line limit names.now (open_reading (Some (join_view join)) events.old) (line_view line.now))) }
    ensures not_plain { IfOk result (λ found. IfNone found (events.new ≡ events.old)) }
    ensures keeps { take (length events.old) events.new ≡ events.old }
{
    let found = plain_event(names, room, join.process, line.bytes.as_slice())?;
    let Some(kind) = found else {
        return Ok(None);
    };
    let after = take_kind(limit, join, events, line.number, kind, &room.sets)?;
    Ok(Some(after))
}

/// Takes a line by the JSON value that it is.
fn take_value(
    alloc: Global,
    spec: &Spec,
    limit: usize,
    joined: Option<Join>,
    events: &mut Events,
    line: &Line<'_>,
) -> Result<Phase, AllocError>
    ensures after { IfOk result (λ after. reading_view after events.new
        ≡ read_line limit (document_view spec.now).names (open_reading (joined_view joined) events.old)
        (line_view line.now)) }
    ensures keeps { take (length events.old) events.new ≡ events.old }
{
    let process = joined.map(|join| join.process);
    match read_record(alloc, spec, process, line.bytes.as_slice()) {
        Ok(record) => take_record(limit, joined, events, line.number, record),
        Err(fault) => {
            let kind = kind_of(fault).ok_or(AllocError)?;
            Ok(Phase::Faulted(
                joined,
                StreamFault {
                    line: line.number,
                    kind,
                },
            ))
        }
    }
}

/// Takes a line. What has stopped stays as it is.
fn take_line(
    alloc: Global,
    spec: &Spec,
    limit: usize,
    room: &mut Room,
    phase: Phase,
    events: &mut Events,
    line: &Line<'_>,
) -> Result<Phase, AllocError>
    ensures after { IfOk result (λ after. reading_view after events.new
        ≡ unless_stopped (stop_of phase) (reading_view phase events.old)
        (read_line limit (document_view spec.now).names (reading_view phase events.old) (line_view line.now))) }
    ensures keeps { take (length events.old) events.new ≡ events.old }
{
    if phase.is_closed() {
        return Ok(phase);
    }
    if let Phase::Joined(join) = phase {
        if let Some(after) = take_plain(limit, spec.names(), room, join, events, line)? {
            return Ok(after);
        }
    }
    take_value(alloc, spec, limit, phase.join(), events, line)
}

/// Takes these lines, from this phase on. If memory runs out, the events have some of theirs after those that they
/// had.
fn take_each(
    alloc: Global,
    spec: &Spec,
    limit: usize,
    start: Phase,
    events: &mut Events,
    lines: &[Line<'_>],
) -> Result<Phase, AllocError>
    ensures after { IfOk result (λ after. reading_view after events.new
        ≡ read_on limit (document_view spec.now).names (reading_view start events.old) (lines_view lines.now)) }
    ensures keeps { take (length events.old) events.new ≡ events.old }
{
    let mut phase = start;
    let mut room = Room::new(alloc);
    for line in lines {
        phase = take_line(alloc, spec, limit, &mut room, phase, events, line)?;
    }
    Ok(phase)
}

/// How far the lines of a stream have been read.
#[derive(Drop)]
pub struct Progress {
    /// Where the stream is.
    pub phase: Phase,
    /// The events so far.
    pub events: Events,
}

impl Progress {
    /// Takes these lines, and the fault after them, if there is one. The process may have as many events as the limit
    /// says.
    ///
    /// # Errors
    /// If memory runs out; the progress is then as it was.
    pub fn take_lines(
        &mut self,
        alloc: Global,
        spec: &Spec,
        limit: usize,
        lines: &[Line<'_>],
        following: Option<StreamFault>,
    ) -> Result<(), AllocError>
        ensures ok { OnOk result (reading_view self.new.phase self.new.events
            ≡ with_end (stop_of_fault following)
            (read_on limit (document_view spec.now).names (reading_view self.old.phase self.old.events)
            (lines_view lines.now))) }
        ensures err { OnErr result (reading_view self.new.phase self.new.events
            ≡ reading_view self.old.phase self.old.events) }
    {
        let kept = self.events.len();
        match take_each(alloc, spec, limit, self.phase, &mut self.events, lines) {
            Ok(phase) => {
                self.phase = phase.with_fault(following);
                Ok(())
            }
            Err(refused) => {
                self.events.truncate(kept);
                Err(refused)
            }
        }
    }

    /// Takes the fault after the lines, if there is one and the stream hasn't stopped before.
    pub fn end_by(&mut self, following: Option<StreamFault>)
        ensures { reading_view self.new.phase self.new.events
            ≡ with_end (stop_of_fault following) (reading_view self.old.phase self.old.events) }
    {
        self.phase = self.phase.with_fault(following);
    }
}
