//! Explains how a run ended, by what it has read.
use super::explained_answers::put_answers;
use super::reasons::put_reasons;
use super::seen_files::{seen_document, seen_file, seen_streams};
use super::seen_notes::{DrawnNotes, notes_of};
use super::seen_parts::{document_of, parts_of, streams_of};
use super::unknown_names::{put_unknown_condition, put_unknown_wish};
use app_arguments::{Judgement, PageOptions, SessionNames};
use app_explain::{
    Judged, NotedEvents, Seen, SeenStream, Widest, explain_bundle_fault, explain_file,
    explain_finding, explain_long_report, explain_memory, explain_no_file, explain_no_picture,
    explain_no_predicate, explain_output, explain_refusal, explain_unread_finding,
};
use app_host::{FileSource, Note, System, World, check_seen};
use app_text::{Source, Text, line_at, rows_of};
use def_format::STREAM_BYTE_LIMIT;
use judge_draw::DrawOutcome;
use judge_session::EngineFault;
use out_picture::DrawOptions;
use pd_report::{Refusal, Report};
use read_notes::EventNotes;
use std::alloc::{AllocError, Global};
use std::random::RandomSource;
use std::sync::Wait;
use std::thread::Threads;

/// Explains the answers of a report, or why it is a refusal, by what was read of the session and the level with the
/// most cuts to which the walk has come.
pub fn put_report<T: RandomSource + Threads + Wait + Sync>(
    out: &mut Text,
    rt: &T,
    alloc: Global,
    seen: Seen<'_>,
    widest: Widest,
    report: &Report,
) {
    match report {
        Report::Judged { answers, .. } => {
            let judged = Judged {
                width: seen.spec(alloc).map(|spec| spec.width()),
                takes_options: seen.options.is_some(),
                beyond_width: seen.options.is_some_and(|options| options.beyond_width),
                widest,
            };
            put_answers(out, rt, alloc, seen, judged, answers);
        }
        Report::Refused(refusal) => explain_refusal(out, alloc, seen, refusal),
    }
}

/// Says of the file of this name why it can't be opened or read, if that is noted. It gives whether it is.
fn put_unread(out: &mut Text, note: Option<&Note>, name: &str) -> bool {
    match note.and_then(|note| note.failure()) {
        Some(why) => {
            explain_file(out, name, why);
            true
        }
        None => false,
    }
}

/// Whether a file of this name is more likely a sign or a word of a predicate that stands in no quotes.
fn is_of_predicate(name: &str) -> bool {
    matches!(
        name,
        "==" | "!=" | "<=" | ">=" | "+" | "*" | "and" | "or" | "not"
    )
}

/// Says that a predicate stands in quotes, if one of these files is likely a part of one.
fn put_quotes(out: &mut Text, names: &[&str]) {
    for name in names {
        if is_of_predicate(name) {
            out.say(
                "What to do: put the predicate after --ask in quotes, as --ask 'a.x == 1'; without quotes each of its \
words is a file's name.\n",
            );
            return;
        }
    }
}

/// The same of the streams in the files of these names.
fn put_unread_streams<Y: System>(out: &mut Text, world: &World<'_, Y>, names: &[&str]) -> bool {
    let mut is_found = false;
    for (place, name) in names.iter().enumerate() {
        let said = put_unread(out, world.notes.stream(place), name);
        is_found = is_found || said;
    }
    if is_found {
        put_quotes(out, names);
    }
    is_found
}

/// Explains that the output couldn't be written, unless whoever reads it has ended, who wants no more.
fn put_output<Y: System>(out: &mut Text, world: &World<'_, Y>) {
    if world.files.output_is_read() {
        return;
    }
    explain_output(out);
}

/// Explains a fault of a run that reads a document, a report, if there is one, and streams.
pub fn put_fault<Y: System>(
    out: &mut Text,
    world: &World<'_, Y>,
    report: Option<&str>,
    spec: &str,
    streams: &[&str],
    fault: &EngineFault,
) {
    match fault {
        EngineFault::Memory => explain_memory(out),
        EngineFault::Write => put_output(out, world),
        EngineFault::BundleLong => explain_bundle_fault(out, true),
        EngineFault::Read => {
            let of_document = put_unread(out, world.notes.document(), spec);
            let of_report = match report {
                Some(report) => put_unread(out, world.notes.report(), report),
                None => false,
            };
            if put_unread_streams(out, world, streams) || of_document || of_report {
                return;
            }
            match report {
                Some(report) => explain_long_report(out, report),
                None => explain_no_file(out),
            }
        }
    }
}

/// Explains the answers of the report of files, or why it is a refusal, and how it meets the conditions, if there are
/// some; and then what can't be read of notes.
fn put_files_report<Y: System>(
    out: &mut Text,
    world: &World<'_, Y>,
    judgement: &Judgement<'_>,
    widest: Widest,
    report: &Report,
) {
    let names = &judgement.names;
    let Some(streams) = out.take_made(seen_streams(world.alloc, world.notes, &names.streams)) else {
        return;
    };
    let mut unread = Text::new(world.alloc);
    let notes = notes_of(&mut unread, world, names);
    let seen = Seen {
        document: seen_document(world.notes, names.spec),
        options: Some(&names.options),
        streams: &streams,
        order: "",
        notes: notes.as_ref(),
        run_limit: None,
    };
    put_report(out, world.rt, world.alloc, seen, widest, report);
    put_reasons(out, world.alloc, &judgement.fail_on, report);
    out.say_text(&unread);
}

/// What is read of the document in a session's file, with what is asked.
fn seen_alone<'a, Y: System>(world: &World<'a, Y>, names: &'a SessionNames<'a>) -> Seen<'a> {
    Seen {
        document: seen_document(world.notes, names.spec),
        options: Some(&names.options),
        streams: &[],
        order: "",
        notes: None,
        run_limit: None,
    }
}

/// Says which predicate a judgement of files names that isn't there.
fn put_unknown_named<Y: System>(out: &mut Text, world: &World<'_, Y>, judgement: &Judgement<'_>) {
    match seen_alone(world, &judgement.names).spec(world.alloc) {
        Some(spec) => put_unknown_condition(out, world.alloc, &spec, &judgement.fail_on),
        None => (),
    }
}

/// Says which predicate is to be drawn that isn't there.
fn put_undrawn<Y: System>(
    out: &mut Text,
    world: &World<'_, Y>,
    scope: &DrawOptions<'_>,
    names: &SessionNames<'_>,
) {
    match (seen_alone(world, names).spec(world.alloc), scope.predicate) {
        (Some(spec), Some(name)) => {
            explain_no_predicate(out, world.alloc, spec.predicates(), "--predicate", name);
        }
        _ => (),
    }
}

/// Explains how a judgement of files ended.
fn put_judgement<Y: System>(
    out: &mut Text,
    world: &World<'_, Y>,
    judgement: &Judgement<'_>,
    widest: Widest,
    end: &Result<Option<Report>, EngineFault>,
) {
    let names = &judgement.names;
    match end {
        Ok(Some(report)) => put_files_report(out, world, judgement, widest, report),
        Ok(None) => put_unknown_named(out, world, judgement),
        Err(fault) => put_fault(out, world, None, names.spec, &names.streams, fault),
    }
}

/// The explanation of how a judgement of files ended, as far as it could be made; empty if none is wanted.
pub fn judgement_text<Y: System>(
    world: &World<'_, Y>,
    judgement: &Judgement<'_>,
    widest: Widest,
    end: &Result<Option<Report>, EngineFault>,
) -> Vec<u8> {
    let mut out = Text::new(world.alloc);
    if world.explain {
        put_judgement(&mut out, world, judgement, widest, end);
    }
    rows_of(world.alloc, out)
}

/// The names of the files of streams, and then those of notes.
fn names_beside<'a>(
    alloc: Global,
    names: &SessionNames<'a>,
    page: &PageOptions<'a>,
) -> Result<Vec<&'a str>, AllocError> {
    let mut all = Vec::new(alloc);
    for name in names.streams.iter() {
        all.push(*name)?;
    }
    for name in page.notes.iter() {
        all.push(*name)?;
    }
    Ok(all)
}

/// Explains how a run that explores ended. What is read of notes is noted after what is of the streams.
fn put_exploration<Y: System>(
    out: &mut Text,
    world: &World<'_, Y>,
    judgement: &Judgement<'_>,
    page: &PageOptions<'_>,
    widest: Widest,
    end: &Result<Option<Report>, EngineFault>,
) {
    let names = &judgement.names;
    match end {
        Ok(None) => {
            put_unknown_named(out, world, judgement);
            match seen_alone(world, names).spec(world.alloc) {
                Some(spec) => put_unknown_wish(out, world.alloc, &spec, &page.wishes),
                None => (),
            }
        }
        Err(fault) => {
            let Some(all) = out.take_made(names_beside(world.alloc, names, page)) else {
                return;
            };
            put_fault(out, world, None, names.spec, &all, fault);
        }
        Ok(Some(report)) => put_files_report(out, world, judgement, widest, report),
    }
}

/// The explanation of how a run that explores ended, as far as it could be made; empty if none is wanted.
pub fn exploration_text<Y: System>(
    world: &World<'_, Y>,
    judgement: &Judgement<'_>,
    page: &PageOptions<'_>,
    widest: Widest,
    end: &Result<Option<Report>, EngineFault>,
) -> Vec<u8> {
    let mut out = Text::new(world.alloc);
    if world.explain {
        put_exploration(&mut out, world, judgement, page, widest, end);
    }
    rows_of(world.alloc, out)
}

/// Explains why the session in files is refused, with what was noted of its events; or the run of any length, whose
/// document may have this many processes.
fn put_noted_refusal<Y: System>(
    out: &mut Text,
    world: &World<'_, Y>,
    names: &SessionNames<'_>,
    notes: Option<&EventNotes>,
    run_limit: Option<usize>,
    refusal: &Refusal,
) {
    let Some(streams) = out.take_made(seen_streams(world.alloc, world.notes, &names.streams)) else {
        return;
    };
    let seen = Seen {
        document: seen_document(world.notes, names.spec),
        options: Some(&names.options),
        streams: &streams,
        order: "",
        notes,
        run_limit,
    };
    explain_refusal(out, world.alloc, seen, refusal);
}

/// Explains why the session in files is refused, and then what can't be read of notes.
fn put_refusal<Y: System>(
    out: &mut Text,
    world: &World<'_, Y>,
    names: &SessionNames<'_>,
    refusal: &Refusal,
) {
    let mut unread = Text::new(world.alloc);
    let notes = notes_of(&mut unread, world, names);
    put_noted_refusal(out, world, names, notes.as_ref(), None, refusal);
    out.say_text(&unread);
}

/// The explanation of the refusal of the run of any length in files, as far as it could be made. The document may have
/// this many processes.
pub fn run_refusal_text<Y: System>(
    world: &World<'_, Y>,
    names: &SessionNames<'_>,
    run_limit: usize,
    refusal: &Refusal,
) -> Vec<u8> {
    let mut out = Text::new(world.alloc);
    put_noted_refusal(&mut out, world, names, None, Some(run_limit), refusal);
    rows_of(world.alloc, out)
}

/// The explanation of the refusal of the session in files, as far as it could be made, whether one is wanted or not.
pub fn refusal_text<Y: System>(
    world: &World<'_, Y>,
    names: &SessionNames<'_>,
    refusal: &Refusal,
) -> Vec<u8> {
    let mut out = Text::new(world.alloc);
    put_refusal(&mut out, world, names, refusal);
    rows_of(world.alloc, out)
}

/// Explains the answers of the report of a bundle, or why it is a refusal, by its parts.
fn put_parts_report<Y: System>(
    out: &mut Text,
    world: &World<'_, Y>,
    document: Option<Source<'_>>,
    streams: &[SeenStream<'_>],
    widest: Widest,
    report: &Report,
) {
    let seen = Seen {
        document,
        options: None,
        streams,
        order: "Streams count in the order in which they stand in the bundle.\n",
        notes: None,
        run_limit: None,
    };
    put_report(out, world.rt, world.alloc, seen, widest, report);
}

/// The same by what was read of it.
fn put_bundle_report<Y: System>(
    out: &mut Text,
    world: &World<'_, Y>,
    widest: Widest,
    report: &Report,
) {
    let Some(bundle) = world.notes.document().and_then(|note| note.bytes()) else {
        put_parts_report(out, world, None, &[], widest, report);
        return;
    };
    let Some(parts) = out.take_made(parts_of(world.alloc, bundle)) else {
        return;
    };
    let Some(streams) = out.take_made(streams_of(world.alloc, &parts)) else {
        return;
    };
    put_parts_report(out, world, document_of(&parts), &streams, widest, report);
}

/// Explains how a judgement of a bundle ended.
fn put_bundle<Y: System>(
    out: &mut Text,
    world: &World<'_, Y>,
    widest: Widest,
    end: &Result<Report, EngineFault>,
) {
    match end {
        Ok(report) => put_bundle_report(out, world, widest, report),
        Err(EngineFault::Memory) => explain_memory(out),
        Err(EngineFault::Write) => put_output(out, world),
        Err(EngineFault::Read) => explain_bundle_fault(out, false),
        Err(EngineFault::BundleLong) => explain_bundle_fault(out, true),
    }
}

/// The explanation of how a judgement of a bundle ended, as far as it could be made; empty if none is wanted.
pub fn bundle_text<Y: System>(
    world: &World<'_, Y>,
    widest: Widest,
    end: &Result<Report, EngineFault>,
) -> Vec<u8> {
    let mut out = Text::new(world.alloc);
    if world.explain {
        put_bundle(&mut out, world, widest, end);
    }
    rows_of(world.alloc, out)
}

/// The bytes that were read of each of these streams; nothing, if those of one aren't known to its end.
fn stream_bytes<'a, Y: System>(
    world: &World<'a, Y>,
    count: usize,
) -> Result<Option<Vec<&'a [u8]>>, AllocError> {
    let notes = world.notes;
    let mut streams = Vec::new(world.alloc);
    for place in 0..count {
        match notes.stream(place) {
            Some(note) if note.failure().is_none() => match note.bytes() {
                Some(bytes) => streams.push(bytes)?,
                None => return Ok(None),
            },
            _ => return Ok(None),
        }
    }
    Ok(Some(streams))
}

/// Explains what a check found of this report, and then what can't be read of notes.
fn put_found<Y: System>(
    out: &mut Text,
    world: &World<'_, Y>,
    names: &SessionNames<'_>,
    claim: &Source<'_>,
    found: &[u8],
) {
    let mut unread = Text::new(world.alloc);
    let notes = notes_of(&mut unread, world, names);
    match (seen_alone(world, names).spec(world.alloc), notes.as_ref()) {
        (Some(spec), Some(notes)) => {
            let names = spec.names();
            explain_finding(out, claim, found, Some(NotedEvents { names, notes }));
        }
        _ => explain_finding(out, claim, found, None),
    }
    out.say_text(&unread);
}

/// Explains what is bad in a report, by a check of what was read.
fn put_finding<Y: System>(
    out: &mut Text,
    world: &World<'_, Y>,
    report: &str,
    names: &SessionNames<'_>,
) {
    let Some(streams) = out.take_made(stream_bytes(world, names.streams.len())) else {
        return;
    };
    let document = seen_document(world.notes, names.spec);
    let claim = seen_file(world.notes.report(), report);
    let (Some(streams), Some(document), Some(claim)) = (streams, document, claim) else {
        explain_unread_finding(out);
        return;
    };
    let found = check_seen(world, document.bytes, &names.options, claim.bytes, streams);
    put_found(out, world, names, &claim, &found);
}

/// Explains how a check ended.
fn put_check<Y: System>(
    out: &mut Text,
    world: &World<'_, Y>,
    report: &str,
    names: &SessionNames<'_>,
    end: &Result<bool, EngineFault>,
) {
    match end {
        Ok(true) => (),
        Ok(false) => put_finding(out, world, report, names),
        Err(fault) => put_fault(out, world, Some(report), names.spec, &names.streams, fault),
    }
}

/// The explanation of how a check ended, as far as it could be made; empty if none is wanted. What a check finds stands
/// on the output.
pub fn check_text<Y: System>(
    world: &World<'_, Y>,
    report: &str,
    names: &SessionNames<'_>,
    end: &Result<bool, EngineFault>,
) -> Vec<u8> {
    let mut out = Text::new(world.alloc);
    if world.explain {
        put_check(&mut out, world, report, names, end);
    }
    rows_of(world.alloc, out)
}

/// Explains that there is no evidence of the kind that is asked for.
fn explain_no_evidence(out: &mut Text) {
    out.say(
        "Evidence is the cut after `possibly yes` or the path after `definitely no`. The report has none of the kind \
that is asked for, of the predicate whose name is given, or of any if none is.\n\
What to do: leave --evidence out, or name a predicate whose answer has such evidence.\n",
    );
}

/// Says which of these files has too many bytes, of those of which it is noted what was read. It gives whether one has.
fn put_long_file<Y: System>(out: &mut Text, world: &World<'_, Y>, names: &[&str]) -> bool {
    for (place, name) in names.iter().enumerate() {
        let bytes = world.notes.stream(place).and_then(|note| note.bytes());
        if bytes.unwrap_or(b"").len() as u64 > STREAM_BYTE_LIMIT {
            out.say_name(name);
            out.say(" has too many bytes: a stream may have 16777216, and a report 268435456.\n");
            return true;
        }
    }
    false
}

/// Explains why no file of a picture can be read: which can't be opened or read, or else which has too many bytes.
fn put_undrawn_files<Y: System>(out: &mut Text, world: &World<'_, Y>, names: &SessionNames<'_>) {
    let of_document = put_unread(out, world.notes.document(), names.spec);
    if put_unread_streams(out, world, &names.streams) || of_document {
        return;
    }
    if put_long_file(out, world, &names.streams) {
        return;
    }
    out.say(
        "One of the files has too many bytes: a report may have 268435456, and a stream that is drawn without a \
report 16777216.\n",
    );
}

/// Says which of the streams of a picture is a report, if one is. It gives whether that is so.
fn put_report_as_stream<Y: System>(out: &mut Text, world: &World<'_, Y>, names: &[&str]) -> bool {
    for (place, name) in names.iter().enumerate() {
        let bytes = world.notes.stream(place).and_then(|note| note.bytes());
        let line = line_at(bytes.unwrap_or(b""), 1);
        if line.starts_with(b"session ") || line.starts_with(b"refused ") {
            out.say_name(name);
            out.say(
                " stands in the place of a stream, and is a report by its first line.\n\
What to do: give the report first, and after it as many streams as the document has processes; or leave it out, and \
give the streams alone.\n",
            );
            return true;
        }
    }
    false
}

/// Explains why the session that is to be drawn is refused.
fn put_refused_drawing<Y: System>(
    out: &mut Text,
    world: &World<'_, Y>,
    names: &SessionNames<'_>,
    notes: Option<&EventNotes>,
    refusal: &Refusal,
) {
    if put_report_as_stream(out, world, &names.streams) {
        return;
    }
    put_noted_refusal(out, world, names, notes, None, refusal);
}

/// Explains how a run that draws ended. The report that is due is there if it was drawn.
fn put_drawing<Y: System>(
    out: &mut Text,
    world: &World<'_, Y>,
    due: Option<&Report>,
    scope: &DrawOptions<'_>,
    names: &SessionNames<'_>,
    notes: Option<&EventNotes>,
    end: &Result<DrawOutcome, EngineFault>,
) {
    match (end, due) {
        (Ok(DrawOutcome::NoPredicate), _) => put_undrawn(out, world, scope, names),
        (Ok(DrawOutcome::NoEvidence), _) => {
            explain_no_evidence(out);
        }
        (Ok(DrawOutcome::Refused(_)), Some(Report::Refused(refusal))) => {
            put_refused_drawing(out, world, names, notes, refusal);
        }
        (Ok(DrawOutcome::Refused(_)), _) => explain_no_picture(out),
        (Ok(DrawOutcome::Written | DrawOutcome::CycleWritten), _) => (),
        (Err(EngineFault::Read), _) => put_undrawn_files(out, world, names),
        (Err(fault), _) => put_fault(out, world, None, names.spec, &names.streams, fault),
    }
}

/// Explains how a run that draws ended, and then what can't be read of notes, if they were read.
fn put_noted_drawing<Y: System>(
    out: &mut Text,
    world: &World<'_, Y>,
    due: Option<&Report>,
    scope: &DrawOptions<'_>,
    names: &SessionNames<'_>,
    noted: &Result<DrawnNotes, AllocError>,
    end: &Result<DrawOutcome, EngineFault>,
) {
    match noted {
        Ok(noted) => {
            put_drawing(out, world, due, scope, names, Some(&noted.notes), end);
            out.say_text(&noted.unread);
        }
        Err(_) => put_drawing(out, world, due, scope, names, None, end),
    }
}

/// The explanation of how a run that draws ended, as far as it could be made; empty if none is wanted. The report that
/// is due is there if it was drawn. What a check finds that stands against a picture is reported anyway.
pub fn drawing_text<Y: System>(
    world: &World<'_, Y>,
    due: Option<&Report>,
    scope: &DrawOptions<'_>,
    names: &SessionNames<'_>,
    noted: &Result<DrawnNotes, AllocError>,
    end: &Result<DrawOutcome, EngineFault>,
) -> Vec<u8> {
    let mut out = Text::new(world.alloc);
    if world.explain {
        put_noted_drawing(&mut out, world, due, scope, names, noted, end);
    }
    rows_of(world.alloc, out)
}
