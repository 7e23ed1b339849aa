//! Processes, variables, events and messages.
ghost use Rattle.def_format.specs.Names.{ProcessNames};
ghost use Rattle.pd_match.specs.Views.{pairs_view, place_view};
ghost use Rattle.def_model.specs.Events.{Event as Happened};
ghost use Rattle.out_page.specs.EventData.{event_text, events_text, kind_text, message_text, place_text, process_text, setting_text, value_text};
ghost use Rattle.out_page.specs.JsonTexts.{array, comma_after, listed};
ghost use Rattle.read_traces.specs.Columns.{seen_kind_view};
ghost use Rattle.read_traces.specs.Views.{computation_view};
ghost use Rattle.std.specs.Prelude.{◌≡◌, ◌<◌, ◌++◌, codes, flat_map, length, map, slice_get, OnOk, Some};

use super::json_texts::{push_index, push_names, push_quoted, push_signed};
use pd_match::Place;
use pd_pred::Names;
use pd_report::{push_bytes, push_number};
use read_traces::{Events, Kind, Settings, Trace};
use std::alloc::AllocError;

/// Appends a comma if this many things, which aren't none, stand before.
fn push_comma_after(out: &mut Vec<u8>, before: usize) -> Result<(), AllocError>
    ensures { OnOk result (out.new.items ≡ out.old.items ++ comma_after before) }
{
    if before == 0 {
        return Ok(());
    }
    push_bytes(out, b",")
}

/// Appends the name of process `p`, which is counted from 0, and the names of its variables.
fn push_process(out: &mut Vec<u8>, names: &Names, p: usize) -> Result<(), AllocError>
    requires { p < length names.now }
    ensures { OnOk result ((process : ProcessNames) → slice_get names.now p ≡ Some process
        → out.new.items ≡ out.old.items ++ process_text process) }
{
    push_bytes(out, b"{\"name\":")?;
    push_quoted(out, names.name(p).as_bytes())?;
    push_bytes(out, b",\"vars\":[")?;
    push_names(out, names.vars(p))?;
    push_bytes(out, b"]}")?;
    Ok(())
}

/// Appends process `p`, after a comma if others stand before it.
fn push_next_process(out: &mut Vec<u8>, names: &Names, p: usize) -> Result<(), AllocError>
    requires { p < length names.now }
    ensures { OnOk result ((process : ProcessNames) → slice_get names.now p ≡ Some process
        → out.new.items ≡ out.old.items ++ (comma_after p ++ process_text process)) }
{
    push_comma_after(out, p)?;
    push_process(out, names, p)?;
    Ok(())
}

/// Appends the processes with a comma between each two.
pub(crate) fn push_processes(out: &mut Vec<u8>, names: &Names) -> Result<(), AllocError>
    ensures { OnOk result (out.new.items ≡ out.old.items ++ listed process_text names.now) }
{
    for p in 0..names.processes() {
        push_next_process(out, names, p)?;
    }
    Ok(())
}

/// Appends the value of a variable.
fn push_value(out: &mut Vec<u8>, value: i64) -> Result<(), AllocError>
    ensures { OnOk result (out.new.items ≡ out.old.items ++ value_text value) }
{
    push_bytes(out, b"\"")?;
    push_signed(out, value)?;
    push_bytes(out, b"\"")
}

/// The value at this index.
fn value_in(values: &[i64], i: usize) -> i64
    requires { i < length values.now }
    ensures { slice_get values.now i ≡ Some result }
{
    values[i]
}

/// Appends a value, after a comma if this many others, which aren't none, stand before it.
fn push_next_value(out: &mut Vec<u8>, before: usize, value: i64) -> Result<(), AllocError>
    ensures { OnOk result (out.new.items ≡ out.old.items ++ (comma_after before ++ value_text value)) }
{
    push_comma_after(out, before)?;
    push_value(out, value)?;
    Ok(())
}

/// Appends values with a comma between each two.
fn push_listed_values(out: &mut Vec<u8>, values: &[i64]) -> Result<(), AllocError>
    ensures { OnOk result (out.new.items ≡ out.old.items ++ listed value_text values.now) }
{
    for i in 0..values.len() {
        push_next_value(out, i, value_in(values, i))?;
    }
    Ok(())
}

/// Appends the values of a process's variables.
fn push_values(out: &mut Vec<u8>, values: &[i64]) -> Result<(), AllocError>
    ensures { OnOk result (out.new.items ≡ out.old.items ++ array value_text values.now) }
{
    push_bytes(out, b"[")?;
    push_listed_values(out, values)?;
    push_bytes(out, b"]")
}

/// Appends the values of a process's variables, which stand in a row.
fn push_row(out: &mut Vec<u8>, row: &Vec<i64>) -> Result<(), AllocError>
    ensures { OnOk result (out.new.items ≡ out.old.items ++ array value_text row.now.items) }
{
    push_values(out, row)
}

/// Appends the values of each process's variables, with a comma between each two processes.
pub(crate) fn push_rows(out: &mut Vec<u8>, rows: &[Vec<i64>]) -> Result<(), AllocError>
    ensures { OnOk result (out.new.items ≡ out.old.items
        ++ listed (array value_text) (map (λ row. row.items) rows.now)) }
{
    let Some((first, others)) = rows.split_first() else {
        return Ok(());
    };
    push_row(out, first)?;
    for row in others {
        push_bytes(out, b",")?;
        push_row(out, row)?;
    }
    Ok(())
}

/// Appends what an event does.
fn push_kind(out: &mut Vec<u8>, kind: Kind<'_>) -> Result<(), AllocError>
    ensures { OnOk result (out.new.items ≡ out.old.items ++ kind_text (seen_kind_view kind.entry)) }
{
    match kind {
        Kind::Local => push_bytes(out, b"0"),
        Kind::Send(id) => push_quoted(out, id),
        Kind::Recv(_) => push_bytes(out, b"1"),
    }
}

/// Appends a variable that an event sets, and its value.
fn push_setting(out: &mut Vec<u8>, setting: (usize, i64)) -> Result<(), AllocError>
    ensures { OnOk result (out.new.items ≡ out.old.items ++ setting_text setting) }
{
    push_bytes(out, b",")?;
    push_index(out, setting.0)?;
    push_bytes(out, b",")?;
    push_value(out, setting.1)
}

/// Appends what an event sets.
fn push_settings(out: &mut Vec<u8>, settings: &Settings<'_>) -> Result<(), AllocError>
    ensures { OnOk result (out.new.items ≡ out.old.items ++ flat_map setting_text settings.now) }
{
    for i in 0..settings.len() {
        push_setting(out, settings.get(i))?;
    }
    Ok(())
}

/// Appends the event at this index, which is counted from 0.
fn push_event(out: &mut Vec<u8>, events: &Events, k: usize) -> Result<(), AllocError>
    requires { k < length events.now }
    ensures { OnOk result ((event : Happened) → slice_get events.now k ≡ Some event
        → out.new.items ≡ out.old.items ++ event_text event) }
{
    push_bytes(out, b"[")?;
    push_kind(out, events.kind(k))?;
    push_settings(out, &events.settings(k))?;
    push_bytes(out, b"]")?;
    Ok(())
}

/// Appends the event at this index after a comma.
fn push_next_event(out: &mut Vec<u8>, events: &Events, k: usize) -> Result<(), AllocError>
    requires { k < length events.now }
    ensures { OnOk result ((event : Happened) → slice_get events.now k ≡ Some event
        → out.new.items ≡ out.old.items ++ (codes "," ++ event_text event)) }
{
    push_bytes(out, b",")?;
    push_event(out, events, k)?;
    Ok(())
}

/// Appends events, each after a comma.
fn push_each_event(out: &mut Vec<u8>, events: &Events) -> Result<(), AllocError>
    ensures { OnOk result (out.new.items ≡ out.old.items
        ++ flat_map (λ event. codes "," ++ event_text event) events.now) }
{
    for k in 0..events.len() {
        push_next_event(out, events, k)?;
    }
    Ok(())
}

/// Appends the events of a process.
fn push_events(out: &mut Vec<u8>, events: &Events) -> Result<(), AllocError>
    ensures { OnOk result (out.new.items ≡ out.old.items ++ events_text events.now) }
{
    push_bytes(out, b"[0")?;
    push_each_event(out, events)?;
    push_bytes(out, b"]")
}

/// Appends the events of a trace.
fn push_trace(out: &mut Vec<u8>, trace: &Trace) -> Result<(), AllocError>
    ensures { OnOk result (out.new.items ≡ out.old.items ++ events_text trace.now.events) }
{
    push_events(out, &trace.events)
}

/// Appends the events of each process, with a comma between each two processes.
pub(crate) fn push_traces(out: &mut Vec<u8>, traces: &[Trace]) -> Result<(), AllocError>
    ensures { OnOk result (out.new.items ≡ out.old.items ++ listed events_text (computation_view traces.now)) }
{
    let Some((first, others)) = traces.split_first() else {
        return Ok(());
    };
    push_trace(out, first)?;
    for trace in others {
        push_bytes(out, b",")?;
        push_trace(out, trace)?;
    }
    Ok(())
}

/// Appends the process and the number of an event.
fn push_place(out: &mut Vec<u8>, place: Place) -> Result<(), AllocError>
    ensures { OnOk result (out.new.items ≡ out.old.items ++ place_text (place_view place)) }
{
    push_index(out, place.process)?;
    push_bytes(out, b",")?;
    push_number(out, place.number)
}

/// Appends a message, by its send and its receipt.
fn push_message(out: &mut Vec<u8>, pair: &(Place, Place)) -> Result<(), AllocError>
    ensures { OnOk result (out.new.items ≡ out.old.items
        ++ message_text (place_view pair.now.0, place_view pair.now.1)) }
{
    push_bytes(out, b"[")?;
    push_place(out, pair.0)?;
    push_bytes(out, b",")?;
    push_place(out, pair.1)?;
    push_bytes(out, b"]")
}

/// Appends messages with a comma between each two.
pub(crate) fn push_messages(out: &mut Vec<u8>, pairs: &[(Place, Place)]) -> Result<(), AllocError>
    ensures { OnOk result (out.new.items ≡ out.old.items ++ listed message_text (pairs_view pairs.now)) }
{
    let Some((first, others)) = pairs.split_first() else {
        return Ok(());
    };
    push_message(out, first)?;
    for pair in others {
        push_bytes(out, b",")?;
        push_message(out, pair)?;
    }
    Ok(())
}
