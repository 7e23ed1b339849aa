//! Writes what is shown of the streams of a session while they are read.
ghost use Rattle.judge_session.specs.Ends.{call_end};
ghost use Rattle.def_format.specs.Lines.{line_feed};
ghost use Rattle.def_format.specs.OtherTexts.{name_or_dash, row_line, snapshot_text, state_word};
ghost use Rattle.def_format.specs.Reports.{spaced};
ghost use Rattle.def_judgement.specs.Writes.{Writes};
ghost use Rattle.pd_register.specs.Views.{row_state_view, row_view, rows_view};
ghost use Rattle.pd_spec.specs.Views.{document_view};
ghost use Rattle.std.specs.Prelude.{◌≡◌, ◌∷◌, ◌++◌, ◌⊎◌, [], IfErr, IfOk, OnOk, codes, decimal};

use super::EngineFault;
use pd_pred::Names;
use pd_register::{Row, RowState, Snapshot};
use pd_report::{push_bytes, push_number, write_all};
use pd_spec::Spec;
use std::alloc::{AllocError, Global};
use std::io::Write;

/// The word for where a stream stands.
fn word(state: RowState) -> &'static [u8]
    ensures { result.now ≡ state_word (row_state_view state) }
{
    match state {
        RowState::Fresh => b"fresh",
        RowState::Joined => b"joined",
        RowState::Ended => b"ended",
        RowState::Faulted => b"faulted",
    }
}

/// The process's name, and `-` for none and for one that the document doesn't have.
fn name_of(names: &Names, process: Option<usize>) -> &[u8]
    ensures { result.now ≡ name_or_dash names.now process }
{
    match process {
        Some(p) => name_at(names, p),
        None => b"-",
    }
}

/// The name of this process, and `-` for one that the document doesn't have.
fn name_at(names: &Names, process: usize) -> &[u8]
    ensures { result.now ≡ name_or_dash names.now (Some process) }
{
    if process < names.processes() {
        names.name(process).as_bytes()
    } else {
        b"-"
    }
}

/// Appends the words of a stream's line.
fn push_words(
    out: &mut Vec<u8>,
    stream: u64,
    name: &[u8],
    events: u64,
    state: &[u8],
) -> Result<(), AllocError>
    ensures { OnOk result (out.new.items ≡ out.old.items ++ spaced (codes "stream" ∷ decimal stream ∷ codes "process"
        ∷ name.now ∷ codes "events" ∷ decimal events ∷ state.now ∷ [])) }
{
    push_bytes(out, b"stream ")?;
    push_number(out, stream)?;
    push_bytes(out, b" process ")?;
    push_bytes(out, name)?;
    push_bytes(out, b" events ")?;
    push_number(out, events)?;
    push_bytes(out, b" ")?;
    push_bytes(out, state)
}

/// Appends the line of a stream, which is counted from 1.
fn push_row(out: &mut Vec<u8>, names: &Names, stream: u64, row: &Row) -> Result<(), AllocError>
    ensures { OnOk result (out.new.items ≡ out.old.items
        ++ (row_line names.now stream (row_view row.now) ++ line_feed ∷ [])) }
{
    let name = name_of(names, row.process);
    push_words(out, stream, name, row.events, word(row.state))?;
    push_bytes(out, b"\n")
}

/// Appends the lines of rows, whose streams are counted from 1.
fn push_rows(out: &mut Vec<u8>, names: &Names, rows: &[Row]) -> Result<(), AllocError>
    ensures { OnOk result (out.new.items ≡ out.old.items ++ snapshot_text names.now (rows_view rows.now)) }
{
    for i in 0..rows.len() {
        push_row(out, names, i as u64 + 1, &rows[i])?;
    }
    Ok(())
}

/// The text of rows.
fn text(alloc: Global, names: &Names, rows: &[Row]) -> Result<Vec<u8>, AllocError>
    ensures { IfOk result (λ text. text.items ≡ snapshot_text names.now (rows_view rows.now)) }
{
    let mut out = Vec::new(alloc);
    push_rows(&mut out, names, rows)?;
    Ok(out)
}

/// Writes a snapshot of the register of a session with this document: a line for each stream, in their order, ended by
/// an LF, with its number from 1, its process's name, its number of events and where it stands. It doesn't flush the
/// writer.
///
/// # Errors
/// `Memory` leaves nothing written. `Write` leaves a prefix of the text written, and not all of it.
pub fn write_snapshot<W: Write>(
    alloc: Global,
    spec: &Spec,
    snapshot: &Snapshot,
    writer: &mut W,
) -> Result<(), EngineFault>
    ensures written { Writes (λ text. text ≡ snapshot_text (document_view spec.now).names
        (rows_view snapshot.now.rows.items)) (call_end result) (W.contents writer.old) (W.contents writer.new) }
    ensures err { IfErr result (λ fault. (fault ≡ EngineFault.Memory) ⊎ (fault ≡ EngineFault.Write)) }
{
    let text = text(alloc, spec.names(), &snapshot.rows)?;
    write_all(&text, writer)?;
    Ok(())
}
