//! The files in which events were recorded.
ghost use Rattle.out_page.specs.JsonTexts.{listed};
ghost use Rattle.out_page.specs.SourceData.{source_text};
ghost use Rattle.out_page.specs.Views.{source_view, sources_view};
ghost use Rattle.std.specs.Prelude.{◌≡◌, ◌++◌, OnOk};

use super::Source;
use super::answer_data::push_counts;
use super::json_texts::push_quoted;
use pd_report::push_bytes;
use std::alloc::AllocError;

/// Appends where the events of a process were recorded.
fn push_source(out: &mut Vec<u8>, source: &Source<'_>) -> Result<(), AllocError>
    ensures { OnOk result (out.new.items ≡ out.old.items ++ source_text (source_view source.now)) }
{
    push_bytes(out, b"[")?;
    push_quoted(out, source.name.as_bytes())?;
    push_bytes(out, b",[")?;
    push_counts(out, &source.lines)?;
    push_bytes(out, b"]]")?;
    Ok(())
}

/// Appends where the events of each process were recorded, with a comma between each two processes.
pub(crate) fn push_sources(out: &mut Vec<u8>, sources: &[Source<'_>]) -> Result<(), AllocError>
    ensures { OnOk result (out.new.items ≡ out.old.items ++ listed source_text (sources_view sources.now)) }
{
    let Some((first, others)) = sources.split_first() else {
        return Ok(());
    };
    push_source(out, first)?;
    for source in others {
        push_bytes(out, b",")?;
        push_source(out, source)?;
    }
    Ok(())
}
