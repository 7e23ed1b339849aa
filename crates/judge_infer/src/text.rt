//! The text of the first document.
ghost use Rattle.judge_infer.specs.DocumentParts.{first_document, is_copied, predicates_text, process_text, processes_text, var_text, vars_text, version_text};
ghost use Rattle.judge_infer.specs.Views.{process_view};
ghost use Rattle.std.specs.Prelude.{◌≡◌, ◌++◌, IfOk, OnOk, codes, flat_map, map, string_bytes};

use super::process::Process;
use super::twice::has_twice;
use pd_report::push_bytes;
use std::alloc::{AllocError, Global};

/// Appends a variable with the initial value 0.
fn push_var(out: &mut Vec<u8>, var: &str) -> Result<(), AllocError>
    ensures { OnOk result (out.new.items ≡ out.old.items ++ var_text var.now) }
{
    push_bytes(out, b"\"")?;
    push_bytes(out, var.as_bytes())?;
    push_bytes(out, b"\":0")?;
    Ok(())
}

/// Appends variables with a comma between each two.
#[tactic(auto, unfolding(crate::specs::DocumentParts::vars_text))]
fn push_vars(out: &mut Vec<u8>, vars: &[String]) -> Result<(), AllocError>
    ensures { OnOk result (out.new.items ≡ out.old.items ++ vars_text (map string_bytes vars.now)) }
{
    let Some((first, more)) = vars.split_first() else {
        return Ok(());
    };
    push_var(out, first.as_str())?;
    for var in more {
        push_bytes(out, b",")?;
        push_var(out, var.as_str())?;
    }
    Ok(())
}

/// Appends a process with its variables.
#[tactic(auto, unfolding(crate::specs::DocumentParts::process_text))]
fn push_process(out: &mut Vec<u8>, process: &Process) -> Result<(), AllocError>
    ensures { OnOk result (out.new.items ≡ out.old.items ++ process_text (process_view process.now)) }
{
    push_bytes(out, b"{\"name\":\"")?;
    push_bytes(out, process.name.as_bytes())?;
    push_bytes(out, b"\",\"vars\":{")?;
    push_vars(out, &process.vars)?;
    push_bytes(out, b"}}")?;
    Ok(())
}

/// Appends processes, each on a line of its own.
#[tactic(auto, unfolding(crate::specs::DocumentParts::processes_text))]
fn push_processes(out: &mut Vec<u8>, processes: &[Process]) -> Result<(), AllocError>
    ensures { OnOk result (out.new.items ≡ out.old.items ++ processes_text (map process_view processes.now)) }
{
    let Some((first, more)) = processes.split_first() else {
        return Ok(());
    };
    push_process(out, first)?;
    for process in more {
        push_bytes(out, b",\n  ")?;
        push_process(out, process)?;
    }
    Ok(())
}

/// Appends the ids that a process receives.
fn push_received<'a>(ids: &mut Vec<&'a str>, received: &'a [String]) -> Result<(), AllocError>
    ensures { OnOk result (map (λ id. id.now) ids.new.items
        ≡ map (λ id. id.now) ids.old.items ++ map string_bytes received.now) }
{
    for id in received {
        ids.push(id.as_str())?;
    }
    Ok(())
}

/// Whether some message is received more than once in all.
fn is_copied(alloc: Global, processes: &[Process]) -> Result<bool, AllocError>
    ensures { IfOk result (λ copied. copied ≡ is_copied (map process_view processes.now)) }
{
    let mut ids = Vec::new(alloc);
    for process in processes {
        push_received(&mut ids, &process.received)?;
    }
    has_twice(alloc, &ids)
}

/// Appends the field of the predicates: one that never holds.
fn push_predicates(out: &mut Vec<u8>) -> Result<(), AllocError>
    ensures { OnOk result (out.new.items ≡ out.old.items ++ predicates_text) }
{
    push_bytes(
        out,
        b"\"predicates\":[\n  {\"name\":\"replace_this\",\"text\":\"false\"}]",
    )
}

/// Appends the field of version 2, if a message is received more than once.
fn push_version(out: &mut Vec<u8>, copied: bool) -> Result<(), AllocError>
    ensures { OnOk result (out.new.items ≡ out.old.items ++ version_text copied) }
{
    if copied {
        push_bytes(out, b",\n \"version\":2")?;
    }
    Ok(())
}

/// The text of the first document of processes.
///
/// # Errors
/// Out of memory.
#[tactic(auto, unfolding(crate::specs::DocumentParts::first_document))]
pub(crate) fn first_document(alloc: Global, processes: &[Process]) -> Result<Vec<u8>, AllocError>
    ensures { IfOk result (λ text. text.items ≡ first_document (map process_view processes.now)) }
{
    let copied = is_copied(alloc, processes)?;
    let mut out = Vec::new(alloc);
    push_bytes(&mut out, b"{\"processes\":[\n  ")?;
    push_processes(&mut out, processes)?;
    push_bytes(&mut out, b"],\n ")?;
    push_predicates(&mut out)?;
    push_version(&mut out, copied)?;
    push_bytes(&mut out, b"}\n")?;
    Ok(out)
}
