//! What is made of a recorded run that is a bundle: its page, or the object of its report.
ghost use Rattle.app_explore.specs.Explorations.{Asked, IsFormOf};
ghost use Rattle.app_host.specs.FileSources.{bytes_in};
ghost use Rattle.app_results.specs.RunPages.{IsMadeOfFile};
ghost use Rattle.judge_explore.specs.Forms.{form_view};
ghost use Rattle.pd_spec.specs.Views.{options_view};
ghost use Rattle.std.specs.Prelude.{IfOk};

use super::run_page::can_be_reread;
use app_arguments::Test;
use app_host::{System, World, is_out_of_memory, open_noted};
use judge_bundle_pages::{parts_page, read_parts};
use judge_explore::Form;
use judge_runs::first_unnamed;
use judge_session::EngineFault;
use pd_engine::Gate;
use pd_spec::Spec;

/// Whether a document, with what is asked, isn't refused, and has each predicate that is wished for.
///
/// # Errors
/// `Memory`.
fn has_wished<Y: System>(
    world: &World<'_, Y>,
    document: &[u8],
    test: &Test<'_>,
) -> Result<bool, EngineFault> {
    match Spec::read_with_options(world.alloc, document, &test.options) {
        Ok(spec) => Ok(first_unnamed(&test.wishes, spec.predicates()).is_none()),
        Err(fault) if is_out_of_memory(&fault) => Err(EngineFault::Memory),
        Err(_) => Ok(false),
    }
}

/// What is made in this form of the run that is the bundle in the file of this name, with what is asked of it; the file
/// is read once more.
///
/// # Errors
/// `Read`, if the file can't be opened or read, or the bundle is too long, or its session is refused or lacks a
/// predicate that is wished for, and `Memory`.
pub(crate) fn bundle_text<Y: System, G: Gate + Sync>(
    world: &World<'_, Y>,
    name: &str,
    test: &Test<'_>,
    form: Form<'_, '_>,
    gate: &G,
) -> Result<Vec<u8>, EngineFault>
    ensures { (asked : Asked) → IsFormOf (bytes_in (Y.Files.file_of world.now.files.now)) asked (form_view form.entry)
        → IfOk result (λ text. IsMadeOfFile (Y.Files.file_of world.now.files.now) (options_view test.now.options)
        asked name.now text.items) }
{
    let alloc = world.alloc;
    if !can_be_reread(world, &[name]) {
        return Err(EngineFault::Read);
    }
    let file = open_noted(alloc, world.files, name, None)?;
    let Some(parts) = read_parts(alloc, file)? else {
        return Err(EngineFault::Read);
    };
    if !has_wished(world, &parts.document, test)? {
        return Err(EngineFault::Read);
    }
    let workers = test.workers.count();
    parts_page(
        world.rt,
        alloc,
        &test.options,
        form,
        name,
        &parts,
        workers,
        gate,
    )
}
