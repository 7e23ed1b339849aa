//! The page of a run that is a bundle.
ghost use Rattle.def_format.specs.Limits.{worker_limit};
ghost use Rattle.def_judgement.specs.Writes.{Source};
ghost use Rattle.judge_bundle_pages.specs.BundlePages.{IsPageOfBundle};
ghost use Rattle.judge_bundle_pages.specs.Parts.{HoldsParts};
ghost use Rattle.judge_explore.specs.Forms.{form_view};
ghost use Rattle.pd_spec.specs.Views.{options_view};
ghost use Rattle.std.specs.Prelude.{◌≤◌, IfOk};

use super::files::{stream_files, stream_names, stream_sources};
use super::parts::Parts;
use judge_explore::{Form, Page, explore};
use judge_session::{EngineFault, Unanswered};
use pd_engine::{Gate, Inquiry};
use pd_spec::Options;
use std::alloc::Global;
use std::random::RandomSource;
use std::sync::Wait;
use std::thread::Threads;

/// What is made in this form of the parts of the bundle of this name, with what is asked beside its document: its
/// streams are explored as files are. The workers, from 1 to 16, and the gate change how long it takes, and nothing of
/// the page.
///
/// # Errors
/// `Read`, if the session is refused, and `Memory`.
pub fn parts_page<S: RandomSource + Threads + Wait + Sync, G: Gate + Sync>(
    rt: &S,
    alloc: Global,
    options: &Options<'_>,
    form: Form<'_, '_>,
    name: &str,
    parts: &Parts,
    workers: u64,
    gate: &G,
) -> Result<Vec<u8>, EngineFault>
    requires some_workers { 1 ≤ workers }
    requires few_workers { workers ≤ worker_limit }
    ensures { IfOk result (λ text. (input : Source) → HoldsParts input parts.now
        → IsPageOfBundle (options_view options.now) (form_view form.entry) name.now input text.items) }
{
    let names = stream_names(alloc, name, parts.streams.len())?;
    let files = stream_files(alloc, &names, &parts.streams)?;
    let sources = stream_sources(alloc, &parts.streams)?;
    let inquiry = Inquiry {
        document: &parts.document,
        options,
    };
    match explore(rt, alloc, inquiry, form, &files, sources, workers, gate) {
        Ok(page) => {
            let Page { text, report: _ } = page;
            Ok(text)
        }
        Err(Unanswered::Memory) => Err(EngineFault::Memory),
        Err(Unanswered::Refused(_)) => Err(EngineFault::Read),
    }
}
