//! An explanation of how a batch ended.
use app_ends::put_fault;
use app_host::{System, World};
use app_text::{Text, rows_of};
use judge_runs::Conclusion;
use judge_session::EngineFault;

/// Explains how a batch ended.
fn put_batch<Y: System>(
    out: &mut Text,
    world: &World<'_, Y>,
    end: &Result<Conclusion, EngineFault>,
) {
    match end {
        Ok(Conclusion::AllPass) => (),
        Ok(Conclusion::SomeFails | Conclusion::SomeNotJudged) => out.say(
            "What to do: look at the lines whose `status` isn't 0, or that have an `error`. `monitor merge` names \
their sessions, and `monitor judge --explain --beyond-width RUN/session.json RUN/*.stream` explains the run in a \
folder. Bundles with a line === between each two are read by `monitor batch --bundles`.\n",
        ),
        Err(fault) => put_fault(out, world, None, "", &[], fault),
    }
}

/// The explanation of how a batch ended, as far as it could be made; empty if none is wanted.
pub fn batch_text<Y: System>(
    world: &World<'_, Y>,
    end: &Result<Conclusion, EngineFault>,
) -> Vec<u8> {
    let mut out = Text::new(world.alloc);
    if world.explain {
        put_batch(&mut out, world, end);
    }
    rows_of(world.alloc, out)
}
