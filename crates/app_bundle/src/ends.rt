//! An explanation of how a bundling of runs ended.
use app_ends::put_fault;
use app_host::{System, World};
use app_text::{Text, rows_of};
use judge_session::EngineFault;

/// Explains how a bundling ended.
fn put_bundled<Y: System>(out: &mut Text, world: &World<'_, Y>, end: &Result<bool, EngineFault>) {
    match end {
        Ok(true) => (),
        Ok(false) => out.say(
            "What to do: the lines with an `error` name the files. A run is a folder with session.json and, for each \
process NAME of that, NAME.stream. Bundles aren't bundled: `monitor batch --bundles` judges what `cat` writes of them \
with a line `===` between each two.\n",
        ),
        Err(fault) => put_fault(out, world, None, "", &[], fault),
    }
}

/// The explanation of how a bundling ended, as far as it could be made; empty if none is wanted.
pub fn bundle_runs_text<Y: System>(
    world: &World<'_, Y>,
    end: &Result<bool, EngineFault>,
) -> Vec<u8> {
    let mut out = Text::new(world.alloc);
    if world.explain {
        put_bundled(&mut out, world, end);
    }
    rows_of(world.alloc, out)
}
