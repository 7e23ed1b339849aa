//! Which runs are bundles, by their names.
ghost use Rattle.judge_bundles.specs.BundleRuns.{IsBundleName};
ghost use Rattle.std.specs.Bool.{OnFalse, OnTrue};

/// Whether the run of this name is a bundle, in the file of this name: its name ends in `.bundle`.
pub fn is_bundle_name(name: &str) -> bool
    ensures yes { OnTrue result (IsBundleName name.now) }
    ensures no { OnFalse result (¬ IsBundleName name.now) }
{
    name.ends_with(".bundle")
}
