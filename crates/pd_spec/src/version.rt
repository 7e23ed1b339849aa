//! The version that a document says.
ghost use Rattle.std.specs.Prelude.{◌≡◌, option_map};
ghost use Rattle.serde_json.specs.View.{view};
ghost use Rattle.def_format.specs.Documents.{numbered_version, version_of};
ghost use Rattle.def_format.specs.Versions.{version_view};

use def_format::Version;
use serde_json::Value;

fn numbered(number: i64) -> Option<Version>
    ensures { option_map version_view result ≡ numbered_version number }
{
    match number {
        1 => Some(Version::One),
        2 => Some(Version::Two),
        _ => None,
    }
}

/// The version that the field `version` says, if it says one.
pub(crate) fn version_of(version: Option<&Value>) -> Option<Version>
    ensures { option_map version_view result ≡ version_of (option_map (λ value. view value.now) version.entry) }
{
    match version {
        None => Some(Version::One),
        Some(value) => numbered(value.as_i64()?),
    }
}
