//! Streams that are too many to be read.
ghost use Rattle.def_format.specs.Limits.{stream_count_limit};
ghost use Rattle.std.specs.Prelude.{◌≡◌, ◌<◌, ◌≤◌, [], MatchOption};

use super::gathered::Gathered;
use def_format::STREAM_COUNT_LIMIT;
use std::alloc::Global;

/// What this many streams give if they are too many: their number alone, since none of them is read.
pub(super) fn unread_streams(alloc: Global, count: usize) -> Option<Gathered>
    ensures { MatchOption result (count ≤ stream_count_limit) (λ gathered. (stream_count_limit < count)
        × (gathered.streams ≡ count) × (gathered.readings.items ≡ [])) }
{
    if count <= STREAM_COUNT_LIMIT {
        return None;
    }
    Some(Gathered {
        streams: count as u64,
        readings: Vec::new(alloc),
    })
}
