//! Sessions, and the traces of their streams.
ghost use Rattle.read_traces.specs.SessionTraces.{AreTraces};
ghost use Rattle.def_format.specs.Limits.{stream_count_limit};
ghost use Rattle.pd_spec.specs.Views.{document_view};
ghost use Rattle.std.specs.Prelude.{◌≤◌, IfOk, length};

use pd_gather::{Core, Input, session};
use pd_spec::Spec;
use read_traces::Trace;
use std::alloc::{AllocError, Global};

/// Three processes with ten events each, whose levels have up to 91 cuts. Of the predicates the first holds at no cut
/// and the second at the empty cut, the third all along a level, the next two beside some observations, the sixth at
/// the full cut and near it, and the last at the full cut alone.
pub const THREE: &str = r#"{
  "processes": [
    {"name": "a", "vars": {"n": 0}},
    {"name": "b", "vars": {"n": 0}},
    {"name": "c", "vars": {"n": 0}}
  ],
  "predicates": [
    {"name": "never", "text": "a.n == 99"},
    {"name": "empty", "text": "a.n + b.n + c.n == 0"},
    {"name": "between", "text": "a.n + b.n + c.n == 15"},
    {"name": "aside", "text": "c.n >= 4 and a.n <= 2 and b.n <= 7"},
    {"name": "corner", "text": "a.n == 10 and b.n == 0"},
    {"name": "late", "text": "a.n >= 9 and b.n >= 9"},
    {"name": "top", "text": "a.n + b.n + c.n == 30"}
  ]
}"#;

/// The streams of these three processes.
pub const THREE_STREAMS: [[&str; 2]; 3] = [[A, TEN], [B, TEN], [C, TEN]];

/// Six processes with ten events each, whose level 11 has 4,362 cuts, enough for several workers. The first predicate
/// holds at a cut of level 1, and at all cuts of level 12, and the second at the latter alone.
pub const SIX: &str = r#"{
  "processes": [
    {"name": "a", "vars": {"n": 0}},
    {"name": "b", "vars": {"n": 0}},
    {"name": "c", "vars": {"n": 0}},
    {"name": "d", "vars": {"n": 0}},
    {"name": "e", "vars": {"n": 0}},
    {"name": "f", "vars": {"n": 0}}
  ],
  "predicates": [
    {"name": "listed",
     "text": "a.n == 1 and b.n + c.n + d.n + e.n + f.n == 0 or a.n + b.n + c.n + d.n + e.n + f.n == 12"},
    {"name": "late", "text": "a.n + b.n + c.n + d.n + e.n + f.n == 12"}
  ]
}"#;

/// The streams of these six processes.
pub const SIX_STREAMS: [[&str; 2]; 6] = [
    [A, TEN],
    [B, TEN],
    [C, TEN],
    [D, TEN],
    [E, TEN],
    [F, TEN],
];

/// The join of a process that is called `a`.
pub const A: &str = "{\"process\":\"a\"}\n";

/// The join of a process that is called `b`.
pub const B: &str = "{\"process\":\"b\"}\n";

/// The join of a process that is called `c`.
pub const C: &str = "{\"process\":\"c\"}\n";

/// The join of a process that is called `d`.
pub const D: &str = "{\"process\":\"d\"}\n";

/// The join of a process that is called `e`.
const E: &str = "{\"process\":\"e\"}\n";

/// The join of a process that is called `f`.
const F: &str = "{\"process\":\"f\"}\n";

/// Ten events, of which event `i` sets the variable to `i`.
const TEN: &str = r#"{"set":{"n":1}}
{"set":{"n":2}}
{"set":{"n":3}}
{"set":{"n":4}}
{"set":{"n":5}}
{"set":{"n":6}}
{"set":{"n":7}}
{"set":{"n":8}}
{"set":{"n":9}}
{"set":{"n":10}}
{"end":true}
"#;

/// The traces of these streams, of which each comes in two pieces and has its end line, in the order of the processes.
///
/// # Errors
/// Memory was refused, or the streams are no session of the document.
pub fn traces_of(
    alloc: Global,
    spec: &Spec,
    streams: &[[&str; 2]],
) -> Result<Vec<Trace>, AllocError>
    requires { length streams.now ≤ stream_count_limit }
    ensures { IfOk result (λ traces. AreTraces (document_view spec.now).names traces.items) }
{
    let mut core = Core::new(alloc, streams.len(), spec)?;
    for stream in 0..streams.len() {
        core.step(stream, Input::Piece(streams[stream][0].as_bytes()))?;
        core.step(stream, Input::Piece(streams[stream][1].as_bytes()))?;
    }
    if !core.closed() {
        return Err(AllocError);
    }
    match session(alloc, spec, core.outcome()) {
        Ok(traces) => Ok(traces),
        Err(_) => Err(AllocError),
    }
}
