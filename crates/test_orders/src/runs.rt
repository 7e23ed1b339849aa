//! Small runs, and which of their events are kept: `order_of_traces`.
use crate::found::{cycle_found, is_found};
use test_samples::{A, B, C};

/// Three processes, of which a predicate sees the first and the last.
const TWO_SEEN: &str = r#"{
  "processes": [
    {"name": "a", "vars": {"w": 5, "x": 0}},
    {"name": "b", "vars": {"z": 0}},
    {"name": "c", "vars": {"y": 0}}
  ],
  "predicates": [{"name": "p", "text": "a.x == 0 and c.y == 1"}]
}"#;

/// The same processes, all of which a predicate sees.
const THREE_SEEN: &str = r#"{
  "processes": [
    {"name": "a", "vars": {"w": 5, "x": 0}},
    {"name": "b", "vars": {"z": 0}},
    {"name": "c", "vars": {"y": 0}}
  ],
  "predicates": [{"name": "p", "text": "a.x + a.w == 6 and b.z == 1 and c.y == 1"}]
}"#;

/// The first process sets its variables and sends, the second relays that, and the third sets its variable after it,
/// and the first again when it hears of that.
const RELAY: [[&str; 2]; 3] = [[A, RELAY_A], [B, RELAY_B], [C, RELAY_C]];

const RELAY_A: &str = r#"{"set":{"w":6}}
{"set":{"x":1},"send":"m"}
{"set":{"x":1}}
{"set":{"x":2},"recv":"o"}
{"end":true}
"#;

const RELAY_B: &str = r#"{"recv":"m"}
{"set":{"z":1},"send":"n"}
{"end":true}
"#;

const RELAY_C: &str = r#"{"set":{"y":-7}}
{"recv":"n"}
{"set":{"y":1},"send":"o"}
{"end":true}
"#;

/// The first process hears of the second before it sends to it, and so does the second.
const CYCLE: [[&str; 2]; 3] = [
    [
        A,
        "{\"set\":{\"x\":1}}\n{\"recv\":\"n\"}\n{\"send\":\"m\"}\n{\"end\":true}\n",
    ],
    [B, "{\"recv\":\"m\"}\n{\"send\":\"n\"}\n{\"end\":true}\n"],
    [C, "{\"end\":true}\n"],
];

#[test]
fn seen_changes_are_kept(rt: HostRuntime) {
    assert!(rt;
        is_found(&rt, rt.alloc(), TWO_SEEN, &RELAY, &[&[2, 4], &[], &[1, 3]]) == Some(true)
    );
}

#[test]
fn changes_of_all_named_variables_are_kept(rt: HostRuntime) {
    assert!(rt;
        is_found(
            &rt,
            rt.alloc(),
            THREE_SEEN,
            &RELAY,
            &[&[1, 2, 4], &[2], &[1, 3]]
        ) == Some(true)
    );
}

#[test]
fn a_cycle_is_found(rt: HostRuntime) {
    assert!(rt; cycle_found(&rt, rt.alloc(), TWO_SEEN, &CYCLE, 2) == Some(true));
}
