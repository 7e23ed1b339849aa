//! Small runs, and what their reductions consist of: `reduced_run`.
use crate::made::is_reduced_to;
use test_samples::{A, B, C};

/// Three processes, of which a predicate sees the first and the last.
const TWO_SEEN: &str = r#"{
  "processes": [
    {"name": "a", "vars": {"x": 0}},
    {"name": "b", "vars": {"z": 0}},
    {"name": "c", "vars": {"y": 0}}
  ],
  "predicates": [{"name": "p", "text": "a.x == 0 and c.y == 1"}]
}"#;

/// The same processes, all of which a predicate sees.
const THREE_SEEN: &str = r#"{
  "processes": [
    {"name": "a", "vars": {"x": 0}},
    {"name": "b", "vars": {"z": 0}},
    {"name": "c", "vars": {"y": 0}}
  ],
  "predicates": [{"name": "p", "text": "a.x == 0 and b.z == 1 and c.y == 1"}]
}"#;

/// The first process sets its variable and sends, the second relays that, and the third sets its variable after it.
const RELAY: [[&str; 2]; 3] = [
    [A, "{\"set\":{\"x\":1},\"send\":\"m\"}\n{\"end\":true}\n"],
    [
        B,
        "{\"recv\":\"m\"}\n{\"set\":{\"z\":1},\"send\":\"n\"}\n{\"end\":true}\n",
    ],
    [C, "{\"recv\":\"n\"}\n{\"set\":{\"y\":1}}\n{\"end\":true}\n"],
];

/// Its reduction without the second process.
const PAST_RELAY: [[&str; 2]; 3] = [
    [
        A,
        "{\"set\":{\"x\":1},\"send\":\"a0000\"}\n{\"end\":true}\n",
    ],
    [B, "{\"end\":true}\n"],
    [
        C,
        "{\"recv\":\"a0000\"}\n{\"set\":{\"y\":1},\"send\":\"c0000\"}\n{\"end\":true}\n",
    ],
];

/// Its reduction with the second process: the third receives nothing of the first, since that comes through the second.
const THROUGH_RELAY: [[&str; 2]; 3] = [
    [
        A,
        "{\"set\":{\"x\":1},\"send\":\"a0000\"}\n{\"end\":true}\n",
    ],
    [
        B,
        "{\"recv\":\"a0000\"}\n{\"set\":{\"z\":1},\"send\":\"b0000\"}\n{\"end\":true}\n",
    ],
    [
        C,
        "{\"recv\":\"b0000\"}\n{\"set\":{\"y\":1},\"send\":\"c0000\"}\n{\"end\":true}\n",
    ],
];

/// No message is sent, and the first process sets its variable twice to the value that it has, first and last.
const REPEATED: [[&str; 2]; 3] = [
    [
        A,
        "{\"set\":{\"x\":0}}\n{\"set\":{\"x\":7}}\n{\"set\":{\"x\":7}}\n{\"end\":true}\n",
    ],
    [B, "{\"set\":{\"z\":1}}\n{\"end\":true}\n"],
    [
        C,
        "{\"set\":{\"y\":-1}}\n{\"set\":{\"y\":1}}\n{\"end\":true}\n",
    ],
];

/// Its reduction.
const NOT_REPEATED: [[&str; 2]; 3] = [
    [
        A,
        "{\"set\":{\"x\":7},\"send\":\"a0000\"}\n{\"end\":true}\n",
    ],
    [B, "{\"end\":true}\n"],
    [
        C,
        "{\"set\":{\"y\":-1},\"send\":\"c0000\"}\n{\"set\":{\"y\":1},\"send\":\"c0001\"}\n{\"end\":true}\n",
    ],
];

#[test]
fn order_through_an_unseen_process_is_a_message(rt: HostRuntime) {
    assert!(rt; is_reduced_to(&rt, rt.alloc(), TWO_SEEN, &RELAY, &PAST_RELAY) == Some(true));
}

#[test]
fn order_through_a_seen_event_needs_no_message(rt: HostRuntime) {
    assert!(rt; is_reduced_to(&rt, rt.alloc(), THREE_SEEN, &RELAY, &THROUGH_RELAY) == Some(true));
}

#[test]
fn events_that_change_nothing_seen_are_left_out(rt: HostRuntime) {
    assert!(rt; is_reduced_to(&rt, rt.alloc(), TWO_SEEN, &REPEATED, &NOT_REPEATED) == Some(true));
}
