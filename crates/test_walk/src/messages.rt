//! The messages of a session, with random keys and without: `match_messages`. No answer shows by which keys ids are
//! looked up.
use pd_match::{Matched, Place, match_messages};
use pd_spec::Spec;
use std::alloc::Global;
use std::io;
use std::random::RandomSource;
use std::sync::atomic::{AtomicU64, Ordering};
use test_samples::{A, B, traces_of};

const DOCUMENT: &str = r#"{
  "processes": [{"name": "a", "vars": {}}, {"name": "b", "vars": {}}],
  "predicates": [{"name": "p", "text": "true"}]
}"#;

/// Two processes that send to each other, with a message in flight.
const STREAMS: [[&str; 2]; 2] = [
    [
        A,
        "{\"send\":\"m\"}\n{\"send\":\"in flight\"}\n{\"recv\":\"n\"}\n{\"end\":true}\n",
    ],
    [B, "{\"recv\":\"m\"}\n{\"send\":\"n\"}\n{\"end\":true}\n"],
];

fn place(process: usize, number: u64) -> Place {
    Place { process, number }
}

/// Whether the messages are those of the session above.
fn are_messages(matched: &Matched) -> bool {
    matched.messages() == 2
        && matched.sender(place(0, 3)) == Some(place(1, 2))
        && matched.sender(place(1, 1)) == Some(place(0, 1))
        && matched.sender(place(0, 2)).is_none()
}

/// Whether the session's messages are found by these keys. Nothing if memory was refused.
fn are_found<K: RandomSource>(keys: &K, alloc: Global) -> Option<bool> {
    let Ok(spec) = Spec::read(alloc, DOCUMENT.as_bytes()) else {
        return None;
    };
    let Ok(traces) = traces_of(alloc, &spec, &STREAMS) else {
        return None;
    };
    match match_messages(keys, alloc, spec.version(), &traces) {
        Ok(matched) => Some(are_messages(&matched)),
        Err(_) => None,
    }
}

/// A system that gives no random bytes.
struct NoKeys;

impl RandomSource for NoKeys {
    fn fill_bytes(&self, _buf: &mut [u8]) -> io::Result<()> {
        Err(io::Error::other("no keys"))
    }
}

/// A system that counts how often it is asked for random bytes.
#[derive(Drop)]
struct CountedKeys {
    calls: AtomicU64,
}

impl RandomSource for CountedKeys {
    fn fill_bytes(&self, buf: &mut [u8]) -> io::Result<()> {
        self.calls.fetch_add(1, Ordering::SeqCst);
        buf.fill(1);
        Ok(())
    }
}

#[test]
fn the_system_is_asked_for_keys(rt: HostRuntime) {
    let keys = CountedKeys {
        calls: AtomicU64::new(0),
    };
    assert!(rt;
        are_found(&keys, rt.alloc()) == Some(true) && keys.calls.load(Ordering::SeqCst) > 0
    );
}

#[test]
fn keys_of_the_system_are_not_needed(rt: HostRuntime) {
    assert!(rt; are_found(&NoKeys, rt.alloc()) == Some(true));
}
