//! Reads up to a limit: `read_upto` of a reader that gives a byte a call and then fails.
use super::readers::{Reader, Signs};
use judge_session::read_upto;
use std::alloc::Global;
use std::io::ErrorKind;
use std::test::Fail;

/// How many bytes are read up to this limit of a reader that gives two and then fails; none if the fault comes.
fn read_before_fault(alloc: Global, limit: usize) -> Option<usize> {
    let signs = Signs::new();
    let mut reader = Reader::new("xxx", &signs);
    reader.most = 1;
    reader.calls = 2;
    reader.failure = ErrorKind::Interrupted;
    match read_upto(alloc, reader, limit.min(1_000_000)) {
        Ok(bytes) => Some(bytes.len()),
        Err(_) => None,
    }
}

#[test]
fn reads_stop_at_the_limit(rt: HostRuntime) -> Result<(), Fail> {
    assert!(rt; read_before_fault(rt.alloc(), 1) == Some(2));
    assert!(rt; read_before_fault(rt.alloc(), 2).is_none());
    Ok(())
}
