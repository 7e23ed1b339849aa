//! How much memory an order takes.
use super::order::ProcessOrder;

/// How many bytes the head of a list takes, beside its elements.
const HEAD: u64 = 24;

/// About how many bytes a list of elements of this size takes.
fn list_bytes(room: usize, size: u64) -> u64 {
    (room as u64).saturating_mul(size).saturating_add(HEAD)
}

/// About how many bytes lists of variables take.
pub(crate) fn named_bytes(named: &[Vec<usize>]) -> u64 {
    let mut bytes = HEAD;
    for vars in named {
        bytes = bytes.saturating_add(list_bytes(vars.capacity(), 8));
    }
    bytes
}

/// About how many bytes it takes what is seen of these processes.
pub(crate) fn process_bytes(processes: &[ProcessOrder]) -> u64 {
    let mut bytes = HEAD;
    for process in processes {
        bytes = bytes
            .saturating_add(list_bytes(process.values.capacity(), 8))
            .saturating_add(list_bytes(process.known.capacity(), 2));
    }
    bytes
}
