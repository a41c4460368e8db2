//! How many handles of files the system lets the server have, as the table `limits` of proc(5) says it.

use std::fs::File;
use std::io::Read;

/// The handles of a process if nothing says how many it may have: the usual limit.
const USUAL_HANDLES: usize = 1_024;

/// The table is some 1,400 bytes long. No more than this is read of it.
const MAX_TABLE: u64 = 16_384;

/// How many handles this process may have at once.
pub(crate) fn most_handles(rt: &HostRuntime) -> usize {
    let mut text = String::new(rt.alloc());
    let Ok(file) = File::open(rt, "/proc/self/limits") else {
        return USUAL_HANDLES;
    };
    match file.take(MAX_TABLE).read_to_string(&mut text) {
        Ok(_) => handles_in(&text).unwrap_or(USUAL_HANDLES),
        Err(_) => USUAL_HANDLES,
    }
}

/// The first number in the row of open files: the limit that holds. The second one is how far it may be raised.
fn handles_in(table: &str) -> Option<usize> {
    let row = table
        .lines()
        .find(|line| line.starts_with("Max open files"))?;
    row.split_ascii_whitespace().nth(3)?.parse().ok()
}
