//! The first three descriptors: standard input, standard output and standard error.
use std::fs;
use std::os::fd::{AsRawFd, IntoRawFd, RawFd};

// Standard error's, the last of the three.
const LAST: RawFd = 2;

/// Takes each of the first three descriptors that is closed, as long as the process runs: no file and no connection
/// that is opened later gets its number. There is nothing to read from it, and what is written to it fails, since it is
/// open for reading alone. Where `/dev/null` can't be opened, they stay as they are.
pub fn hold(rt: &HostRuntime) {
    for _ in 0..=LAST {
        // What is opened gets the lowest number that is free.
        let Ok(file) = fs::open(rt, "/dev/null") else {
            return;
        };
        if file.as_raw_fd() > LAST {
            return;
        }
        let _held = file.into_raw_fd();
    }
}
