//! Dials over TCP.
use cf_outside::{Dialer, TcpDialer};

/// Why a dial of this name fails.
pub(crate) fn reason(rt: HostRuntime, name: &str) -> Option<String> {
    let alloc = rt.alloc();
    let mut dialer = TcpDialer::new(rt, alloc);
    if dialer.dial(name).is_ok() {
        return String::from_str(alloc, "answers").ok();
    }
    format!(in alloc; "{}", dialer.failed().first()?).ok()
}
