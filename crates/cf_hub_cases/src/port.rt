//! The port at which a call listens, which another thread waits for.
use crate::doors::{Count, add, amount, is_reached};

/// Says that somebody listens there. The count is of nothing until then.
pub(crate) fn tell(port: &Count, number: u16) {
    add(port, u32::from(number));
}

/// The port's number, once somebody listens there. `None` where nobody does at so many looks.
pub(crate) fn listening(rt: &HostRuntime, port: &Count) -> Option<u32> {
    if !is_reached(rt, port, 1) {
        return None;
    }
    Some(amount(port))
}
