//! The session lines of what passed the wires.
ghost use Rattle.std.specs.Prelude.{◌≡◌, ◌++◌, ◌∷◌, [], reverse, IfOk, OnOk, string_bytes};
ghost use Rattle.std.specs.List.{flat_map};
ghost use Rattle.cf_wires.specs.Log.{dials};
ghost use Rattle.cf_wires.specs.Session.{dial_line, got_line, gone_line, tick_line, event_line, delivery_lines};

use crate::event::{Delivery, Event};
use cf_bytes::{NoMemory, PeerNo};
use std::alloc::Global;

// Writes the line of a dial at the end of a text.
fn put_dial(event: &Event, text: &mut String) -> Result<(), NoMemory>
    ensures { OnOk result
        (string_bytes text.new ≡ string_bytes text.old ++ flat_map dial_line (dials (event.now ∷ []))) }
{
    match event {
        Event::Dialled(_, name) => {
            text.push_str("dial ")?;
            text.push_str(name.as_str())?;
            text.push_str("\n")?;
        }
        Event::NotDialled(_, name) => {
            text.push_str("nodial ")?;
            text.push_str(name.as_str())?;
            text.push_str("\n")?;
        }
        Event::Sent(_, _) | Event::SendFailed(_) | Event::Closed(_) | Event::Took(_) => {}
    }
    Ok(())
}

/// Writes the lines of the dials among the events, the oldest first, at the end of a text.
pub fn put_dials(events: &[Event], text: &mut String) -> Result<(), NoMemory>
    ensures { OnOk result
        (string_bytes text.new ≡ string_bytes text.old ++ flat_map dial_line (dials (reverse events.now))) }
{
    for event in events {
        put_dial(event, text)?;
    }
    Ok(())
}

fn write_got(alloc: Global, p: PeerNo, bytes: &[u8]) -> Result<String, NoMemory>
    ensures { IfOk result (λ line. string_bytes line ≡ got_line p.0 bytes.now) }
{
    let number = p.0;
    let digits = hex::encode(alloc, bytes)?;
    Ok(format!(in alloc; "got {number} {digits}\n")?)
}

fn write_gone(alloc: Global, p: PeerNo) -> Result<String, NoMemory>
    ensures { IfOk result (λ line. string_bytes line ≡ gone_line p.0) }
{
    let number = p.0;
    Ok(format!(in alloc; "gone {number}\n")?)
}

fn write_tick(alloc: Global, seconds: u32) -> Result<String, NoMemory>
    ensures { IfOk result (λ line. string_bytes line ≡ tick_line seconds) }
{
    Ok(format!(in alloc; "tick {seconds}\n")?)
}

// The line of a delivery or of a failed send; an empty text for what has none.
fn write_event(alloc: Global, event: &Event) -> Result<String, NoMemory>
    ensures { IfOk result (λ line. string_bytes line ≡ event_line event.now) }
{
    match event {
        Event::Took(Delivery::Got(p, piece)) => write_got(alloc, *p, piece.as_slice()),
        Event::Took(Delivery::Gone(p)) => write_gone(alloc, *p),
        Event::Took(Delivery::Tick(seconds)) => write_tick(alloc, *seconds),
        Event::SendFailed(p) => write_gone(alloc, *p),
        Event::Took(Delivery::Ended)
        | Event::Dialled(_, _)
        | Event::NotDialled(_, _)
        | Event::Sent(_, _)
        | Event::Closed(_) => Ok(String::new(alloc)),
    }
}

/// Writes the lines of the deliveries and the failed sends among the events, the oldest first, at the end of a text.
pub fn put_deliveries(alloc: Global, events: &[Event], text: &mut String) -> Result<(), NoMemory>
    ensures { OnOk result (string_bytes text.new ≡ string_bytes text.old ++ delivery_lines (reverse events.now)) }
{
    for event in events {
        let line = write_event(alloc, event)?;
        text.push_str(line.as_str())?;
    }
    Ok(())
}
