//! Wires in memory: the session lines of a short log.
ghost use Rattle.std.specs.Prelude.{◌≡◌, [], IfOk, false};
ghost use Rattle.cf_wires.specs.{log_of, finished_of};

use cf_bytes::PeerNo;
use cf_wires::{Delivery, MemoryWires, Name, Piece, Scripted, Wires};
use std::alloc::Global;
use std::test::*;

// Two dials, the second one failing, two deliveries, and a send that fails.
fn short_wires(alloc: Global) -> Result<MemoryWires, Fail>
    ensures log { IfOk result (λ w. log_of w ≡ []) }
    ensures finished { IfOk result (λ w. finished_of w ≡ false) }
{
    let mut wires = MemoryWires::new(alloc)?;
    wires.add(Scripted::Dial(Name::from_text(alloc, "a")?))?;
    wires.add(Scripted::NoDial(Name::from_text(alloc, "b")?))?;
    let piece = Piece::from_slice(alloc, &[0, 255])?;
    wires.add(Scripted::Deliver(Delivery::Got(PeerNo(1), piece)))?;
    wires.add(Scripted::Deliver(Delivery::Tick(5)))?;
    wires.failing(&[3])?;
    Ok(wires)
}

fn pass_all(wires: &mut MemoryWires) -> Result<(), Fail>
    requires log { log_of wires.old ≡ [] }
    requires open { finished_of wires.old ≡ false }
{
    wires.dial("a").ok().ok_or("no dial")?;
    let missed = wires.dial("b").err().ok_or("dialled")?;
    wires.next()?;
    wires.next()?;
    let unsent = wires.send(PeerNo(1), &[1]).err().ok_or("sent")?;
    wires.next()?;
    Ok(())
}

#[test]
fn the_session_of_a_log(rt: HostRuntime) -> Result<(), Fail> {
    let alloc = rt.alloc();
    let mut kept = short_wires(alloc)?;
    kept.keep_log();
    assert!(rt; kept.session()?.as_str() == "");
    pass_all(&mut kept)?;
    let text = "dial a\nnodial b\ngot 1 00ff\ntick 5\ngone 1\n";
    assert!(rt; kept.session()?.as_str() == text);
    let mut unkept = short_wires(alloc)?;
    pass_all(&mut unkept)?;
    assert!(rt; unkept.session()?.as_str() == "");
    Ok(())
}
