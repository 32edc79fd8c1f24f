//! Connections that are served beside each other.
use crate::patient_conn::{Flags, PatientConn, two_conns};
use cf_grow::Server;
use cf_index::{Index, read_chain};
use cf_link::{ListLink, serve};
use cf_tasks::InThreads;
use std::alloc::Global;
use std::sync::Arc;
use std::sync::atomic::{AtomicBool, Ordering};
use std::test::*;
use std::thread::Threads;

// What a peer sends: `ping`, `version`, `ping`; and what the server of genesis alone sends back, by
// bench/conversation.py.
const ASKED: &str = "\
fabfb5da70696e670000000000000000080000002502fa940102030405060708fabfb5da76657273696f6e00000000005e000000b272cdee\
8011010000000000000000000500000000000000000000000000000000000000000000000000000000000000000000000000000000000000\
000000000000000000000000000000000600000000000000092f6f746865723a322f09000000fabfb5da70696e6700000000000000000800\
00002502fa940102030405060708";

const TOLD: &str = "\
fabfb5da76657273696f6e00000000005c00000044731a7080110100410000000000000000f1536500000000000000000000000000000000\
000000000000000000000000000000000000000000000000000000000000000000000000000000008877665544332211062f63663a312f00\
00000000fabfb5da76657261636b000000000000000000005df6e0e2fabfb5da706f6e670000000000000000080000002502fa9401020304\
05060708";

// A flag that isn't raised.
fn flag(alloc: Global) -> Result<Arc<AtomicBool, Global>, Fail> {
    Ok(Arc::new(alloc, AtomicBool::new(false))?)
}

// The server of genesis alone.
fn server_of(rt: &(impl Threads + Sync), alloc: Global) -> Result<Server, Fail> {
    let blocks = read_chain(alloc, &[]).ok().ok_or("no chain")?;
    let index = Index::of(rt, alloc, blocks).ok().ok_or("no memory")?;
    Ok(
        Server::new(alloc, index, 1_700_000_000, 0x1122_3344_5566_7788)
            .ok()
            .ok_or("no memory")?,
    )
}

// The first connection gives nothing until the second one was answered.
fn link_of(alloc: Global, flags: &Flags) -> Result<ListLink<PatientConn>, Fail> {
    let asked = hex::decode(alloc, ASKED).ok().ok_or("no bytes")?;
    let conns = two_conns(alloc, &asked, flags).ok_or("no memory")?;
    Ok(ListLink::new(alloc, conns).ok().ok_or("no memory")?)
}

// How each connection ended, and what was written to it.
fn text_of(alloc: Global, link: &ListLink<PatientConn>) -> Result<String, Fail> {
    let mut text = String::new(alloc);
    for (end, how) in link.given() {
        let told = hex::encode(alloc, end.written())?;
        text.push_str(format!(in alloc; "{how} {told};")?.as_str())?;
    }
    Ok(text)
}

// A server that serves one connection after another waits in vain, and so does one by whose spawner the task runs before
// its thread stands.
#[test]
fn a_silent_connection_keeps_no_other_waiting(rt: HostRuntime) -> Result<(), Fail> {
    let alloc = rt.alloc();
    let server = server_of(&rt, alloc)?;
    let flags = Flags {
        answered: flag(alloc)?,
        in_vain: flag(alloc)?,
    };
    let mut link = link_of(alloc, &flags)?;
    let mut spawner = InThreads::new(rt);
    let answer = serve(alloc, &server, &mut link, &mut spawner, 2);
    let text = format!(in alloc;
        "{answer:?} {} {}",
        flags.in_vain.load(Ordering::SeqCst),
        text_of(alloc, &link)?
    )?;
    let wanted = format!(in alloc; "Ok(()) false 0 {TOLD};0 {TOLD};")?;
    assert_eq!(rt; text.as_str(), wanted.as_str());
    Ok(())
}
