//! The server of a file of blocks.
ghost use Rattle.std.specs.Prelude.{◌≡◌, ◌≢◌, ◌+◌, true, false, is_some, IfSome, OnOk};
ghost use Rattle.std.specs.FinMap as finite;
ghost use Rattle.cf_bytes.specs.{HasRisen};
ghost use Rattle.cf_conn.specs.{IsReadByParts};
ghost use Rattle.cf_link.specs.{link_now, Counts};
ghost use Rattle.cf_cli_serve.specs.Serving.{ServesAt, MayServe, ServesChain, IsServing, answer_of, served_by};
ghost use Rattle.cf_loading.specs.{IsJudged, blocks_verdict};
ghost use Rattle.cf_answers.specs.{was_refused};

use cf_answers::Status;
use cf_bytes::{Failed, Files, Hash32, NoMemory, Refused};
use cf_conn::Duplex;
use cf_grow::{GrowingServer, Joins, Keeper, Server, Unkept};
use cf_index::{CheckedChain, Index};
use cf_input::Growth;
use cf_link::{Link, ServeFail, Service, serve as serve_all};
use cf_loading::load_chain;
use cf_tasks::Spawner;
use std::alloc::Global;
use std::sync::Wait;
use std::thread::Threads;

// Listens, and serves so many connections.
fn serve_at<L: Link, S: Service + Send + 'static, K: Spawner>(
    alloc: Global,
    server: &S,
    tip: u32,
    tip_hash: &Hash32,
    address: &str,
    connections: u64,
    link: &mut L,
    spawner: &mut K,
) -> Result<(), ServeFail>
where
    L::Conn: Send + 'static,
    <L::Conn as Duplex>::End: Drop + Send + 'static,
    ensures serves { MayServe (S.serves server.now) address.now connections
        (link_now L.addresses L.accepted L.owed L.conns L.given link.old)
        (link_now L.addresses L.accepted L.owed L.conns L.given link.new) }
    ensures ok { OnOk result (ServesAt (S.serves server.now) address.now connections (link_now L.addresses L.accepted
        L.owed L.conns L.given link.old) (link_now L.addresses L.accepted L.owed L.conns L.given link.new)) }
    ensures count { OnOk result (L.accepted link.new ≡ L.accepted link.old + connections) }
    ensures faults { Counts result (L.faults link.old) (L.faults link.new) }
{
    link.listen(address)?;
    link.announce(tip, tip_hash);
    serve_all(alloc, server, link, spawner, connections)
}

// The answer where serving ended so.
fn status_of(answer: Result<(), ServeFail>) -> Status
    ensures { result ≡ answer_of answer }
{
    match answer {
        Ok(()) => Status::Done,
        Err(Refused::No(Failed)) => Status::LinkFault,
        Err(Refused::NoMemory) => Status::NoMemory,
    }
}

// Serves a chain that stands still.
fn serve_still<L: Link, K: Spawner>(
    alloc: Global,
    index: Index,
    tip_hash: &Hash32,
    address: &str,
    connections: u64,
    moment: i64,
    nonce: u64,
    link: &mut L,
    spawner: &mut K,
) -> Status
where
    L::Conn: Send + 'static,
    <L::Conn as Duplex>::End: Drop + Send + 'static,
    ensures serves { ServesChain result (served_by false index moment nonce) address.now connections
        (link_now L.addresses L.accepted L.owed L.conns L.given link.old)
        (link_now L.addresses L.accepted L.owed L.conns L.given link.new) }
    ensures fault { result ≡ Status.LinkFault → HasRisen (L.faults link.old) (L.faults link.new) }
    ensures fine { result ≢ Status.LinkFault → L.faults link.new ≡ L.faults link.old }
{
    let tip = index.tip();
    match Server::new(alloc, index, moment, nonce) {
        Ok(server) => status_of(serve_at(
            alloc,
            &server,
            tip,
            tip_hash,
            address,
            connections,
            link,
            spawner,
        )),
        Err(NoMemory) => Status::NoMemory,
    }
}

// Serves a chain that grows.
fn serve_growing<
    R: Wait + Copy + Drop + Send + 'static,
    J: Joins + Copy + Drop + Send + 'static,
    H: Keeper + Drop + Send + 'static,
    L: Link,
    K: Spawner,
>(
    rt: R,
    alloc: Global,
    index: Index,
    joins: J,
    room: u64,
    keeper: H,
    tip_hash: &Hash32,
    address: &str,
    connections: u64,
    moment: i64,
    nonce: u64,
    link: &mut L,
    spawner: &mut K,
) -> Status
where
    L::Conn: Send + 'static,
    <L::Conn as Duplex>::End: Drop + Send + 'static,
    ensures serves { ServesChain result (served_by true index moment nonce) address.now connections
        (link_now L.addresses L.accepted L.owed L.conns L.given link.old)
        (link_now L.addresses L.accepted L.owed L.conns L.given link.new) }
    ensures fault { result ≡ Status.LinkFault → HasRisen (L.faults link.old) (L.faults link.new) }
    ensures fine { result ≢ Status.LinkFault → L.faults link.new ≡ L.faults link.old }
{
    let tip = index.tip();
    match GrowingServer::new(rt, alloc, index, joins, room, keeper, moment, nonce) {
        Ok(server) => status_of(serve_at(
            alloc,
            &server,
            tip,
            tip_hash,
            address,
            connections,
            link,
            spawner,
        )),
        Err(NoMemory) => Status::NoMemory,
    }
}

// Serves a chain, whose filters are built first.
fn serve_chain<
    R: Wait + Threads + Sync + Copy + Drop + Send + 'static,
    J: Joins + Copy + Drop + Send + 'static,
    H: Keeper + Drop + Send + 'static,
    L: Link,
    K: Spawner,
>(
    rt: R,
    alloc: Global,
    chain: CheckedChain,
    grow: Option<Growth>,
    joins: J,
    keeper: H,
    address: &str,
    connections: u64,
    moment: i64,
    nonce: u64,
    link: &mut L,
    spawner: &mut K,
) -> Status
where
    L::Conn: Send + 'static,
    <L::Conn as Duplex>::End: Drop + Send + 'static,
    ensures serves { ServesChain result (served_by (is_some grow) chain moment nonce) address.now connections
        (link_now L.addresses L.accepted L.owed L.conns L.given link.old)
        (link_now L.addresses L.accepted L.owed L.conns L.given link.new) }
    ensures fault { result ≡ Status.LinkFault → HasRisen (L.faults link.old) (L.faults link.new) }
    ensures fine { result ≢ Status.LinkFault → L.faults link.new ≡ L.faults link.old }
{
    let tip_hash = chain.tip_hash();
    let Ok(index) = Index::of(&rt, alloc, chain) else {
        return Status::NoMemory;
    };
    match grow {
        Some(Growth { bytes, keep: true }) => serve_growing(
            rt,
            alloc,
            index,
            joins,
            u64::from(bytes),
            keeper,
            &tip_hash,
            address,
            connections,
            moment,
            nonce,
            link,
            spawner,
        ),
        Some(Growth { bytes, keep: false }) => serve_growing(
            rt,
            alloc,
            index,
            joins,
            u64::from(bytes),
            Unkept,
            &tip_hash,
            address,
            connections,
            moment,
            nonce,
            link,
            spawner,
        ),
        None => serve_still(
            alloc,
            index,
            &tip_hash,
            address,
            connections,
            moment,
            nonce,
            link,
            spawner,
        ),
    }
}

/// Serves the chain of a file of blocks to so many connections, once the file is read and judged: the chain that was
/// loaded, or one that grows from it, by blocks of at most so many bytes in all, which the keeper keeps where that is
/// asked for. The link listens at the address then.
pub fn serve<
    R: Wait + Threads + Sync + Copy + Drop + Send + 'static,
    J: Joins + Copy + Drop + Send + 'static,
    H: Keeper + Drop + Send + 'static,
    F: Files,
    L: Link,
    K: Spawner,
>(
    rt: R,
    alloc: Global,
    files: &mut F,
    grow: Option<Growth>,
    joins: J,
    keeper: H,
    file: &str,
    address: &str,
    connections: u64,
    moment: i64,
    nonce: u64,
    link: &mut L,
    spawner: &mut K,
) -> Status
where
    L::Conn: Send + 'static,
    <L::Conn as Duplex>::End: Drop + Send + 'static,
    ensures judged { IfSome (F.files files.old) (λ m. IsJudged (blocks_verdict (finite.get m file.now)) result) }
    ensures serving { IsServing (is_some grow) result moment nonce (F.files files.old) file.now address.now connections
        (link_now L.addresses L.accepted L.owed L.conns L.given link.old)
        (link_now L.addresses L.accepted L.owed L.conns L.given link.new) }
    ensures unused { was_refused result ≡ true → link.new ≡ link.old }
    ensures unchanged { F.files files.new ≡ F.files files.old }
    ensures files { IsReadByParts F.opens F.parts file.now files.old files.new }
    ensures file_fault { result ≡ Status.FileFault → HasRisen (F.faults files.old) (F.faults files.new) }
    ensures file_fine { result ≢ Status.FileFault → F.faults files.new ≡ F.faults files.old }
    ensures link_fault { result ≡ Status.LinkFault → HasRisen (L.faults link.old) (L.faults link.new) }
    ensures link_fine { result ≢ Status.LinkFault → L.faults link.new ≡ L.faults link.old }
{
    match load_chain(alloc, files, file) {
        Ok(chain) => serve_chain(
            rt,
            alloc,
            chain,
            grow,
            joins,
            keeper,
            address,
            connections,
            moment,
            nonce,
            link,
            spawner,
        ),
        Err(status) => status,
    }
}
