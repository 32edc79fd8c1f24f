//! A task for each connection.
ghost use Rattle.std.specs.Prelude.{◌≡◌, ◌≤◌, ◌+◌, ◌-◌, ◌^◌, ◌⊎◌, ℕ, List, [], ◌∷◌, ◌++◌, true, false, length, min, IfOk, OnOk, OnErr};
ghost use Rattle.cf_bytes.specs.{HasRisen};
ghost use Rattle.cf_tasks.specs.{IsPut};
ghost use Rattle.cf_conn.specs.{ConnTold};
ghost use Rattle.cf_link.specs.Links.{link_now, longer_by, told_now};
ghost use Rattle.cf_link.specs.Lines.{AllRun, Stay};
ghost use Rattle.cf_link.specs.Tasks.{IsTaskOf, GivesBack, Halfway};
ghost use Rattle.cf_link.specs.Serving.{Serves, Counts};
ghost use Rattle.cf_link.specs.declared.task.ServeTask.{ServeTask as TaskOf};

use crate::flag::{Flag, SharedFlag};
use crate::line::{Ended, Line};
use crate::link::Link;
use crate::task::{Observed, ServeTask, ServedEnd, Service};
use cf_bytes::{Failed, NoMemory, Refused};
use cf_conn::Duplex;
use cf_tasks::{Spawner, Task};
use std::alloc::Global;
use std::snapshot::Snapshot;
use std::sync::Arc;
use std::sync::atomic::AtomicBool;

/// Why fewer connections were served than were asked for: the link has failed, or no memory was found.
pub type ServeFail = Refused<Failed>;

// What a task needs beside its connection, and the flag that is looked at.
#[derive(Drop)]
struct Share<S, F> {
    service: S,
    over: Arc<AtomicBool, Global>,
    flag: F,
}

// Runs a task in place. No other one runs, or starts were refused until their count stood still.
fn run_alone<
    C: Duplex + Observed + Drop + Send + 'static,
    S: Service + Send + 'static,
    F: Flag,
    K: Spawner,
>(spawner: &K, line: &mut Line<ServeTask<C, S>, F>, task: ServeTask<C, S>)
where
    C::End: Drop + Send + 'static,
    requires room { line.old.room ≡ true }
    requires alone { (line.old.flags ≡ []) ⊎ (2 ^ 64 - 1 ≤ K.refusals spawner.now) }
    ensures tasks { line.new.tasks ≡ line.old.tasks ++ task ∷ [] }
    ensures flags { line.new.flags ≡ line.old.flags }
{
    let of = Snapshot::of(&task);
    let again = Snapshot::of(&task);
    line.push_over(of, Ended::new(again, task.run()));
}

// Starts a task whose start was refused once. What is over is joined, and after a pause the start is tried again, as
// often as it is refused while another one runs. Where it is refused and none runs, the task is run in place.
fn start_later<L: Link, S: Service + Send + 'static, F: Flag, K: Spawner>(
    alloc: Global,
    link: &mut L,
    spawner: &mut K,
    line: &mut Line<ServeTask<L::Conn, S>, F>,
    task: ServeTask<L::Conn, S>,
    flag: F,
)
where
    L::Conn: Send + 'static,
    <L::Conn as Duplex>::End: Drop + Send + 'static,
    requires { line.old.room ≡ true }
    ensures tasks { line.new.tasks ≡ line.old.tasks ++ task ∷ [] }
    ensures runs { (left : List F) × Stay F.tells line.old.flags left × ((line.new.flags ≡ left ++ flag ∷ [])
        ⊎ ((line.new.flags ≡ left) × ((left ≡ []) ⊎ (2 ^ 64 - 1 ≤ K.refusals spawner.new)))) }
    ensures refusals { min (K.refusals spawner.old) (2 ^ 64 - 1) ≤ K.refusals spawner.new }
    ensures faults { L.faults link.new ≡ L.faults link.old }
    ensures addresses { L.addresses link.new ≡ L.addresses link.old }
    ensures conns { L.conns link.new ≡ L.conns link.old }
    ensures accepted { L.accepted link.new ≡ L.accepted link.old }
    ensures owed { L.owed link.new ≡ L.owed link.old }
    ensures given { L.given link.new ≡ L.given link.old }
{
    let mut next = task;
    for _ in 0..u64::MAX {
        line.sweep(spawner);
        link.pause();
        let of = Snapshot::of(&next);
        match spawner.start(alloc, next) {
            Ok(running) => {
                line.push(of, running, flag);
                return;
            }
            Err(task) => {
                if line.is_idle() {
                    run_alone(spawner, line, task);
                    return;
                }
                next = task;
            }
        }
    }
    run_alone(spawner, line, next);
}

// Starts a task. It stands at the end of the line then, and runs; or it was run in place, where its start was refused
// and no other one runs.
fn start<L: Link, S: Service + Send + 'static, F: Flag, K: Spawner>(
    alloc: Global,
    link: &mut L,
    spawner: &mut K,
    line: &mut Line<ServeTask<L::Conn, S>, F>,
    task: ServeTask<L::Conn, S>,
    flag: F,
)
where
    L::Conn: Send + 'static,
    <L::Conn as Duplex>::End: Drop + Send + 'static,
    requires { line.old.room ≡ true }
    ensures tasks { line.new.tasks ≡ line.old.tasks ++ task ∷ [] }
    ensures put { (between : K) × IsPut K.moves spawner.old between }
    ensures runs { (left : List F) × Stay F.tells line.old.flags left × ((line.new.flags ≡ left ++ flag ∷ [])
        ⊎ ((line.new.flags ≡ left) × HasRisen (K.refusals spawner.old) (K.refusals spawner.new)
        × ((left ≡ []) ⊎ (2 ^ 64 - 1 ≤ K.refusals spawner.new)))) }
    ensures faults { L.faults link.new ≡ L.faults link.old }
    ensures addresses { L.addresses link.new ≡ L.addresses link.old }
    ensures conns { L.conns link.new ≡ L.conns link.old }
    ensures accepted { L.accepted link.new ≡ L.accepted link.old }
    ensures owed { L.owed link.new ≡ L.owed link.old }
    ensures given { L.given link.new ≡ L.given link.old }
{
    let of = Snapshot::of(&task);
    match spawner.start(alloc, task) {
        Ok(running) => line.push(of, running, flag),
        Err(task) => start_later(alloc, link, spawner, line, task, flag),
    }
}

// Accepts a connection, and starts its task. All memory was taken before, each task of the line that is over is joined,
// and the first one isn't over.
fn accept_one<L: Link, S: Service + Send + 'static, F: Flag, K: Spawner>(
    alloc: Global,
    link: &mut L,
    spawner: &mut K,
    line: &mut Line<ServeTask<L::Conn, S>, F>,
    share: Share<S, F>,
) -> Result<(), Failed>
where
    L::Conn: Send + 'static,
    <L::Conn as Duplex>::End: Drop + Send + 'static,
    requires room { line.old.room ≡ true }
    requires run { AllRun F.tells line.old.flags }
    requires ready { line.old.ready ≡ false }
    ensures ok { OnOk result ((t : TaskOf L.Conn S) × (t.service ≡ share.service)
        × (line.new.tasks ≡ line.old.tasks ++ t ∷ []) × (L.conns link.new ≡ longer_by (L.conns link.old)
        (told_now L.Conn.left L.Conn.written L.Conn.ended L.Conn.Source.faults L.Conn.Sink.faults t.conn ∷ []))) }
    ensures count { OnOk result ((L.accepted link.new ≡ L.accepted link.old + 1)
        × (L.owed link.new ≡ L.owed link.old + 1)) }
    ensures err { OnErr result ((line.new.tasks ≡ line.old.tasks) × (L.conns link.new ≡ L.conns link.old)
        × (L.accepted link.new ≡ L.accepted link.old) × (L.owed link.new ≡ L.owed link.old)) }
    ensures kept { OnOk result (L.faults link.new ≡ L.faults link.old) }
    ensures cause { OnErr result (HasRisen (L.faults link.old) (L.faults link.new)) }
    ensures addresses { L.addresses link.new ≡ L.addresses link.old }
    ensures given { L.given link.new ≡ L.given link.old }
{
    let conn = link.accept()?;
    let Share {
        service,
        over,
        flag,
    } = share;
    let task = ServeTask {
        conn,
        service,
        over,
    };
    start(alloc, link, spawner, line, task, flag);
    Ok(())
}

// Gives back what stays of the first connections of the line, as many as are over.
fn give_back<L: Link, S: Service, F: Flag>(link: &mut L, line: &mut Line<ServeTask<L::Conn, S>, F>)
where
    <L::Conn as Duplex>::End: Drop,
    requires { length line.old.tasks ≤ L.owed link.old }
    ensures given { GivesBack (told_now L.Conn.left L.Conn.written L.Conn.ended L.Conn.Source.faults L.Conn.Sink.faults)
        S.serves line.old.tasks line.new.tasks (L.given link.old) (L.given link.new)
        (L.owed link.old) (L.owed link.new) }
    ensures flags { line.new.flags ≡ line.old.flags }
    ensures ready { line.new.ready ≡ false }
    ensures all { line.new.flags ≡ [] → line.new.tasks ≡ [] }
    ensures faults { L.faults link.new ≡ L.faults link.old }
    ensures addresses { L.addresses link.new ≡ L.addresses link.old }
    ensures conns { L.conns link.new ≡ L.conns link.old }
    ensures accepted { L.accepted link.new ≡ L.accepted link.old }
{
    while let Some(ended) = line.next() {
        let ServedEnd { end, how } = ended.out();
        link.give_back(end, how);
    }
}

// Joins all tasks of the line in order, and gives back what stays of their connections.
fn finish<L: Link, S: Service, F: Flag, K: Spawner>(
    link: &mut L,
    spawner: &mut K,
    line: &mut Line<ServeTask<L::Conn, S>, F>,
)
where
    <L::Conn as Duplex>::End: Drop,
    requires { length line.old.tasks ≤ L.owed link.old }
    ensures given { GivesBack (told_now L.Conn.left L.Conn.written L.Conn.ended L.Conn.Source.faults L.Conn.Sink.faults)
        S.serves line.old.tasks line.new.tasks (L.given link.old) (L.given link.new)
        (L.owed link.old) (L.owed link.new) }
    ensures tasks { line.new.tasks ≡ [] }
    ensures flags { line.new.flags ≡ [] }
    ensures faults { L.faults link.new ≡ L.faults link.old }
    ensures addresses { L.addresses link.new ≡ L.addresses link.old }
    ensures conns { L.conns link.new ≡ L.conns link.old }
    ensures accepted { L.accepted link.new ≡ L.accepted link.old }
{
    give_back(link, line);
    while !line.is_idle() {
        line.join_at(spawner, 0);
        give_back(link, line);
    }
}

// All memory for one more connection.
fn share_of<J: Task, S: Service, F: Flag>(
    alloc: Global,
    service: &S,
    line: &mut Line<J, F>,
) -> Result<Share<S, F>, NoMemory>
    ensures tasks { line.new.tasks ≡ line.old.tasks }
    ensures flags { line.new.flags ≡ line.old.flags }
    ensures ready { line.new.ready ≡ line.old.ready }
    ensures room { OnOk result (line.new.room ≡ true) }
    ensures service { IfOk result (λ s. s.service ≡ service.now) }
{
    line.reserve()?;
    let (flag, over) = F::pair(alloc)?;
    let service = service.share()?;
    Ok(Share {
        service,
        over,
        flag,
    })
}

// Takes all memory for one more connection. Before, what is over is joined, and given back as far as it is the first.
// As long as some task runs, memory that isn't found is asked for again after a pause.
fn make_ready<L: Link, S: Service, F: Flag, K: Spawner>(
    alloc: Global,
    service: &S,
    link: &mut L,
    spawner: &mut K,
    line: &mut Line<ServeTask<L::Conn, S>, F>,
) -> Result<Share<S, F>, NoMemory>
where
    <L::Conn as Duplex>::End: Drop,
    requires { length line.old.tasks ≤ L.owed link.old }
    ensures given { GivesBack (told_now L.Conn.left L.Conn.written L.Conn.ended L.Conn.Source.faults L.Conn.Sink.faults)
        S.serves line.old.tasks line.new.tasks (L.given link.old) (L.given link.new)
        (L.owed link.old) (L.owed link.new) }
    ensures stay { OnOk result (Stay F.tells line.old.flags line.new.flags) }
    ensures run { OnOk result (AllRun F.tells line.new.flags) }
    ensures ready { OnOk result (line.new.ready ≡ false) }
    ensures room { OnOk result (line.new.room ≡ true) }
    ensures service { IfOk result (λ s. s.service ≡ service.now) }
    ensures err { OnErr result (line.new.tasks ≡ []) }
    ensures faults { L.faults link.new ≡ L.faults link.old }
    ensures addresses { L.addresses link.new ≡ L.addresses link.old }
    ensures conns { L.conns link.new ≡ L.conns link.old }
    ensures accepted { L.accepted link.new ≡ L.accepted link.old }
{
    for _ in 0..u64::MAX {
        line.sweep(spawner);
        give_back(link, line);
        match share_of(alloc, service, line) {
            Ok(share) => return Ok(share),
            Err(NoMemory) => {
                if line.is_idle() {
                    return Err(NoMemory);
                }
            }
        }
        link.pause();
    }
    finish(link, spawner, line);
    Err(NoMemory)
}

// Accepts n connections and starts their tasks. What is over is joined before the next one is waited for.
fn accept_all<L: Link, S: Service + Send + 'static, F: Flag, K: Spawner>(
    alloc: Global,
    service: &S,
    link: &mut L,
    spawner: &mut K,
    n: u64,
    line: &mut Line<ServeTask<L::Conn, S>, F>,
) -> Result<(), ServeFail>
where
    L::Conn: Send + 'static,
    <L::Conn as Duplex>::End: Drop + Send + 'static,
    requires { line.old.tasks ≡ [] }
    ensures halfway { Halfway (told_now L.Conn.left L.Conn.written L.Conn.ended L.Conn.Source.faults L.Conn.Sink.faults)
        S.serves service.now line.new.tasks (L.conns link.old) (L.conns link.new) (L.given link.old) (L.given link.new)
        (L.accepted link.old) (L.accepted link.new) (L.owed link.old) (L.owed link.new) }
    ensures count { OnOk result (L.accepted link.new ≡ L.accepted link.old + n) }
    ensures most { L.accepted link.new ≤ L.accepted link.old + n }
    ensures faults { Counts result (L.faults link.old) (L.faults link.new) }
    ensures addresses { L.addresses link.new ≡ L.addresses link.old }
{
    for _ in 0..n {
        let share = make_ready(alloc, service, link, spawner, line)?;
        accept_one(alloc, link, spawner, line, share)?;
    }
    Ok(())
}

/// Accepts n connections, serves each in a task of its own, and gives each back in the order of accepting. One whose
/// start is refused waits for another start as long as other ones run, and is served in place where none does. Where
/// the link fails, or no memory is found while none runs, fewer are accepted, and all that were are given back first.
pub fn serve<L: Link, S: Service + Send + 'static, K: Spawner>(
    alloc: Global,
    service: &S,
    link: &mut L,
    spawner: &mut K,
    n: u64,
) -> Result<(), ServeFail>
where
    L::Conn: Send + 'static,
    <L::Conn as Duplex>::End: Drop + Send + 'static,
    ensures serves { Serves (S.serves service.now) (link_now L.addresses L.accepted L.owed L.conns L.given link.old)
        (link_now L.addresses L.accepted L.owed L.conns L.given link.new) }
    ensures count { OnOk result (L.accepted link.new ≡ L.accepted link.old + n) }
    ensures most { L.accepted link.new ≤ L.accepted link.old + n }
    ensures faults { Counts result (L.faults link.old) (L.faults link.new) }
{
    let mut line = Line::<ServeTask<L::Conn, S>, SharedFlag>::new(alloc);
    let answer = accept_all(alloc, service, link, spawner, n, &mut line);
    finish(link, spawner, &mut line);
    answer
}
