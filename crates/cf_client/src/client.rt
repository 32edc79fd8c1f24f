//! The client: a machine that takes deliveries and says what is to be done.
ghost use Rattle.std.specs.Prelude.{◌≡◌, ℕ, ◌<◌, ◌≤◌, ◌+◌, ◌∷◌, [], OnOk, IfOk, OnErr, IsErr, None, true, false, length, vec_len, map, drop};
ghost use Rattle.std.specs.List.{list_any, All, count_by};
ghost use Rattle.cf_peer.specs.{IsDoable};
ghost use Rattle.cf_place.specs.{state_of, is_busy, is_here, IsGreeting, end_of, TellsGreeting};
ghost use Rattle.cf_client.specs.Settled.{AreSettled, AreRight};
ghost use Rattle.cf_hear.specs.{AreJudgedBy, IsUnjudged};
ghost use Rattle.cf_tracker.specs.{claims_of, seen_of};

use crate::ask::ask_all;
use crate::deliver::{cut_off, deliver};
use crate::held::{Held, held_of};
use cf_bytes::{Hash32, NoMemory, PeerNo};
use cf_headers::HeaderStore;
use cf_match::Matcher;
use cf_msg::{Bytes, Msg, NetAddress};
use cf_peer::{Act, Mode, Peer};
use cf_place::{Loss, PeerEnd, Place, State};
use cf_scan::{History, Watch};
use cf_tracker::{Report, Tracker};
use cf_wires::Delivery;
use std::alloc::Global;

/// A client of up to eight peers, over a store of the chains that they show and a matcher of filters.
#[derive(Drop)]
pub struct Client<H: HeaderStore, M: Matcher> {
    alloc: Global,
    // The moment and the number that its `version` tells.
    moment: i64,
    nonce: u64,
    // Whether it goes on once nothing is open.
    mode: Mode,
    // Set while a call works, and for good where one found no memory.
    dead: bool,
    // What is kept of each peer, by its number; place 0 is nobody's.
    places: Vec<Place>,
    // The peers' chains and claims, and what is kept of the filters that were judged and of the blocks that were
    // fetched.
    tracker: Tracker<H>,
    matcher: M,
    ghost few: { vec_len places ≤ 9 },
    ghost settled: { dead ≡ false → AreSettled mode places.items (seen_of tracker) },
    ghost right: { dead ≡ false → ∥ AreRight places.items (claims_of tracker) ∥₁ },
}

fn is_any_busy(places: &[Place]) -> bool
    ensures { result ≡ list_any is_busy places.now }
{
    places.iter().any(|place| place.is_busy())
}

fn is_any_here(places: &[Place]) -> bool
    ensures { result ≡ list_any is_here places.now }
{
    places.iter().any(|place| place.is_here())
}

// At how many places something is open.
fn count_busy(places: &[Place]) -> usize
    ensures { result ≡ count_by is_busy places.now }
{
    places.iter().filter(|place| place.is_busy()).count()
}

// The state that the places show.
fn state_of_places(places: &[Place]) -> State
    ensures { result ≡ state_of places.now }
{
    if is_any_busy(places) {
        State::Working
    } else if is_any_here(places) {
        State::Synced
    } else {
        State::NoPeers
    }
}

const NO_ADDRESS: NetAddress = NetAddress {
    services: 0,
    ip: [0; 16],
    port: 0,
};

// How the peers at these places stand.
fn ends_of(alloc: Global, places: &[Place]) -> Result<Vec<PeerEnd>, NoMemory>
    ensures { IfOk result (λ ends. ends.items ≡ map end_of places.now) }
{
    let mut ends = Vec::new(alloc);
    for place in places {
        ends.push(place.end())?;
    }
    Ok(ends)
}

// How the peers stand, whose places come after nobody's.
fn ends_of_peers(alloc: Global, places: &[Place]) -> Result<Vec<PeerEnd>, NoMemory>
    ensures { IfOk result (λ ends. ends.items ≡ map end_of (drop 1 places.now)) }
{
    match places {
        [] => Ok(Vec::new(alloc)),
        [_, peers @ ..] => ends_of(alloc, peers),
    }
}

// The version that a client sends.
fn greeting(alloc: Global, moment: i64, nonce: u64) -> Result<Msg, NoMemory>
    ensures greeting { IfOk result IsGreeting }
    ensures tells { IfOk result (TellsGreeting (record { moment = moment; number = nonce })) }
{
    let agent = Vec::from_slice(alloc, b"/cf:1/")?;
    Ok(Msg::Version {
        version: 70016,
        services: 0,
        time: moment,
        to: NO_ADDRESS,
        from: NO_ADDRESS,
        nonce,
        agent: Bytes::from_vec(agent),
        height: 0,
        relay: Some(0),
    })
}

impl<H: HeaderStore, M: Matcher> Client<H, M> {
    ghost use Rattle.cf_sync.specs.{RightlyIn, once};
    ghost use Rattle.cf_peer.specs.declared.mode.Mode.TheVariants.{Following};
    ghost use Rattle.cf_wires.specs.Log.{Log};
    ghost use Rattle.cf_wires.specs.declared.event.Event.TheVariants.{Took, Dialled, NotDialled};
    ghost use Rattle.cf_peer.specs.declared.act.Act.TheVariants.{Close};
    ghost use Rattle.cf_peer.specs.declared.peer.Cause.TheVariants.{SendFailed};
    ghost use Rattle.cf_place.specs.{after as done, ActTells, CutFor, Greets, IsState, EndsTell};
    ghost use Rattle.cf_client.specs.Order.{AreInOrder};
    ghost use Rattle.cf_client.specs.Steps.{Extends};
    ghost use Rattle.cf_client.specs.Holding.{Counts, HoldsNoMore};
    ghost use Rattle.cf_client.specs.Stands.{Reflects, Answers, ArePinged, AreTicked, IsBestTip, IsReportOf};
    ghost use Rattle.cf_client.specs.Stands.{IsHistoryTold, is_dead, open_count, count_of, rule_by, seen_by, watch_by};
    ghost use Rattle.cf_client.specs.Stands.{greeting_by, matcher_by, judging_by};
    ghost use Rattle.cf_client.specs.Blameless.{AreAskedOut, HasBlamed, IsBlameless, IsInnocent, AreAnswered};

    /// A client that knows of no peer yet, over a store in which no peer is entered. It watches these scripts, and
    /// matches filters with them by this matcher. Its `version` tells this moment, in seconds since 1970, and this
    /// number.
    pub fn new(
        alloc: Global,
        watch: Watch,
        store: H,
        matcher: M,
        moment: i64,
        nonce: u64,
    ) -> Result<Client<H, M>, NoMemory>
    where
        H: Drop,
        M: Drop,
        requires { (q : ℕ) → H.chain store q ≡ None }
        ensures reflects { IfOk result (λ c. Reflects c []) }
        ensures rule { IfOk result (λ c. rule_by c ≡ once watch) }
        ensures greeting { IfOk result (λ c. greeting_by c ≡ record { moment = moment; number = nonce }) }
        ensures count { IfOk result (λ c. count_of c ≡ 1) }
        ensures matcher { IfOk result (λ c. matcher_by c ≡ matcher) }
    {
        let mut places = Vec::new(alloc);
        places.push(Place::Lost(Loss::NotDialled))?;
        let tracker = Tracker::new(alloc, watch, store)?;
        Ok(Client {
            alloc,
            moment,
            nonce,
            mode: Mode::Once,
            dead: false,
            places,
            tracker,
            matcher,
        })
    }

    /// The client, before its first dial, as one that goes on once nothing is open: it hears a peer out again that
    /// tells of a block that isn't on that peer's own chain, and with a tick it sends a `ping` to each peer to which
    /// nothing is open.
    pub fn following(self) -> Client<H, M>
        requires untouched { Reflects self [] }
        requires alone { count_of self ≡ 1 }
        ensures reflects { Reflects result [] }
        ensures rule { rule_by result ≡ record { watch = watch_by self; mode = Following } }
        ensures greeting { greeting_by result ≡ greeting_by self }
        ensures count { count_of result ≡ 1 }
        ensures matcher { matcher_by result ≡ matcher_by self }
    {
        let mut client = self;
        client.mode = Mode::Following;
        client
    }

    /// A peer was dialled: the next in order, of at most eight. Here and in each call below, a client that has found no
    /// memory once answers so for good.
    pub fn dialled(&mut self, p: PeerNo, name: &str) -> Result<Vec<Act>, NoMemory>
        requires room { p.0 ≤ 8 }
        requires next { p.0 ≡ count_of self.old }
        ensures answers { IfOk result (λ acts. (log : Log) → Reflects self.old log
            → Answers self.new acts.items (Dialled p name.now ∷ log)) }
        ensures greets { IfOk result (λ acts. Greets (greeting_by self.old) p acts.items) }
        ensures doable { IfOk result (λ acts. All IsDoable acts.items) }
        ensures count { OnOk result (count_of self.new ≡ count_of self.old + 1) }
        ensures rule { OnOk result (rule_by self.new ≡ rule_by self.old) }
        ensures greeting { greeting_by self.new ≡ greeting_by self.old }
        ensures judged { OnOk result (IsUnjudged (judging_by self.old) (judging_by self.new)) }
        ensures dead { is_dead self.old ≡ true → IsErr result }
        ensures err { OnErr result (is_dead self.new ≡ true) }
    {
        // Contracts alone look at `name`.
        if self.dead {
            return Err(NoMemory);
        }
        self.dead = true;
        let mut acts = Vec::new(self.alloc);
        acts.push(Act::Send(p, greeting(self.alloc, self.moment, self.nonce)?))?;
        self.tracker.enter(p)?;
        self.places.push(Place::Here(Peer::called(self.alloc)))?;
        self.dead = false;
        Ok(acts)
    }

    /// The next peer in order could not be dialled.
    pub fn not_dialled(&mut self, p: PeerNo, name: &str) -> Result<(), NoMemory>
        requires room { p.0 ≤ 8 }
        requires next { p.0 ≡ count_of self.old }
        ensures reflects { OnOk result ((log : Log) → Reflects self.old log
            → Reflects self.new (NotDialled p name.now ∷ log)) }
        ensures count { OnOk result (count_of self.new ≡ count_of self.old + 1) }
        ensures rule { OnOk result (rule_by self.new ≡ rule_by self.old) }
        ensures greeting { greeting_by self.new ≡ greeting_by self.old }
        ensures judged { OnOk result (IsUnjudged (judging_by self.old) (judging_by self.new)) }
        ensures dead { is_dead self.old ≡ true → IsErr result }
        ensures err { OnErr result (is_dead self.new ≡ true) }
    {
        // Contracts alone look at `p` and `name`.
        if self.dead {
            return Err(NoMemory);
        }
        self.dead = true;
        self.places.push(Place::Lost(Loss::NotDialled))?;
        self.dead = false;
        Ok(())
    }

    /// Takes a delivery, and says what is to be done: first what is owed and who is closed, then what is asked, each
    /// from the lowest number on. With a tick a client that follows sends pings, and asks nothing else but of a peer
    /// for which no number of a ping is left; so what was open to a peer that is closed then is asked of others with a
    /// later delivery. Filters that come are judged by the client's matcher alone. Of a fetched block on whose filter
    /// the connected peers differ each is asked for the filter that it claims, and whoever claims one that is none, or
    /// that lacks an output's script, is closed: so that with nothing open all of these were tested, and none that
    /// omits is left.
    pub fn step(&mut self, d: &Delivery) -> Result<Vec<Act>, NoMemory>
        ensures answers { IfOk result (λ acts. (log : Log) → Reflects self.old log
            → Answers self.new acts.items (Took d.now ∷ log)) }
        ensures tells { IfOk result (λ acts. (log : Log) → Reflects self.old log
            → All (ActTells (greeting_by self.old)) acts.items) }
        ensures doable { IfOk result (λ acts. All IsDoable acts.items) }
        ensures count { count_of self.new ≡ count_of self.old }
        ensures rule { OnOk result (rule_by self.new ≡ rule_by self.old) }
        ensures greeting { greeting_by self.new ≡ greeting_by self.old }
        ensures judged { OnOk result (AreJudgedBy M.judges (watch_by self.old)
            (judging_by self.old) (judging_by self.new)) }
        ensures in_order { IfOk result (λ acts. (log : Log) → Reflects self.old log → AreInOrder acts.items) }
        ensures pings { IfOk result (λ acts. (log : Log) → Reflects self.old log
            → ArePinged (rule_by self.old).mode d.now (done acts.items (Took d.now ∷ log))) }
        ensures ticked { IfOk result (λ acts. (log : Log) → Reflects self.old log
            → AreTicked (rule_by self.old).mode d.now acts.items (Took d.now ∷ log)) }
        ensures blames { IfOk result (λ acts. (log : Log) → Reflects self.old log
            → HasBlamed (done acts.items (Took d.now ∷ log))) }
        ensures dead { is_dead self.old ≡ true → IsErr result }
        ensures err { OnErr result (is_dead self.new ≡ true) }
    {
        if self.dead {
            return Err(NoMemory);
        }
        self.dead = true;
        let mut acts = Vec::new(self.alloc);
        let places = self.places.as_mut_slice();
        deliver(
            self.alloc,
            self.mode,
            &mut self.tracker,
            &mut self.matcher,
            places,
            &mut acts,
            d,
        )?;
        ask_all(self.alloc, self.mode, &mut self.tracker, places, &mut acts)?;
        self.dead = false;
        Ok(acts)
    }

    /// A send to a peer has failed. The first that is to be done is to close it; then others are asked, the lowest
    /// number first. A number that isn't in use closes nobody.
    pub fn send_failed(&mut self, p: PeerNo) -> Result<Vec<Act>, NoMemory>
        ensures answers { IfOk result (λ acts. (log cut : Log) → p.0 < count_of self.old → Reflects self.old log
            → CutFor p log cut → Answers self.new acts.items cut) }
        ensures unused { IfOk result (λ acts. count_of self.old ≤ p.0 → (log : Log) → Reflects self.old log
            → Answers self.new acts.items log) }
        ensures tells { IfOk result (λ acts. (log cut : Log) → p.0 < count_of self.old → Reflects self.old log
            → CutFor p log cut → All (ActTells (greeting_by self.old)) acts.items) }
        ensures first { IfOk result (λ acts. p.0 < count_of self.old → Extends (Close p SendFailed ∷ []) acts.items) }
        ensures doable { IfOk result (λ acts. All IsDoable acts.items) }
        ensures count { count_of self.new ≡ count_of self.old }
        ensures rule { OnOk result (rule_by self.new ≡ rule_by self.old) }
        ensures greeting { greeting_by self.new ≡ greeting_by self.old }
        ensures judged { OnOk result (IsUnjudged (judging_by self.old) (judging_by self.new)) }
        ensures in_order { IfOk result (λ acts. AreInOrder acts.items) }
        ensures dead { is_dead self.old ≡ true → IsErr result }
        ensures err { OnErr result (is_dead self.new ≡ true) }
    {
        if self.dead {
            return Err(NoMemory);
        }
        self.dead = true;
        let mut acts = Vec::new(self.alloc);
        let places = self.places.as_mut_slice();
        cut_off(&mut self.tracker, places, &mut acts, p)?;
        ask_all(self.alloc, self.mode, &mut self.tracker, places, &mut acts)?;
        self.dead = false;
        Ok(acts)
    }

    /// The number of the next peer in order.
    pub fn next_number(&self) -> PeerNo
        ensures { result.0 ≡ count_of self.now }
    {
        PeerNo(self.places.len() as u32)
    }

    /// The state: `Working` where something is open, else `Synced` where a peer is connected, else `NoPeers`. Between
    /// two calls no connected peer deserves to be closed, nor claims a filter that was tested and omits an output's
    /// script, each was sent the client's version and what is owed to its messages, and each with nothing open was
    /// asked all that is asked of it. It takes no memory.
    pub fn state(&self) -> State
        ensures state { (log : Log) → Reflects self.now log → IsState result log }
        ensures nobody { (log : Log) → Reflects self.now log → IsInnocent log }
        ensures blameless { (log : Log) → Reflects self.now log → RightlyIn Following log → IsBlameless log }
        ensures answered { (log : Log) → Reflects self.now log → AreAnswered log }
        ensures blamed { (log : Log) → Reflects self.now log → HasBlamed log }
        ensures asked_out { (log : Log) → Reflects self.now log → AreAskedOut (rule_by self.now) log }
    {
        state_of_places(self.places.as_slice())
    }

    /// The height and the hash of the best chain's tip. It takes no memory.
    pub fn tip(&self) -> (u32, Hash32)
        ensures { (log : Log) → Reflects self.now log → IsBestTip result.0 result.1 log }
    {
        self.tracker.tip()
    }

    /// How many requests are open: to each connected peer at most one is, the handshake or another. It takes no memory.
    pub fn open_requests(&self) -> u32
        ensures { (log : Log) → Reflects self.now log → result ≡ open_count log }
    {
        count_busy(self.places.as_slice()) as u32
    }

    /// How much it keeps: no more than the log calls for. It takes no memory.
    pub fn held(&self) -> Held
        ensures counted { Counts (seen_by self.now) result }
        ensures few { (log : Log) → Reflects self.now log → HoldsNoMore H.counts result log }
    {
        held_of(&self.tracker, self.places.as_slice())
    }

    /// The best chain's tip, and the history of its blocks that were fetched, both of one moment.
    pub fn report(&mut self) -> Result<Report, NoMemory>
        ensures report { IfOk result (λ r. (log : Log) → Reflects self.old log
            → IsReportOf (rule_by self.old) r.height r.tip r.history log) }
        ensures same { OnOk result (self.new ≡ self.old) }
        ensures dead { is_dead self.old ≡ true → IsErr result }
        ensures err { OnErr result (is_dead self.new ≡ true) }
    {
        if self.dead {
            return Err(NoMemory);
        }
        // What is told is of scripts that may be watched.
        let _scripts = self.tracker.watch().scripts();
        match self.tracker.report() {
            Ok(report) => Ok(report),
            Err(NoMemory) => {
                self.dead = true;
                Err(NoMemory)
            }
        }
    }

    /// The history of the best chain's blocks that were fetched.
    pub fn history(&mut self) -> Result<History, NoMemory>
        ensures history { IfOk result (λ entries. (log : Log) → Reflects self.old log
            → IsHistoryTold (rule_by self.old) entries log) }
        ensures same { OnOk result (self.new ≡ self.old) }
        ensures dead { is_dead self.old ≡ true → IsErr result }
        ensures err { OnErr result (is_dead self.new ≡ true) }
    {
        let report = self.report()?;
        Ok(report.history)
    }

    /// How each peer stands, by its number from 1.
    pub fn ends(&mut self) -> Result<Vec<PeerEnd>, NoMemory>
        ensures tell { IfOk result (λ ends. (log : Log) → Reflects self.old log → EndsTell ends.items log) }
        ensures same { OnOk result (self.new ≡ self.old) }
        ensures dead { is_dead self.old ≡ true → IsErr result }
        ensures err { OnErr result (is_dead self.new ≡ true) }
    {
        if self.dead {
            return Err(NoMemory);
        }
        match ends_of_peers(self.alloc, self.places.as_slice()) {
            Ok(ends) => Ok(ends),
            Err(NoMemory) => {
                self.dead = true;
                Err(NoMemory)
            }
        }
    }
}
