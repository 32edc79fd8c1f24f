//! Peers in memory, as wires.
ghost use Rattle.std.specs.Prelude.{◌≡◌, ◌≢◌, ◌≤◌, ◌<◌, ◌+◌, ◌++◌, ◌∷◌, ℕ, suc, [], List, Some, map, reverse, length, OnOk, OnErr, IfOk, IsErrOf, IsSome, IfSome, true, false, not, vec_len, vec_capacity, slice_get, string_bytes, drop, slice_index_or, slice_set};
ghost use Rattle.std.specs.List.{count_by, list_all};
ghost use Rattle.cf_wires.specs.declared.event.Delivery.TheVariants.{Tick};
ghost use Rattle.cf_wires.specs.declared.event.Event.TheVariants.{Closed, Took};
ghost use Rattle.cf_wires.specs.{tally_of};
ghost use Rattle.cf_wires.specs.Log.{Log};
ghost use Rattle.cf_played.specs.Answers.{is_staying};
ghost use Rattle.cf_peer.specs.{spelled};
ghost use Rattle.cf_played.specs.Peers.{AreGood, shown};
ghost use Rattle.cf_played.specs.Players.{AreAccounted, Gives, HearsAt};
ghost use Rattle.cf_played.specs.Turns.{last_served};
ghost use Rattle.cf_played.specs.Ways.{way_of};

use crate::checking::checked;
use crate::kind::{Manner, Way};
use crate::omitting::filters_without;
use crate::player::Player;
use crate::turns::next_turn;
use crate::waiting::Waiting;
use cf_bytes::{Listed, NoMemory, PLACES, PeerNo, Refused};
use cf_index::{CheckedChain, Index};
use cf_make::Chain;
use cf_walk::BadBlock;
use cf_wires::{Delivery, Event, Name, Piece, WireFail, Wires, put_deliveries, put_dials};
use std::alloc::Global;
use std::thread::Threads;

/// The seconds of a tick.
const TICK: u32 = 60;

/// Peers in memory. The first dial reaches the first that was added, the second the second, whatever the names; a dial
/// behind the last one reaches nobody who answers. Each answers at once what it is sent, and what it answers waits to
/// be delivered. They always tell their log.
#[derive(Drop)]
pub struct Played {
    alloc: Global,
    players: Vec<Player>,
    // The place behind the peer that was served last.
    from: usize,
    dials: u32,
    // Which peers were closed, by their numbers.
    closed: [bool; PLACES],
    log: Vec<Event>,
    // Whether the log is to be kept.
    keeps: bool,
    // Whether they are finished.
    finished: bool,
    ghost dials_are: { (tally_of (reverse log.items)).dials ≡ dials },
    ghost closed_are: { (tally_of (reverse log.items)).closed ≡ closed },
    ghost few: { vec_len players ≤ 8 },
    ghost turn: { last_served (reverse log.items) ≡ from },
    ghost room: { vec_len log + count_by not closed ≤ vec_capacity log },
    ghost accounts: { ∥ AreAccounted (reverse log.items) players.items ∥₁ },
    ghost stays: { list_all is_staying (reverse log.items) ≡ true },
}

// A peer of whom nothing waits, and that was told nothing.
fn new_player(
    rt: &(impl Threads + Sync),
    alloc: Global,
    chain: CheckedChain,
    kind: Manner,
) -> Result<Player, NoMemory>
    ensures blocks { IfOk result (λ player. player.index ≡ chain) }
    ensures way { IfOk result (λ player. player.way ≡ way_of kind) }
    ensures unseen { IfOk result (λ player. player.seen ≡ false) }
    ensures none { IfOk result (λ player. player.waiting ≡ []) }
{
    let way = match &kind {
        Manner::Honest => Way::Honest,
        Manner::Silent => Way::Silent,
        Manner::Omits(_) => Way::Omits,
    };
    let filters = match &kind {
        Manner::Honest | Manner::Silent => Listed::new(alloc),
        Manner::Omits(scripts) => filters_without(alloc, &chain, scripts.as_slice())?,
    };
    let index = Index::of(rt, alloc, chain)?;
    Ok(Player {
        index,
        way,
        filters,
        seen: false,
        waiting: Waiting::new(alloc),
    })
}

// The peers' chains are good, as their indexes know.
fn see_good(players: &[Player])
    ensures { AreGood (map shown players.now) }
{
    for player in players {
        // An index has a good chain.
        let _height = player.index.tip();
    }
}

// Puts an entry at the end of the log, for which there is room.
fn note(log: &mut Vec<Event>, e: Event)
    requires { vec_len log.old < vec_capacity log.old }
    ensures items { log.new.items ≡ log.old.items ++ e ∷ [] }
    ensures len { vec_len log.new ≡ vec_len log.old + 1 }
    ensures capacity { vec_capacity log.old ≤ vec_capacity log.new }
{
    log.push(e).unwrap();
}

// Puts a close at the end of the log. The room for it was there from the start.
fn shut(log: &mut Vec<Event>, closed: &mut [bool; PLACES], p: PeerNo)
    requires room { vec_len log.old + count_by not closed.old ≤ vec_capacity log.old }
    requires dialled { p.0 ≤ 8 }
    requires once { slice_index_or closed.old p.0 false ≡ false }
    ensures items { log.new.items ≡ log.old.items ++ Closed p ∷ [] }
    ensures closed { closed.new ≡ slice_set closed.old p.0 true }
    ensures room { vec_len log.new + count_by not closed.new ≤ vec_capacity log.new }
{
    log.push(Event::Closed(p)).unwrap();
    closed[p.0 as usize] = true;
}

// The peer with this number, if there is one, answers what was sent to it.
#[tactic(auto, using(crate::proofs::Hears::hears))]
fn hear_at(alloc: Global, players: &mut [Player], p: PeerNo, bytes: &[u8]) -> Result<(), NoMemory>
    ensures ok { OnOk result (HearsAt players.old p.0 (spelled bytes.now) players.new) }
    ensures len { length players.new ≡ length players.old }
    ensures err { OnErr result (players.new ≡ players.old) }
{
    let number = p.0 as usize;
    if number == 0 {
        return Ok(());
    }
    if number > players.len() {
        return Ok(());
    }
    players[number - 1].hear(alloc, bytes)
}

// The next piece of the bytes that wait of a peer, and a copy of it.
#[derive(Drop)]
struct Given {
    piece: Piece,
    kept: Piece,
}

// Takes the next piece of the bytes that wait of the peer at a place.
fn give_at(alloc: Global, players: &mut [Player], place: usize) -> Result<Given, NoMemory>
    requires { place < length players.old }
    ensures gives { IfOk result (λ given. Gives players.old place given.piece players.new) }
    ensures kept { IfOk result (λ given. given.kept ≡ given.piece) }
    ensures len { length players.new ≡ length players.old }
    ensures err { OnErr result (players.new ≡ players.old) }
{
    let piece = Piece::from_slice(alloc, players[place].waiting.front())?;
    let kept = Piece::from_slice(alloc, piece.as_slice())?;
    players[place].waiting.pass();
    Ok(Given { piece, kept })
}

impl Played {
    ghost use Rattle.cf_wires.specs.{Tells};
    ghost use Rattle.cf_chain.specs.{IsGoodChain};
    ghost use Rattle.cf_played.specs.Peers.{Peer, made_of, still};
    ghost use Rattle.cf_played.specs.Told.{HasAdded, IfRefused, log_of, told_of, keeps_of, finished_of, peers_of};
    ghost use Rattle.cf_played.specs.Answers.{came, told_to, answered_to, is_plain, HasBegun, HasAnswered, HasBegunAlike};

    /// No peers.
    pub fn new(alloc: Global) -> Result<Played, NoMemory>
        ensures log { IfOk result (λ w. log_of w ≡ []) }
        ensures peers { IfOk result (λ w. peers_of w ≡ []) }
        ensures keeps { IfOk result (λ w. keeps_of w ≡ false) }
        ensures finished { IfOk result (λ w. finished_of w ≡ false) }
    {
        Ok(Played {
            alloc,
            players: Vec::new(alloc),
            from: 0,
            dials: 0,
            closed: [false; PLACES],
            log: Vec::with_capacity(alloc, PLACES)?,
            keeps: false,
            finished: false,
        })
    }

    /// Adds a peer that serves a chain, at most eight in all. All are added before the first dial. A chain is refused
    /// where it isn't good. Where it is refused, or no memory is found, nothing has changed.
    #[tactic(auto, using(crate::proofs::Accounts::added_so))]
    pub fn add(
        &mut self,
        rt: &(impl Threads + Sync),
        chain: &Chain,
        kind: Manner,
    ) -> Result<(), Refused<BadBlock>>
        requires new { log_of self.old ≡ [] }
        requires few { length (peers_of self.old) < 8 }
        ensures ok { OnOk result (HasAdded chain.now kind (peers_of self.old) (peers_of self.new)) }
        ensures bad { IfRefused result (¬ (IsGoodChain chain.now)) }
        ensures err { OnErr result (peers_of self.new ≡ peers_of self.old) }
        ensures log { log_of self.new ≡ log_of self.old }
        ensures keeps { keeps_of self.new ≡ keeps_of self.old }
        ensures finished { finished_of self.new ≡ finished_of self.old }
    {
        let chain = checked(self.alloc, chain)?;
        let player = new_player(rt, self.alloc, chain, kind)?;
        self.players.push(player)?;
        Ok(())
    }

    /// How many peers were added.
    pub fn len(&self) -> usize
        ensures { result ≡ length (peers_of self.now) }
    {
        self.players.len()
    }

    /// Of a peer whose filters are its chain's, the bytes that were delivered and those that wait are exactly the
    /// frames of its answers to the messages that the sends to it spell: of an honest one the machine's replies. At
    /// every earlier moment those that were delivered were a beginning of them, and whenever seconds passed they were
    /// all. Of any peer, at every moment those that were delivered were a beginning of the frames of messages that are
    /// like the machine's replies, one by one: the same, or both of them tell of filters. No dial and no send fails,
    /// and nobody goes.
    pub fn accounts(&self)
        ensures now { (i : ℕ) (peer : Peer) → slice_get (peers_of self.now) i ≡ Some peer → is_plain peer.way ≡ true
            → came (log_of self.now) (suc i) ++ peer.waiting
            ≡ answered_to peer.way peer.blocks (told_to (log_of self.now) (suc i)) }
        ensures past { (i k : ℕ) (peer : Peer) → slice_get (peers_of self.now) i ≡ Some peer → is_plain peer.way ≡ true
            → HasBegun peer.way peer.blocks (drop k (log_of self.now)) (suc i) }
        ensures ticks { (i k s : ℕ) (older : Log) (peer : Peer) → slice_get (peers_of self.now) i ≡ Some peer
            → is_plain peer.way ≡ true → drop k (log_of self.now) ≡ Took (Tick s) ∷ older
            → HasAnswered peer.way peer.blocks older (suc i) }
        ensures alike { ∥ ((i k : ℕ) (peer : Peer) → slice_get (peers_of self.now) i ≡ Some peer
            → HasBegunAlike peer.way peer.blocks (drop k (log_of self.now)) (suc i)) ∥₁ }
        ensures stays { list_all is_staying (log_of self.now) ≡ true }
    {}

    /// What the wires are made to give, which no call of `Wires` changes, tells the peers: how each answers, and its
    /// chain. So after any calls they are those that were added.
    pub fn same_peers(&self)
        ensures good { AreGood (peers_of self.now) }
        ensures same { (peers : List Peer) → AreGood peers → made_of peers ≡ made_of (peers_of self.now)
            → map still peers ≡ map still (peers_of self.now) }
    {
        // The peers' chains are good.
        see_good(&self.players);
    }
}

impl Wires for Played {
    ghost use Rattle.cf_wires.specs.declared.event.Event.TheVariants.{Dialled, NotDialled, Sent, SendFailed};
    ghost use Rattle.cf_wires.specs.{tell, HasCause, Tells, told_finished, was_closed};
    ghost use Rattle.cf_played.specs.Peers.{HasMore, made_of};
    ghost use Rattle.cf_played.specs.Told.{log_of, told_of, keeps_of, peers_of};
    ghost use Rattle.cf_played.specs.Turns.{IsNext};

    ghost told = { λ w. told_of w };

    ghost faults = { λ _. 0 };

    ghost script = { λ w. made_of (peers_of w) };

    ghost keeps = { λ w. w.keeps };

    fn keep_log(&mut self)
        requires { Tells [] (told_of self.old) }
        ensures told { Tells [] (told_of self.new) }
        ensures log { IsSome (told_of self.new).log }
        ensures finished { (told_of self.new).finished ≡ (told_of self.old).finished }
        ensures keeps { self.new.keeps ≡ true }
        ensures later { 0 ≤ 0 }
        ensures same { made_of (peers_of self.new) ≡ made_of (peers_of self.old) }
        ensures peers { peers_of self.new ≡ peers_of self.old }
    {
        self.keeps = true;
    }

    /// It never fails, whatever the name.
    #[tactic(auto, using(crate::proofs::Accounts::kept_so, crate::proofs::Accounts::dialled_so))]
    fn dial(&mut self, name: &str) -> Result<PeerNo, WireFail>
        requires { (told_of self.old).tally.dials < 8 }
        ensures dialled { IfOk result (λ p. (p.0 ≡ (told_of self.old).tally.dials + 1)
            × (told_of self.new ≡ tell (Dialled p name.now) (told_of self.old))) }
        ensures not_dialled { IsErrOf result WireFail.Failed → told_of self.new
            ≡ tell (NotDialled (record { 0 = (told_of self.old).tally.dials + 1 }) name.now) (told_of self.old) }
        ensures no_memory { IsErrOf result WireFail.NoMemory → told_of self.new ≡ told_of self.old }
        ensures cause { HasCause 0 0 result }
        ensures keeps { self.new.keeps ≡ self.old.keeps }
        ensures same { made_of (peers_of self.new) ≡ made_of (peers_of self.old) }
        ensures peers { peers_of self.new ≡ peers_of self.old }
    {
        let name = Name::from_text(self.alloc, name)?;
        self.log.reserve(10)?;
        let p = PeerNo(self.dials + 1);
        note(&mut self.log, Event::Dialled(p, name));
        self.dials += 1;
        Ok(p)
    }

    /// It never fails. The peer answers at once, whether it was dialled or not; what it answers is put behind what
    /// waits.
    #[tactic(auto, using(crate::proofs::Accounts::kept_so, crate::proofs::Accounts::sent_so))]
    fn send(&mut self, p: PeerNo, bytes: &[u8]) -> Result<(), WireFail>
        ensures sent { OnOk result (told_of self.new ≡ tell (Sent p bytes.now) (told_of self.old)) }
        ensures not_sent { IsErrOf result WireFail.Failed → told_of self.new ≡ tell (SendFailed p) (told_of self.old) }
        ensures no_memory { IsErrOf result WireFail.NoMemory → told_of self.new ≡ told_of self.old }
        ensures cause { HasCause 0 0 result }
        ensures keeps { self.new.keeps ≡ self.old.keeps }
        ensures same { made_of (peers_of self.new) ≡ made_of (peers_of self.old) }
        ensures more { OnOk result (HasMore (peers_of self.old) p.0 (peers_of self.new)) }
        ensures err { OnErr result (peers_of self.new ≡ peers_of self.old) }
    {
        let piece = Piece::from_slice(self.alloc, bytes)?;
        self.log.reserve(10)?;
        hear_at(self.alloc, &mut self.players, p, bytes)?;
        note(&mut self.log, Event::Sent(p, piece));
        Ok(())
    }

    #[tactic(auto, using(crate::proofs::Accounts::closed_so))]
    fn close(&mut self, p: PeerNo)
        requires dialled { p.0 ≤ 8 }
        requires once { was_closed (told_of self.old).tally p.0 ≡ false }
        ensures closed { told_of self.new ≡ tell (Closed p) (told_of self.old) }
        ensures later { 0 ≤ 0 }
        ensures keeps { self.new.keeps ≡ self.old.keeps }
        ensures same { made_of (peers_of self.new) ≡ made_of (peers_of self.old) }
        ensures peers { peers_of self.new ≡ peers_of self.old }
    {
        shut(&mut self.log, &mut self.closed, p);
    }

    /// The first 4,096 bytes that wait of the next peer in turn, from the one served last on, or all where there are
    /// fewer; 60 seconds pass where none wait of anybody.
    #[tactic(auto, using(crate::proofs::Accounts::deliveries_so))]
    fn next(&mut self) -> Result<Delivery, NoMemory>
        ensures took { IfOk result (λ d. told_of self.new ≡ tell (Took d) (told_of self.old)) }
        ensures err { OnErr result (told_of self.new ≡ told_of self.old) }
        ensures later { 0 ≤ 0 }
        ensures keeps { self.new.keeps ≡ self.old.keeps }
        ensures same { made_of (peers_of self.new) ≡ made_of (peers_of self.old) }
        ensures turn { IfOk result
            (λ d. IsNext (peers_of self.old) (last_served (log_of self.old)) d (peers_of self.new)) }
        ensures kept { OnErr result (peers_of self.new ≡ peers_of self.old) }
    {
        self.log.reserve(10)?;
        let Some(place) = next_turn(&self.players, self.from) else {
            note(&mut self.log, Event::Took(Delivery::Tick(TICK)));
            return Ok(Delivery::Tick(TICK));
        };
        let p = PeerNo(place as u32 + 1);
        let given = give_at(self.alloc, &mut self.players, place)?;
        self.from = place + 1;
        note(&mut self.log, Event::Took(Delivery::Got(p, given.kept)));
        Ok(Delivery::Got(p, given.piece))
    }

    fn finish(&mut self)
        requires { (told_of self.old).finished ≡ false }
        ensures told { told_of self.new ≡ told_finished (told_of self.old) }
        ensures later { 0 ≤ 0 }
        ensures keeps { self.new.keeps ≡ self.old.keeps }
        ensures same { made_of (peers_of self.new) ≡ made_of (peers_of self.old) }
        ensures peers { peers_of self.new ≡ peers_of self.old }
    {
        self.finished = true;
    }

    fn session(&self) -> Result<String, NoMemory> {
        let mut text = String::new(self.alloc);
        if self.keeps {
            put_dials(&self.log, &mut text)?;
            put_deliveries(self.alloc, &self.log, &mut text)?;
        }
        Ok(text)
    }
}
