//! Whose turn it is.
ghost use Rattle.std.specs.Prelude.{map};
ghost use Rattle.cf_played.specs.Peers.{shown};
ghost use Rattle.cf_played.specs.Turns.{IsFoundFrom, IsTurn};

use crate::player::Player;

// The first peer at or behind a place of whom bytes wait.
fn first_from(players: &[Player], from: usize) -> Option<usize>
    ensures { IsFoundFrom (map shown players.now) from result }
{
    for i in from..players.len() {
        if !players[i].waiting.is_empty() {
            return Some(i);
        }
    }
    None
}

// The first peer of whom bytes wait, in turn from a place on: behind the last one the first follows again.
pub(crate) fn next_turn(players: &[Player], from: usize) -> Option<usize>
    ensures { IsTurn (map shown players.now) from result }
{
    match first_from(players, from) {
        Some(i) => Some(i),
        None => first_from(players, 0),
    }
}
