//! Laws of what a client keeps: functions that do nothing, whose contracts say them.
ghost use Rattle.cf_headers.specs.{CountsOnce};
ghost use Rattle.cf_wires.specs.Log.{Log};
ghost use Rattle.cf_client.specs.declared.held.Held.{Held};
ghost use Rattle.cf_client.specs.Holding.{HoldsNoMore, KeepsHeaders};

/// Over a store that counts each header once, as `Tree` of cf_headers, the headers that a client keeps are the
/// different ones above genesis on the connected peers' own chains.
pub fn laws_of_holding()
    ensures { (held : Held) (log : Log) → HoldsNoMore CountsOnce held log → KeepsHeaders log held.headers }
{}
