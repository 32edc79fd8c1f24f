//! The question that meets a want.
ghost use Rattle.std.specs.Prelude.{◌≤◌, IsSome, IfOk, length, max};
ghost use Rattle.cf_dispute.specs.{tables_of};
ghost use Rattle.cf_headers.specs.{own_of};
ghost use Rattle.cf_tables.specs.{table_in, verdicts_in, told_in};
ghost use Rattle.cf_seek.specs.OpensAll.{opens_in};
ghost use Rattle.cf_seek.specs.Seeking.{IsSought};
ghost use Rattle.cf_seek.specs.Spans.{GoesFar, IsWish};
ghost use Rattle.cf_seek.specs.Testing.{IsTrying};
ghost use Rattle.cf_seek.specs.Tried.{AreTried};

use crate::ends::claims_end;
use crate::known::Known;
use crate::seek::sought_end;
use crate::spans::{Wish, span_of};
use crate::testing::next_trial;
use crate::want::Want;
use cf_bytes::{NoMemory, PeerNo};
use cf_headers::HeaderStore;
use cf_tables::Tests;
use std::alloc::Global;

/// The question for what is wanted of a peer's blocks up to a height. It is about as many blocks in a row as may be
/// asked about at once. Where nothing is wanted it is for a filter that is to be tested. None of the peer's blocks up
/// to another height is; and up to where none is then comes with it.
pub fn wish_for<H: HeaderStore>(
    alloc: Global,
    store: &H,
    known: Known,
    p: PeerNo,
    want: Want,
    common: u32,
    tests: &Tests,
    tried: u32,
) -> Result<(u32, Wish), NoMemory>
    requires entered { IsSome (H.chain store.now p.0) }
    requires within { common ≤ length (own_of (H.chain store.now) p) }
    requires wanted { IsSought (table_in known.extracts.now) (tables_of known.claims.now) (verdicts_in known.judged.now)
        (opens_in known.opens.now) p.0 (own_of (H.chain store.now) p) common want }
    requires tried { AreTried (table_in known.extracts.now) (tables_of known.claims.now)
        (told_in tests.now) p.0 (own_of (H.chain store.now) p) tried }
    ensures tried { IfOk result (λ r. AreTried (table_in known.entry.extracts.now) (tables_of known.entry.claims.now)
        (told_in tests.now) p.0 (own_of (H.chain store.now) p) r.0) }
    ensures up { IfOk result (λ r. tried ≤ r.0) }
    ensures low { IfOk result (λ r. r.0 ≤ max tried common) }
    ensures wish { IfOk result (λ r. IsWish (table_in known.entry.extracts.now) (tables_of known.entry.claims.now)
        (verdicts_in known.entry.judged.now) (opens_in known.entry.opens.now) p.0 (own_of (H.chain store.now) p) common
        r.1) }
    ensures far { IfOk result (λ r. GoesFar (table_in known.entry.extracts.now) (tables_of known.entry.claims.now)
        (verdicts_in known.entry.judged.now) (opens_in known.entry.opens.now) p.0 (own_of (H.chain store.now) p) common
        r.1) }
    ensures trying { IfOk result (λ r. IsTrying (table_in known.entry.extracts.now) (tables_of known.entry.claims.now)
        (told_in tests.now) p.0 (own_of (H.chain store.now) p) common r.1) }
{
    match want {
        Want::Nothing => {
            let (tried, next) = next_trial(store, known, tests, p, tried, common);
            match next {
                Some(trial) => Ok((tried, Wish::Test(trial))),
                None => Ok((tried, Wish::Nothing)),
            }
        }
        Want::Claims(start) => {
            let end = claims_end(store, known, p, start, common);
            let span = span_of(alloc, store, p, start, end)?;
            Ok((tried, Wish::Claims(span)))
        }
        Want::Filters(start) => {
            let end = sought_end(store, known, p, start, common);
            let span = span_of(alloc, store, p, start, end)?;
            Ok((tried, Wish::Filters(span)))
        }
        Want::Block(height) => Ok((tried, Wish::Block(store.hash_at(p, height)))),
    }
}
