//! What is known of blocks.
ghost use Rattle.cf_dispute.specs.{tables_of};
ghost use Rattle.cf_tables.specs.{table_in, verdicts_in, IsKindAbove};

use crate::opens::Opens;
use cf_bytes::Hash32;
use cf_dispute::Claims;
use cf_tables::{BlockKind, Extracts, First, Judged, kind_above};

/// What is known of blocks, lent for a call.
#[derive(Clone, Copy)]
pub struct Known<'a> {
    /// The extracts of those that were fetched.
    pub extracts: &'a Extracts,
    /// What peers claim of their filters.
    pub claims: &'a Claims,
    /// The verdicts on the filters that came.
    pub judged: &'a Judged,
    /// What is open to whom.
    pub opens: &'a Opens,
    /// The first block, of which nothing is asked.
    pub first: &'a First,
}

impl Known<'_> {
    /// What is still to be done about a block; nothing about one that has the first block's hash.
    pub fn kind_above(self, block: &Hash32) -> BlockKind
        ensures { IsKindAbove (table_in self.entry.extracts.now) (tables_of self.entry.claims.now)
            (verdicts_in self.entry.judged.now) block.now.0 result }
    {
        kind_above(self.extracts, self.claims, self.judged, self.first, block)
    }
}
