//! Chains as they are served: what the serving machine of a chain answers.
#![tactic(auto)]

ghost use Rattle.std.specs.Prelude.{◌≡◌, ◌≢◌, Bool, ℕ, ℤ, suc, ◌+◌, ◌-◌, ◌<◌, ◌≤◌, List, [], ◌∷◌, length, slice_get, option_map, Some, None, false, true};
ghost use Rattle.cf_bytes.specs.declared.hash.Hash32.{Hash32};
ghost use Rattle.cf_block.specs.declared.tx.Block.{Block};
ghost use Rattle.cf_msg.specs.declared.msg.Msg.{Msg};
ghost use Rattle.cf_msg.specs.declared.msg.Msg.TheVariants.{GetHeaders, Headers, GetCfilters, GetCfheaders, GetCfcheckpt};
ghost use Rattle.cf_msg.specs.{is_version};
ghost use Rattle.cf_chain.specs.Filters.{filter_at};
ghost use Rattle.cf_chain.specs.Grow.{Asking, IsAnsweredAlone, IsToldFirst, NotMet, TipTold, growing_answers, grow_answer, mark_at};
ghost use Rattle.cf_chain.specs.Heights.{block_height};
ghost use Rattle.cf_chain.specs.Serve.{reply_to, replies_to, cfilter_of};

/// Genesis alone has no headers to tell, whatever a locator knows. Nothing is answered before a version, and no second
/// version is. Another filter type than the basic one isn't answered, nor is a stop hash that isn't in the chain, nor a
/// range that begins above its end or is too long: from 1001 filters, and from 2001 filter headers. A range of at most
/// 1000 filters is answered by one message for each height, in order.
pub fn laws_of_replies()
    ensures genesis { (version : ℕ) (first : Hash32) (more : List Hash32) (stop : Hash32)
        → reply_to [] (GetHeaders version (first ∷ more) stop) ≡ Headers [] ∷ [] }
    ensures before { (moment : ℤ) (nonce : ℕ) (blocks : List Block) (m : Msg) → is_version m ≡ false
        → replies_to moment nonce blocks false m ≡ [] }
    ensures second { (moment : ℤ) (nonce : ℕ) (blocks : List Block) (m : Msg) → is_version m ≡ true
        → replies_to moment nonce blocks true m ≡ [] }
    ensures other_type { (blocks : List Block) (filter start : ℕ) (stop : Hash32) → filter ≢ 0
        → (reply_to blocks (GetCfilters filter start stop) ≡ [])
        × (reply_to blocks (GetCfheaders filter start stop) ≡ []) × (reply_to blocks (GetCfcheckpt filter stop) ≡ []) }
    ensures unknown_stop { (blocks : List Block) (filter start : ℕ) (stop : Hash32) → block_height stop blocks ≡ None
        → (reply_to blocks (GetCfilters filter start stop) ≡ [])
        × (reply_to blocks (GetCfheaders filter start stop) ≡ []) × (reply_to blocks (GetCfcheckpt filter stop) ≡ []) }
    ensures turned { (blocks : List Block) (start last : ℕ) (stop : Hash32)
        → block_height stop blocks ≡ Some last → last < start
        → (reply_to blocks (GetCfilters 0 start stop) ≡ []) × (reply_to blocks (GetCfheaders 0 start stop) ≡ []) }
    ensures long_filters { (blocks : List Block) (start last : ℕ) (stop : Hash32) → block_height stop blocks ≡ Some last
        → start + 1000 ≤ last → reply_to blocks (GetCfilters 0 start stop) ≡ [] }
    ensures long_headers { (blocks : List Block) (start last : ℕ) (stop : Hash32) → block_height stop blocks ≡ Some last
        → start + 2000 ≤ last → reply_to blocks (GetCfheaders 0 start stop) ≡ [] }
    ensures each { (blocks : List Block) (start last height : ℕ) (stop : Hash32) → block_height stop blocks ≡ Some last
        → start ≤ height → height ≤ last → last < start + 1000 → slice_get (reply_to blocks (GetCfilters 0 start stop))
        (height - start) ≡ option_map cfilter_of (filter_at blocks height) }
    ensures no_more { (blocks : List Block) (start last : ℕ) (stop : Hash32) → block_height stop blocks ≡ Some last
        → start ≤ last → last < start + 1000 → length (reply_to blocks (GetCfilters 0 start stop)) ≡ suc last - start }
{}

/// A chain that grows, and many askers: each is answered as if it were alone and found the chain as it stood with each
/// of its messages, whatever the others ask. Nothing is answered before a version. A tip that the asker wasn't told of
/// is told first; at the mark the answer is the chain's own.
pub fn laws_of_growing()
    ensures alone { (moment : ℤ) (nonce : ℕ) (fits : List Block → Block → Bool) (blocks : List Block) (asked : List Asking)
        (c : ℕ) → IsAnsweredAlone moment nonce fits blocks asked c }
    ensures before { (moment : ℤ) (nonce : ℕ) (blocks : List Block) (m : Msg) → is_version m ≡ false
        → (grow_answer moment nonce blocks NotMet m).replies ≡ [] }
    ensures at_mark { (moment : ℤ) (nonce : ℕ) (blocks : List Block) (m : Msg)
        → (grow_answer moment nonce blocks (mark_at blocks) m).replies ≡ growing_answers moment nonce blocks true m }
    ensures told { (moment : ℤ) (nonce height : ℕ) (hash : List ℕ) (blocks : List Block) (m : Msg) → height < length blocks
        → IsToldFirst moment nonce blocks (grow_answer moment nonce blocks (TipTold height hash) m) m }
{}
