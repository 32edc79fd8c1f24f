//! What a client's tables hold of a log: the extracts of fetched blocks, claims, verdicts, open requests and tests;
//! what these tell of what is wanted, and how they go on with the log; and which question is to be asked next.
//! Definitions, and the laws that follow from them alone.
#![tactic(auto)]

mod laws;

pub use laws::{
    a_history_of_extracts_is_the_scan, a_table_grows, what_is_kept_of_open_requests_goes_on,
    what_is_kept_of_tests_goes_on, what_is_kept_tells_what_is_open,
    what_is_kept_tells_what_is_tested, what_is_kept_tells_what_is_wanted,
};
