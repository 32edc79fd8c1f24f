//! Tests that are no rows of cf_cases: a file for each crate that is tested here, in each test one text of rows and one
//! loop.
#![tactic(auto)]

#[cfg(test)]
mod blocks_file;
#[cfg(test)]
mod cf_bytes_tests;
#[cfg(test)]
mod cf_conn_tests;
#[cfg(test)]
mod cf_index_tests;
#[cfg(test)]
mod cf_link_tests;
#[cfg(test)]
mod cf_parallel_tests;
#[cfg(test)]
mod cf_peer_tests;
#[cfg(test)]
mod cf_server_tests;
#[cfg(test)]
mod cut_conn;
mod patient_conn;
