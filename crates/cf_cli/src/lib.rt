//! The program: what each command does, and what is promised of its runs.
#![tactic(auto)]

mod program;

pub use cf_cli_demo::{demo_text, session};
pub use cf_cli_laws::laws_of_records;
pub use program::run;
