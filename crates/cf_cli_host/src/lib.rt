//! The process that a call of the program runs in: what it is given, what it goes over, and what its user is told on
//! standard error.
#![tactic(auto)]

mod advice;
mod cut_off;
mod descriptors;
mod edge;
mod failure;
mod faults;
mod given;
mod heard;
mod joined;
mod kept_file;
mod listener;
mod reasons;
mod record;
mod redial;
mod seen;
mod shown_files;
mod standing;
mod text_sink;
mod working;

pub use advice::tell_advice;
pub use descriptors::hold;
pub use edge::Edge;
pub use failure::{Asked, Failure};
pub use faults::{tell, tell_hint};
pub use given::{Dials, moment, nonce, read_dials, words_of};
pub use heard::{Front, Heard};
pub use joined::Joined;
pub use kept_file::KeptFile;
pub use listener::Listener;
pub use record::try_record;
pub use redial::{Call, MOST_REDIAL, Redial, RedialFault, is_follow, read_call, with_turns};
pub use seen::LineKind;
pub use shown_files::{Seen, ShownFiles};
pub use standing::tell_stands;
pub use text_sink::TextSink;
pub use working::Working;
