//! The serving machine of a chain that grows: it takes the blocks that its connections bring, and tells each of them of
//! the new tip. And the serving machines as services, of such a chain and of one that stands still.
#![tactic(auto)]

mod ending;
mod filter;
mod growing;
mod grown;
mod held;
mod joins;
mod keeper;
mod mark;
mod parts;
mod record;
mod refused;
mod sending;
mod serve;
mod server;
mod taking;

pub use ending::Ending;
pub use filter::HeldFilter;
pub use growing::GrowingServer;
pub use grown::{Grown, MOST_JOINED, Taken, take_locked};
pub use held::{Held, HeldBlock, HeldParts};
pub use joins::{Joins, Nobody};
pub use keeper::{Keeper, KeptBytes, Unkept};
pub use mark::{ServedMark, Shrunk, TakeFail, Tip};
pub use parts::Parts;
pub use serve::serve_grown;
pub use server::Server;
