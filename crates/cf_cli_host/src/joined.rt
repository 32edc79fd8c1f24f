//! What is told of the chain of `serve --grow`.
use cf_grow::Joins;
use cf_tell::Teller;

/// Tells on standard error the height of each block that joins the chain. Where standard error can't be written nothing
/// is told.
#[derive(Clone, Copy)]
pub struct Joined {
    teller: &'static Teller,
}

impl Joined {
    /// Nothing was told.
    pub fn new(teller: &'static Teller) -> Joined {
        Joined { teller }
    }
}

impl Joins for Joined {
    fn joined(&self, height: u32) {
        let _told = eprintln!(self.teller; "cf: block {height} has joined");
    }
}
