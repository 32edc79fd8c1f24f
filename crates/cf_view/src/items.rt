//! Items that are read from lent bytes one after another.
ghost use Rattle.std.specs.Prelude.{◌≡◌, ℕ, List, ◌++◌, length, IfOk, Ok};
ghost use Rattle.std.specs.List.{flat_map, AllByRecursion};
ghost use Rattle.cf_bytes.specs.{Read, Reads};
ghost use Rattle.cf_view.specs.Lent.{AreThere, items_in, GivesFirst};
ghost use Rattle.cf_view.specs.Items.{LendsItems};

use cf_bytes::Cut;

/// The bytes that items are read from, and how many are left.
#[derive(Clone, Copy)]
pub struct Items<'a> {
    pub rest: &'a [u8],
    pub left: u64,
}

impl<'a> Items<'a> {
    /// Passes over so many items, each read by a call of `read`, and lends their bytes.
    pub fn pass<T: Drop, E: Drop, F: Fn(&mut Cut<'a>) -> Result<T, E>>(
        count: u64,
        cut: &mut Cut<'a>,
        read: F,
    ) -> Result<Items<'a>, E>
        requires { F.IsAlwaysCallable read }
        ensures exact { (item : List ℕ → Read T E)
            → ((old : _) (r : _) (new : _) → F.post read old r new → Reads (λ x. x) (item old.now) r new.now)
            → LendsItems item count cut.old result cut.new }
        ensures found { (item : List ℕ → Read T E) (spell : T → List ℕ)
            → ((old : _) (r : _) (new : _) → F.post read old r new → Reads (λ x. x) (item old.now) r new.now)
            → ((old : _) (r : _) (new : _) → F.post read old r new → IfOk r (λ x. old.now ≡ spell x ++ new.now))
            → IfOk result (λ i. cut.old ≡ flat_map spell (items_in item i.left i.rest.now) ++ cut.new) }
        ensures fits { (item : List ℕ → Read T E)
            → ((old : _) (r : _) (new : _) → F.post read old r new → Reads (λ x. x) (item old.now) r new.now)
            → IfOk result (λ i. (length (items_in item i.left i.rest.now) ≡ count) × AllByRecursion
            (λ x. (old : _) × (new : _) × F.post read old (Ok x) new) (items_in item i.left i.rest.now)) }
    {
        let rest = cut.rest();
        for _ in 0..count {
            read(cut)?;
        }
        Ok(Items { rest, left: count })
    }

    /// The first that is left, read by a call of `read`, if one is.
    pub fn next<T: Drop, E: Drop, F: Fn(&mut Cut<'a>) -> Result<T, E>>(
        &mut self,
        read: F,
    ) -> Option<T>
        requires { F.IsAlwaysCallable read }
        ensures { (item : List ℕ → Read T E)
            → ((old : _) (r : _) (new : _) → F.post read old r new → Reads (λ x. x) (item old.now) r new.now)
            → AreThere item self.old.left self.old.rest.now
            → AreThere item self.new.left self.new.rest.now
            × GivesFirst (items_in item self.old.left self.old.rest.now) result
            (items_in item self.new.left self.new.rest.now) }
    {
        if self.left == 0 {
            return None;
        }
        let mut cut = Cut::new(self.rest);
        let Ok(item) = read(&mut cut) else {
            return None;
        };
        self.rest = cut.rest();
        self.left -= 1;
        Some(item)
    }
}
