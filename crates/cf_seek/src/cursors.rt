//! Up to which heights what is known of the blocks of the peers' chains.
ghost use Rattle.std.specs.Prelude.{◌≡◌, ◌≤◌, ℕ, true, false, replicate, slice_index_or, slice_set, vec_len, IfOk};
ghost use Rattle.cf_seek.specs.Cursors.{fallen, further, lowered, marks_at, no_marks, raised, reached_to, settled, unpassed, unsought};

use cf_bytes::{NoMemory, PLACES, PeerNo};
use cf_headers::Change;
use std::alloc::Global;
use std::marker::Model;

/// Up to which heights a peer claims its blocks, no filter of them is to be asked for that isn't open, and none of them
/// is to be fetched that isn't.
#[derive(Clone, Copy, Debug)]
pub struct Marks {
    pub claimed: u32,
    pub sought: u32,
    pub passed: u32,
}

const NO_MARKS: Marks = Marks {
    claimed: 0,
    sought: 0,
    passed: 0,
};

impl Marks {
    // No higher than a height.
    fn lowered(self, most: u32) -> Marks
        ensures { result ≡ lowered self most }
    {
        Marks {
            claimed: self.claimed.min(most),
            sought: self.sought.min(most),
            passed: self.passed.min(most),
        }
    }

    /// With so much claimed. The others go up to two heights as far as those are claimed.
    pub fn raised(self, claimed: u32, sought: u32, passed: u32) -> Marks
        ensures { result ≡ raised self claimed sought passed }
    {
        Marks {
            claimed,
            sought: self.sought.max(sought.min(claimed)),
            passed: self.passed.max(passed.min(claimed)),
        }
    }

    /// With no less claimed and sought than up to a height, if there is one.
    pub fn reached(self, top: Option<u32>) -> Marks
        ensures { result ≡ reached_to top self }
    {
        match top {
            Some(top) => Marks {
                claimed: self.claimed.max(top),
                sought: self.sought.max(top),
                passed: self.passed,
            },
            None => self,
        }
    }
}

/// Marks for each peer's number up to 8. Contracts see their list.
#[derive(Drop)]
pub struct Cursors {
    marks: Vec<Marks>,
    ghost nine: { vec_len marks ≡ 9 },
}

impl Model for Cursors {
    ghost use Rattle.std.specs.Prelude.{List};
    ghost use Rattle.cf_seek.specs.declared.cursors.Marks.{Marks};

    ghost Value = { List Marks };

    ghost view = { λ c. c.marks.items };
}

impl Cursors {
    /// All at height 0.
    pub fn new(alloc: Global) -> Result<Cursors, NoMemory>
        ensures { IfOk result (λ c. c ≡ replicate 9 no_marks) }
    {
        Ok(Cursors {
            marks: vec![in alloc; NO_MARKS; PLACES]?,
        })
    }

    /// A peer's marks; all 0 for a number above 8.
    pub fn of(&self, p: PeerNo) -> Marks
        ensures { result ≡ marks_at self.now p.0 }
    {
        self.marks.get(p.0 as usize).copied().unwrap_or(NO_MARKS)
    }

    /// Puts the marks of a peer with a number up to 8.
    pub fn put(&mut self, p: PeerNo, marks: Marks)
        ensures { self.new ≡ slice_set self.old p.0 marks }
    {
        if let Some(old) = self.marks.get_mut(p.0 as usize) {
            *old = marks;
        }
    }

    /// Nothing is known of a peer with a number up to 8.
    pub fn clear(&mut self, p: PeerNo)
        ensures { self.new ≡ slice_set self.old p.0 no_marks }
    {
        self.put(p, NO_MARKS);
    }

    /// A peer with a number up to 8 claims its blocks up to a height.
    pub fn claim(&mut self, p: PeerNo, claimed: u32)
        ensures { self.new ≡ further self.old p.0 claimed }
    {
        let marks = self.of(p);
        self.put(p, Marks { claimed, ..marks });
    }

    /// A peer's marks fall to the height up to which its chain stays the same.
    pub fn fall(&mut self, p: PeerNo, change: Change)
        ensures { self.new ≡ fallen self.old p.0 change }
    {
        if let Change::Longer(link) = change {
            let marks = self.of(p);
            self.put(p, marks.lowered(link));
        }
    }

    /// Filters and blocks are looked for anew along each peer's chain.
    pub fn unseek(&mut self)
        ensures { (q : ℕ) → marks_at self.new q ≡ unsought (marks_at self.old q) }
    {
        for marks in self.marks.iter_mut() {
            marks.sought = 0;
            marks.passed = 0;
        }
    }

    /// Whether blocks are looked for from the lowest along each peer's chain.
    pub fn is_unpassed(&self) -> bool
        ensures yes { result ≡ true → (q : ℕ) → marks_at self.now q ≡ unpassed (marks_at self.now q) }
        ensures no { result ≡ false → ((q : ℕ) → marks_at self.now q ≡ unpassed (marks_at self.now q)) → ⊥ }
    {
        self.marks.iter().all(|marks| marks.passed == 0)
    }

    /// Blocks are looked for anew along each peer's chain.
    pub fn unpass(&mut self)
        ensures { (q : ℕ) → marks_at self.new q ≡ unpassed (marks_at self.old q) }
    {
        for marks in self.marks.iter_mut() {
            marks.passed = 0;
        }
    }

    /// How many numbers have marks; those from there on have none.
    pub fn places(&self) -> u32
        ensures above { (q : ℕ) → result ≤ q → marks_at self.now q ≡ no_marks }
        ensures nine { result ≡ 9 }
    {
        self.marks.len() as u32
    }

    /// Filters are looked for anew along each peer's chain above the blocks that are passed.
    pub fn settle(&mut self)
        ensures { (q : ℕ) → marks_at self.new q ≡ settled (marks_at self.old q) }
    {
        for marks in self.marks.iter_mut() {
            marks.sought = marks.sought.min(marks.passed);
        }
    }
}
