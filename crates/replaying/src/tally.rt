// How many cases agreed and how many differed.
ghost use Rattle.std.specs.Prelude.{◌≡◌, ◌+◌, min, if◌then◌else◌};

use std::fmt;

#[derive(Clone, Copy, Debug, Default, PartialEq, Eq)]
pub struct Tally {
    pub agreed: u64,
    pub differed: u64,
}

impl Tally {
    // Counts a case more, as far as the numbers go.
    pub fn count(&mut self, agrees: bool)
        ensures agreed { self.new.agreed ≡ (if agrees then min (self.old.agreed + 1) u64.MAX else self.old.agreed) }
        ensures differed { self.new.differed ≡ (if agrees then self.old.differed else min (self.old.differed + 1) u64.MAX) }
    {
        if agrees {
            self.agreed = self.agreed.saturating_add(1);
        } else {
            self.differed = self.differed.saturating_add(1);
        }
    }
}

impl fmt::Display for Tally {
    fn fmt<W: fmt::Write>(&self, f: &mut fmt::Formatter<W>) -> fmt::Result {
        let agreed = self.agreed;
        let differed = self.differed;
        write!(f, "{agreed} agreed, {differed} differed")
    }
}
