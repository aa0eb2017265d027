// The openings that workers have in hand.
ghost use Rattle.std.specs.Prelude.{◌≡◌, ◌+◌, ◌<◌, ◌^◌, nat_lt, slice_index, replicate, true};
ghost use Rattle.std.specs.Prelude.{false};
ghost use Rattle.pool_machine.specs.Openings.{one_more, one_less};

use std::marker::Model;

/// How many there are, for each number of tries up to 99.
#[derive(Drop)]
pub struct InWork {
    counts: [u32; 100],
}

impl Model for InWork {
    ghost use Rattle.std.specs.Prelude.{ℕ, List};

    ghost Value = { List ℕ };

    ghost view = { λ a. a.counts };
}

impl InWork {
    pub fn new() -> InWork
        ensures { result ≡ replicate 100 0 }
    {
        InWork { counts: [0; 100] }
    }

    pub fn add(&mut self, tries: u32)
        requires within { tries < 100 }
        requires fits { slice_index self.old tries + 1 < 2 ^ 32 }
        ensures { self.new ≡ one_more tries self.old }
    {
        self.counts[tries as usize] += 1;
    }

    /// Whether there is one with these tries.
    pub fn holds(&self, tries: u32) -> bool
        ensures is { result ≡ nat_lt 0 (slice_index self.now tries) }
        ensures within { result ≡ true → tries < 100 }
    {
        tries < 100 && self.counts[tries as usize] > 0
    }

    /// Takes one with these tries out, and says whether there was one.
    pub fn remove(&mut self, tries: u32) -> bool
        ensures is { result ≡ nat_lt 0 (slice_index self.old tries) }
        ensures rest { self.new ≡ one_less tries self.old }
        ensures same { result ≡ false → self.new ≡ self.old }
        ensures within { result ≡ true → tries < 100 }
    {
        if !self.holds(tries) {
            return false;
        }
        self.counts[tries as usize] -= 1;
        true
    }

    pub fn clear(&mut self)
        ensures { self.new ≡ replicate 100 0 }
    {
        self.counts = [0; 100];
    }
}
