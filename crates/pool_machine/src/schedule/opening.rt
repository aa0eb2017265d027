// An opening that was ordered.
ghost use Rattle.std.specs.Prelude.{◌≡◌, ℕ, ◌+◌};
ghost use Rattle.std.specs.Duration.{as_nanos};
ghost use Rattle.pool_machine.specs.Openings.{is_before};

use crate::steps::Steps;
use std::marker::Model;
use std::sync::ledger::Ledger;
use std::time::Duration;

/// When an opening is due, and how often it failed.
#[derive(Drop)]
pub struct Opening {
    due: Duration,
    tries: u32,
}

impl Model for Opening {
    ghost use Rattle.std.specs.Prelude.{ℕ};
    ghost use Rattle.std.specs.Duration.{as_nanos};
    ghost use Rattle.pool_machine.specs.Openings.{SeenOpening};

    ghost Value = { SeenOpening };

    ghost view = { λ e. record { due = as_nanos e.due; tries = e.tries } };
}

impl Opening {
    pub fn new(due: Duration, tries: u32) -> Opening
        ensures { result ≡ record { due = as_nanos due; tries = tries } }
    {
        Opening { due, tries }
    }

    pub fn due(&self) -> Duration
        ensures { as_nanos result ≡ self.now.due }
    {
        self.due
    }

    pub fn tries(&self) -> u32
        ensures { result ≡ self.now.tries }
    {
        self.tries
    }

    /// Whether this one comes first: the only way to compare two, and one step.
    #[tactic(auto, unfolding(crate::specs::Openings::is_before))]
    pub fn is_before<L: Ledger>(&self, other: &Opening, steps: &mut Steps<L>) -> bool
        ensures value { result ≡ is_before self.now other.now }
        ensures cost { steps.new ≡ steps.old + 1 }
    {
        steps.tick();
        let due = self.due.as_nanos();
        let other_due = other.due.as_nanos();
        due < other_due || due == other_due && self.tries < other.tries
    }
}
