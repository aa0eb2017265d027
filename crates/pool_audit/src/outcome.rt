// What was found of all reports together.
ghost use Rattle.std.specs.Prelude.{◌≡◌};
ghost use Rattle.pool_audit.specs.Outcomes.{exit_of, worse_of};

use pool_reports::State;

/// What was found of all reports together: the worst of what was found of each.
#[derive(Clone, Copy, Debug, PartialEq, Eq)]
pub enum Outcome {
    /// All are sound, and none has a concern; or there are none.
    Sound,
    /// All are sound, and one has concerns.
    Concerned,
    /// One is not sound.
    Unsound,
}

impl Outcome {
    /// That of one report, whose pool was in this state if it is sound.
    pub(crate) fn of(state: Option<State>) -> Outcome {
        match state {
            None => Outcome::Unsound,
            Some(State::Concerned) => Outcome::Concerned,
            Some(State::Well | State::Unknown) => Outcome::Sound,
        }
    }

    /// The worse one of two.
    pub(crate) fn or_worse(self, other: Outcome) -> Outcome
        ensures { result ≡ worse_of self other }
    {
        match (self, other) {
            (Outcome::Unsound, _) | (_, Outcome::Unsound) => Outcome::Unsound,
            (Outcome::Concerned, _) | (_, Outcome::Concerned) => Outcome::Concerned,
            _ => Outcome::Sound,
        }
    }

    /// The status that the program ends with.
    pub fn status(self) -> u8
        ensures { result ≡ exit_of self }
    {
        match self {
            Outcome::Sound => 0,
            Outcome::Unsound => 1,
            Outcome::Concerned => 7,
        }
    }
}
