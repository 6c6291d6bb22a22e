//! When the next attempt is due, and what was counted.

ghost use Rattle.std.specs.Prelude.{◌≡◌};
ghost use Rattle.mon_courier.specs.Plan.{after_delivery, after_failure, after_loss, after_refusal, failure_news, delivery_news, first_plan};

use crate::news::{Cause, News};

/// The pause after the first failed attempt, in milliseconds.
const MIN_PAUSE: u64 = 1_000;

/// The longest pause between two attempts, in milliseconds.
const MAX_PAUSE: u64 = 60_000;

/// When the next attempt is due, and what was counted.
#[derive(Clone, Copy, Debug, PartialEq, Eq)]
pub(crate) struct Plan {
    /// When the next attempt may begin, in milliseconds.
    pub due: u64,
    /// The pause after the next failed attempt, in milliseconds.
    pub pause: u64,
    /// The last attempt failed, or those before a refusal.
    pub is_failing: bool,
    /// How many texts could not be made.
    pub lost: u64,
    /// How many texts the receiver refused for good.
    pub refused: u64,
}

impl Plan {
    /// Returns the plan at the start.
    pub(crate) fn first() -> Self
        ensures { result ≡ first_plan }
    {
        Plan {
            due: 0,
            pause: MIN_PAUSE,
            is_failing: false,
            lost: 0,
            refused: 0,
        }
    }

    /// Returns the plan after an attempt failed.
    pub(crate) fn after_failure(self, now: u64) -> Self
        ensures { result ≡ after_failure now self }
    {
        Plan {
            due: now.saturating_add(self.pause),
            pause: self.pause.saturating_add(self.pause).min(MAX_PAUSE),
            is_failing: true,
            lost: self.lost,
            refused: self.refused,
        }
    }

    /// Returns the plan after a text was delivered.
    pub(crate) fn after_delivery(self, now: u64) -> Self
        ensures { result ≡ after_delivery now self }
    {
        Plan {
            due: now,
            pause: MIN_PAUSE,
            is_failing: false,
            lost: self.lost,
            refused: self.refused,
        }
    }

    /// Returns the plan after the receiver refused a text for good.
    pub(crate) fn after_refusal(self, now: u64) -> Self
        ensures { result ≡ after_refusal now self }
    {
        Plan {
            due: now,
            pause: self.pause,
            is_failing: self.is_failing,
            lost: self.lost,
            refused: self.refused.saturating_add(1),
        }
    }

    /// Returns the plan after a text could not be made.
    pub(crate) fn after_loss(self) -> Self
        ensures { result ≡ after_loss self }
    {
        Plan {
            due: self.due,
            pause: self.pause,
            is_failing: self.is_failing,
            lost: self.lost.saturating_add(1),
            refused: self.refused,
        }
    }

    /// Returns what is said after an attempt failed: only of the first.
    pub(crate) fn failure_news(self, cause: Cause) -> Option<News>
        ensures { result ≡ failure_news cause self.is_failing }
    {
        if self.is_failing {
            None
        } else {
            Some(News::Fails(cause))
        }
    }

    /// Returns what is said after a delivery: only if deliveries failed before.
    pub(crate) fn delivery_news(self) -> Option<News>
        ensures { result ≡ delivery_news self.is_failing }
    {
        if self.is_failing {
            Some(News::Again)
        } else {
            None
        }
    }
}
