// Activities as doubles, and the step that is added to them.
#![tactic(auto)]

ghost use Rattle.std.specs.Prelude.{◌≡◌};
ghost use Rattle.activity.specs.Step as spec;

// The activity of a fresh variable, and the fresh step.
pub const ZERO_ACTIVITY: f64 = 0.0;

pub const FRESH_INC: f64 = 1.0;

pub const FRESH_DECAY: f64 = 0.95;

// The dividend of a decay's quotient.
pub const ONE: f64 = 1.0;

// Above the limit every activity and the step are multiplied by 1e-100.
pub const LIMIT: f64 = 1e100;

pub const SHRINK: f64 = 1e-100;

// What a good state holds: activities and steps at most these, decays in this range.
pub const MAX_ACTIVITY: f64 = 1e101;

pub const MAX_INC: f64 = 1e200;

pub const MIN_DECAY: f64 = 0.5;

pub const MAX_DECAY: f64 = 1.0;

// The step added by a bump, and the decay by which it grows.
#[derive(Clone, Copy)]
pub struct Step {
    pub inc: f64,
    pub decay: f64,
}

impl Step {
    pub fn fresh() -> Step
        ensures { result ≡ spec.fresh_step }
    {
        Step {
            inc: FRESH_INC,
            decay: FRESH_DECAY,
        }
    }

    // The step divided by the decay, as the source does it: times the rounded quotient.
    pub fn decayed(self) -> Step
        ensures { result ≡ spec.decayed self }
    {
        Step {
            inc: self.inc * (ONE / self.decay),
            ..self
        }
    }

    pub fn with_decay(self, d: f64) -> Step
        ensures { result ≡ spec.with_decay self d }
    {
        Step { decay: d, ..self }
    }

    pub fn scaled(self) -> Step
        ensures { result ≡ spec.scaled self }
    {
        Step {
            inc: self.inc * SHRINK,
            ..self
        }
    }

    // Refusal 13: the decayed step would be above 1e200.
    pub fn large_step(self) -> bool
        ensures { result ≡ spec.large_step self }
    {
        self.decayed().inc > MAX_INC
    }

    // Whether the step is good: without sign bit, no NaN, at most 1e200, with a decay from 0.5 to 1.
    pub fn good_step(self) -> bool
        ensures { result ≡ spec.good_step self }
    {
        within(MAX_INC, self.inc) && good_decay(self.decay)
    }
}

// Whether a decay is from 0.5 to 1. Refusal 12 comes where it is not: it is NaN, below 0.5 or above 1.
pub fn good_decay(d: f64) -> bool
    ensures { result ≡ spec.good_decay d }
{
    MIN_DECAY <= d && d <= MAX_DECAY
}

// Multiplies every activity by 1e-100.
pub fn scale_all(activity: &mut [f64])
    ensures { activity.new ≡ spec.scale_all activity.old }
{
    for x in activity.iter_mut() {
        *x *= SHRINK;
    }
}

// Whether x is without sign bit, no NaN, and at most hi.
pub fn within(hi: f64, x: f64) -> bool
    ensures { result ≡ spec.within hi x }
{
    x <= hi && x.is_sign_positive()
}
