// What both modes share: the calls of a session, and the tests of arguments.
#![tactic(auto)]

ghost use Rattle.std.specs.Prelude.{◌≡◌};
ghost use Rattle.book.specs.Chooser.{below, good_reason};

use lit::NONE;

pub mod entry;
pub mod on_trail;

// The eleven calls. The variables of a group are a slice beside the call.
#[derive(Clone, Copy)]
pub enum Call {
    // a variable
    Bump(u32),
    Decay,
    SetDecay(f64),
    // a variable
    Insert(u32),
    SwitchOff(u32),
    // a polarity
    Decide(u32),
    // a code and a reason
    Enqueue(u32, u32),
    // a code
    LearnUnit(u32),
    // a level
    GoBack(u32),
    // a variable
    BumpReason(u32),
    Group,
}

// Whether each variable of a group is one of n.
pub fn vars_below(n: u32, vars: &[u32]) -> bool
    ensures { result ≡ below n vars.now }
{
    vars.iter().all(|v| *v < n)
}

// Whether a reason is NONE or the number of one of m clauses.
pub fn good_reason(m: u32, reason: u32) -> bool
    ensures { result ≡ good_reason m reason }
{
    reason == NONE || reason < m
}
