// Literals and values, from lit.rs and assignments.rs, and the numbers of document 01.
#![tactic(auto)]

ghost use Rattle.std.specs.Prelude.{◌≡◌, ◌+◌, ◌*◌, ◌/◌, ◌<◌, ◌≤◌, length};
ghost use Rattle.lit.specs.Lits as spec;
ghost use Rattle.lit.specs.Refusals.{refusal_number};
ghost use Rattle.lit.specs.Unused as unused;

pub const NONE: u32 = 4294967295;

pub const UNASSIGNED: u8 = 2;

// A switch.
pub const ON: u8 = 1;

pub const OFF: u8 = 0;

// Limits.
pub const MAX_VARS: u32 = 2048;

pub const MAX_CLAUSES: u32 = 2048;

pub const MAX_LITERALS: u32 = 8192;

pub const MAX_GROUP: u32 = 2048;

pub const MAX_SHEET: u32 = 32768;

pub const ANSWER_ROOM: u32 = 24;

// The refusals, in checking order.
#[derive(Clone, Copy, PartialEq, Eq, Debug)]
pub enum Refusal {
    LongSheet = 1,
    ShortBuffer,
    BadLine,
    ManyVars,
    BadLength,
    BadClauses,
    BadState,
    NoVariable,
    BadPolarity,
    BadReason,
    Assigned,
    BadDecay,
    LargeStep,
    PastOpen,
    BadSaved,
}

impl Refusal {
    // The refusal's number, from 1 on.
    pub fn number(self) -> u32
        ensures { result ≡ refusal_number self }
    {
        self as u32
    }
}

// The numbers of refusals that are named alone.
pub const LONG_SHEET: u32 = 1;

pub const SHORT_BUFFER: u32 = 2;

pub const BAD_SAVED: u32 = 15;

// The variable of a literal.
pub fn index(code: u32) -> u32
    ensures { result ≡ spec.index code }
{
    code / 2
}

// The value that makes a literal hold: 1 when it is positive, else 0.
pub fn polarity(code: u32) -> u8
    ensures { result ≡ spec.polarity code }
{
    (code % 2) as u8
}

pub fn is_positive(code: u32) -> bool
    ensures { result ≡ spec.is_positive code }
{
    code % 2 == 1
}

// The literal of a variable with a polarity, 0 or 1.
pub fn new(v: u32, polarity: u8) -> u32
    requires { (v < 2147483648) × (polarity < 2) }
    ensures { result ≡ spec.new v polarity }
{
    2 * v + polarity as u32
}

// The literal of the same variable with the other polarity.
pub fn not(code: u32) -> u32
    ensures { result ≡ spec.negation code }
{
    if code % 2 == 1 { code - 1 } else { code + 1 }
}

// Whether the literal's variable is one of n.
pub fn check_lit_invariant(code: u32, n: u32) -> bool
    ensures { result ≡ spec.check_lit_invariant code n }
{
    code / 2 < n
}

// Whether the literal holds.
pub fn lit_sat(code: u32, values: &[u8]) -> bool
    requires { spec.index code < length values.now }
    ensures { result ≡ spec.lit_sat code values.now }
{
    values[(code / 2) as usize] == polarity(code)
}

// Whether the literal's negation holds.
pub fn lit_unsat(code: u32, values: &[u8]) -> bool
    requires { spec.index code < length values.now }
    ensures { result ≡ spec.lit_unsat code values.now }
{
    values[(code / 2) as usize] == 1 - polarity(code)
}

// Whether the literal's variable is unassigned.
pub fn lit_unset(code: u32, values: &[u8]) -> bool
    requires { spec.index code < length values.now }
    ensures { result ≡ spec.lit_unset code values.now }
{
    values[(code / 2) as usize] >= UNASSIGNED
}

// Whether the literal's variable is assigned.
pub fn lit_set(code: u32, values: &[u8]) -> bool
    requires { spec.index code < length values.now }
    ensures { result ≡ spec.lit_set code values.now }
{
    values[(code / 2) as usize] < UNASSIGNED
}

// Whether the literal is one of the clause's.
pub fn lit_in_clause(code: u32, clause: &[u32]) -> bool
    ensures { result ≡ spec.lit_in_clause code clause.now }
{
    clause.contains(&code)
}

// Makes every variable unassigned.
pub fn new_assignments(values: &mut [u8])
    ensures { values.new ≡ spec.new_assignments (length values.old) }
{
    values.fill(UNASSIGNED);
}

// Makes the literal hold.
pub fn set_assignment(values: &mut [u8], code: u32)
    requires { spec.index code < length values.old }
    ensures { values.new ≡ spec.set_assignment values.old code }
{
    values[(code / 2) as usize] = polarity(code);
}

// Whether the variable is assigned.
pub fn is_assigned(values: &[u8], v: u32) -> bool
    requires { v < length values.now }
    ensures { result ≡ spec.is_assigned values.now v }
{
    values[v as usize] < UNASSIGNED
}

// Whether every place from `used` on holds NONE.
pub fn unused_ok(a: &[u32], used: u32) -> bool
    requires { used ≤ length a.now }
    ensures { result ≡ unused.unused_ok a.now used }
{
    let mut ok = true;
    for x in &a[used as usize..] {
        if *x != NONE {
            ok = false;
        }
    }
    ok
}
