// Lists of calls in either mode: the memory that was lent is checked once, then the calls are done and answered one after another.
#![tactic(auto)]

ghost use Rattle.std.specs.Prelude.{◌≡◌, ◌+◌, ◌*◌, ◌≤◌, length, set};
ghost use Rattle.lit.specs.Refusals.{status_of};
ghost use Rattle.book.specs.Read.{called};
ghost use Rattle.session.specs.Entry.{Answered, reply_of};
ghost use Rattle.words.specs.Words.{word_call, calls_in, entered_words};
ghost use Rattle.words.specs.Going.{call_at, Told};
ghost use Rattle.words.specs.Going as going;

use forms::Asked;
use formula::Clauses;
use lit::{NONE, Refusal};
use mode::Session;
use words::{put, read_words, words_fit};

// Writes what the i-th call gave.
fn tell(i: usize, answers: &mut [u32], given: Result<Option<u32>, Refusal>)
    requires { i * 2 + 2 ≤ length answers.old }
    ensures { answers.new ≡ set (set answers.old (i * 2) (status_of given)) (i * 2 + 1) (reply_of given) }
{
    match given {
        Ok(reply) => put(i, answers, 0, reply.unwrap_or(NONE)),
        Err(e) => put(i, answers, e.number(), NONE),
    }
}

// Three words on a good session: the call that they are, or refusal 3.
fn words_call<S: Session>(
    vars: &[u32],
    letter: u32,
    a: u32,
    b: u32,
    n: u32,
    m: u32,
    list: Clauses<'_>,
    session: &mut S,
) -> Result<Option<u32>, Refusal>
    requires { let lits = list.lits.now in let ends = list.ends.now in
        (S.sound n m lits ends).Good (S.held n m lits ends session.old) }
    ensures answered { let lits = list.entry.lits.now in let ends = list.entry.ends.now in
        let before = S.held n m lits ends session.old in
        let wanted = called n m (S.mode n m lits ends).ops before (word_call vars.now letter a b) in
        Answered wanted before (status_of result) (reply_of result) (S.held n m lits ends session.new) }
    ensures same_slices { S.same_slices session.old session.new }
{
    match read_words(vars, letter, a, b) {
        None => Err(Refusal::BadLine),
        Some(Asked::Group) => {
            let from = a as usize;
            let end = from + b as usize;
            session.group(n, m, list, &vars[from..end])
        }
        Some(Asked::Is(call)) => session.call(n, m, list, call),
    }
}

// Does the i-th call of a list on a good session and answers it.
fn one_call<S: Session>(
    i: usize,
    vars: &[u32],
    calls: &[u32],
    answers: &mut [u32],
    n: u32,
    m: u32,
    list: Clauses<'_>,
    session: &mut S,
)
    requires i_in_bounds { (i * 3 + 3 ≤ length calls.now) × (i * 2 + 2 ≤ length answers.old) }
    requires good { let lits = list.lits.now in let ends = list.ends.now in
        (S.sound n m lits ends).Good (S.held n m lits ends session.old) }
    ensures told { let lits = list.entry.lits.now in let ends = list.entry.ends.now in
        let held = S.held n m lits ends in
        Told n m (S.mode n m lits ends).ops (call_at vars.now calls.now i) i (held session.old) answers.old (held session.new) answers.new }
    ensures same_slices { S.same_slices session.old session.new }
{
    let given = words_call(
        vars,
        calls[i * 3],
        calls[i * 3 + 1],
        calls[i * 3 + 2],
        n,
        m,
        list,
        session,
    );
    tell(i, answers, given);
}

// Does the calls of a list in turn on a good session and answers them.
fn run_calls<S: Session>(
    count: usize,
    vars: &[u32],
    calls: &[u32],
    answers: &mut [u32],
    n: u32,
    m: u32,
    list: Clauses<'_>,
    session: &mut S,
)
    requires calls_len { (length calls.now ≡ count * 3) × (length answers.old ≡ count * 2) }
    requires good { let lits = list.lits.now in let ends = list.ends.now in
        (S.sound n m lits ends).Good (S.held n m lits ends session.old) }
    ensures ran { let lits = list.entry.lits.now in let ends = list.entry.ends.now in
        let held = S.held n m lits ends in
        let ops = (S.mode n m lits ends).ops in
        let list = calls_in vars.now calls.now in
        (held session.new ≡ going.ends n m ops (held session.old) list) × (answers.new ≡ going.tells n m ops (held session.old) list) }
    ensures same_slices { S.same_slices session.old session.new }
{
    for i in 0..count {
        one_call(i, vars, calls, answers, n, m, list, session);
    }
}

// A list of calls in words on a session that was lent, which is checked once.
pub fn enter<S: Session>(
    n: u32,
    literals: u32,
    clauses: u32,
    list: Clauses<'_>,
    session: &mut S,
    vars: &[u32],
    calls: &[u32],
    answers: &mut [u32],
) -> Result<Option<u32>, Refusal>
    ensures answered { let lits = list.entry.lits.now in let ends = list.entry.ends.now in
        let held = S.held n clauses lits ends in
        let out = answers.old in
        let wanted = entered_words n clauses (S.mode n clauses lits ends) lits literals ends vars.now calls.now (length out) (held session.old) in
        Answered wanted (held session.old, out) (status_of result) (reply_of result) (held session.new, answers.new) }
    ensures same_slices { S.same_slices session.old session.new }
{
    session.refusal(
        n,
        literals,
        clauses,
        list,
        words_fit(calls.len(), answers.len()),
    )?;
    run_calls(
        calls.len() / 3,
        vars,
        calls,
        answers,
        n,
        clauses,
        list,
        session,
    );
    Ok(None)
}
