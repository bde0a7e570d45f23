// A session of either mode, for code that does not look at its chooser: lists of calls, the lines of a sheet.
#![tactic(auto)]

ghost use Rattle.std.specs.Prelude.{◌≡◌, true, ℕ, List, [], ◌≤◌, length};
ghost use Rattle.lit.specs.Numbers as number;
ghost use Rattle.lit.specs.Refusals.{status_of};
ghost use Rattle.formula.specs.Clauses.{clauses_ok};
ghost use Rattle.book.specs.Calls.{group};
ghost use Rattle.book.specs.Session as book;
ghost use Rattle.session.specs.Calls.{call_of};
ghost use Rattle.session.specs.Checks.{state_refusal};
ghost use Rattle.session.specs.Entered.{Sound};
ghost use Rattle.session.specs.Entry.{Answered, reply_of};
ghost use Rattle.session.specs.Mode.{Mode, lengths_ok};

use formula::Clauses;
use lit::Refusal;
use session::Call;

mod heap_mode;
mod list_mode;

pub trait Session: Drop {
    // Over n variables and m clauses with these literals and ends: the mode, what it calls good, and what the session holds.
    ghost mode: { (n m : ℕ) (lits ends : List ℕ) → Mode };

    ghost sound: { (n m : ℕ) (lits ends : List ℕ) → Sound n m (mode n m lits ends) lits ends };

    ghost held: { (n m : ℕ) (lits ends : List ℕ) → Self → book.Session n m (mode n m lits ends).ops };
    // it holds the same slices as before
    ghost same_slices: { Self → Self → Type 0 };

    // The refusal of a session that was lent, if there is one; whether what is lent beside it fits is known.
    fn refusal(
        &self,
        n: u32,
        literals: u32,
        clauses: u32,
        list: Clauses<'_>,
        fits: bool,
    ) -> Result<(), Refusal>
        ensures refused { let lits = list.entry.lits.now in let ends = list.entry.ends.now in
            let lent = held n clauses lits ends self.now in
            let lengths = lengths_ok n clauses (mode n clauses lits ends) lits literals ends lent fits in
            status_of result ≡ state_refusal n lengths (clauses_ok n lits ends) ((mode n clauses lits ends).state lent.trail lent.chooser) }
        ensures good { let lits = list.entry.lits.now in let ends = list.entry.ends.now in
            status_of result ≡ 0 → (sound n clauses lits ends).Good (held n clauses lits ends self.now) × (fits ≡ true) };

    // A call that is no group on a good session.
    fn call(
        &mut self,
        n: u32,
        m: u32,
        list: Clauses<'_>,
        call: Call,
    ) -> Result<Option<u32>, Refusal>
        requires { let lits = list.lits.now in let ends = list.ends.now in
            (sound n m lits ends).Good (held n m lits ends self.old) }
        ensures answered { let lits = list.entry.lits.now in let ends = list.entry.ends.now in
            let before = held n m lits ends self.old in
            Answered (book.call n m (mode n m lits ends).ops before (call_of call [])) before (status_of result) (reply_of result) (held n m lits ends self.new) }
        ensures same_slices { same_slices self.old self.new };

    // A group on a good session.
    fn group(
        &mut self,
        n: u32,
        m: u32,
        list: Clauses<'_>,
        vars: &[u32],
    ) -> Result<Option<u32>, Refusal>
        requires good { let lits = list.lits.now in let ends = list.ends.now in
            (sound n m lits ends).Good (held n m lits ends self.old) }
        requires few { length vars.now ≤ number.max_group }
        ensures answered { let lits = list.entry.lits.now in let ends = list.entry.ends.now in
            let before = held n m lits ends self.old in
            Answered (book.call n m (mode n m lits ends).ops before (group vars.now)) before (status_of result) (reply_of result) (held n m lits ends self.new) }
        ensures same_slices { same_slices self.old self.new };

    ghost same_refl: { (a : Self) → same_slices a a };

    ghost same_trans: { (a b c : Self) → same_slices a b → same_slices b c → same_slices a c };
}
