// A session in list mode.
ghost use Rattle.std.specs.Prelude.{refl};
ghost use Rattle.std.proofs.Common.{◌∙◌};
ghost use Rattle.list_session.specs.Memory as held;
ghost use Rattle.list_entry.specs.Entry.{list_mode};
ghost use Rattle.list_entry.specs.Checked.{list_sound};

use crate::Session;
use formula::Clauses;
use list_session::ListSession;
use lit::Refusal;
use session::Call;

impl Session for ListSession<'_> {
    ghost mode = { λ n m lits ends. list_mode n m lits };

    ghost sound = { list_sound };

    ghost held = { λ n m lits ends. held.session_in n m lits };

    ghost same_slices = { held.SameSlices };

    fn refusal(
        &self,
        n: u32,
        literals: u32,
        clauses: u32,
        list: Clauses<'_>,
        fits: bool,
    ) -> Result<(), Refusal> {
        list_entry::refusal(n, literals, clauses, list, self.view(), fits)
    }

    #[inline(always)]
    fn call(
        &mut self,
        n: u32,
        m: u32,
        list: Clauses<'_>,
        call: Call,
    ) -> Result<Option<u32>, Refusal> {
        self.step(n, m, call, &[], &mut [], &mut [])
    }

    fn group(
        &mut self,
        n: u32,
        m: u32,
        list: Clauses<'_>,
        vars: &[u32],
    ) -> Result<Option<u32>, Refusal> {
        self.group_unaided(n, vars)
    }

    ghost same_refl = { λ a. (refl, refl, refl, refl, refl, refl, refl, refl) };

    ghost same_trans = { λ a b c p q. (p.0 ∙ q.0, p.1 ∙ q.1, p.2 ∙ q.2, p.3 ∙ q.3, p.4 ∙ q.4, p.5 ∙ q.5, p.6 ∙ q.6, p.7 ∙ q.7) };
}
