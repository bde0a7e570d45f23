// A session in heap mode.
ghost use Rattle.std.specs.Prelude.{refl};
ghost use Rattle.std.proofs.Common.{◌∙◌};
ghost use Rattle.heap_session.specs.Held as held;
ghost use Rattle.heap_entry.specs.Entry.{heap_mode};
ghost use Rattle.heap_entry.specs.Checked.{heap_sound};

use crate::Session;
use formula::Clauses;
use heap_session::{HeapSession, order};
use lit::Refusal;
use session::Call;

impl Session for HeapSession<'_> {
    ghost mode = { heap_mode };

    ghost sound = { heap_sound };

    ghost held = { held.session_in };

    ghost same_slices = { held.SameSlices };

    fn refusal(
        &self,
        n: u32,
        literals: u32,
        clauses: u32,
        list: Clauses<'_>,
        fits: bool,
    ) -> Result<(), Refusal> {
        heap_entry::refusal(n, literals, clauses, list, self.view(), fits)
    }

    fn call(
        &mut self,
        n: u32,
        m: u32,
        list: Clauses<'_>,
        call: Call,
    ) -> Result<Option<u32>, Refusal> {
        self.step(n, m, list, call, &[])
    }

    fn group(
        &mut self,
        n: u32,
        m: u32,
        list: Clauses<'_>,
        vars: &[u32],
    ) -> Result<Option<u32>, Refusal> {
        order::group(n, vars)
    }

    ghost same_refl = { λ a. (refl, refl, refl, refl, refl, refl, refl, refl, refl) };

    ghost same_trans = { λ a b c p q. (p.0 ∙ q.0, p.1 ∙ q.1, p.2 ∙ q.2, p.3 ∙ q.3, p.4 ∙ q.4, p.5 ∙ q.5, p.6 ∙ q.6, p.7 ∙ q.7, p.8 ∙ q.8) };
}
