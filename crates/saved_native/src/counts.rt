// The entry that tells mode and counts of a saved text, so that a host can set up memory for it.
ghost use Rattle.saved_text.specs.Reading.{read_text};
ghost use Rattle.saved_native.specs.Counts.{CountsTold};

use lit::Refusal;
use saved_text::form::read_form;

// The mode of a saved text, 0 for the heap and 1 for the list, its variables, literals and clauses. Refused, nothing changes.
pub fn sigvort_saved_counts(
    text: &[u8],
    list: &mut u32,
    n: &mut u32,
    literals: &mut u64,
    clauses: &mut u64,
) -> u32
    ensures { CountsTold (read_text text.now) result list.old n.old literals.old clauses.old list.new n.new literals.new clauses.new }
{
    let Some(c) = read_form(text) else {
        return Refusal::BadSaved.number();
    };
    let s = c.clauses;
    *list = c.mode as u32;
    *n = c.n;
    *literals = s.literals as u64;
    *clauses = s.count as u64;
    0
}
