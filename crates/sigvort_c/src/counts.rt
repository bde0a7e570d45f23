// What the text of a saved session tells of its size.
ghost use Rattle.saved_text.specs.Reading.{read_text};
ghost use Rattle.saved_native.specs.Counts.{CountsTold};

// The mode of a saved text, 0 for the heap and 1 for the list, its variables, literals and clauses. Refused, nothing changes.
#[unsafe(no_mangle)]
pub extern "C" fn sigvort_saved_counts(
    text: &[u8],
    list: &mut u32,
    n: &mut u32,
    literals: &mut u64,
    clauses: &mut u64,
) -> u32
    ensures { CountsTold (read_text text.now) result list.old n.old literals.old clauses.old list.new n.new literals.new clauses.new }
{
    saved_native::counts::sigvort_saved_counts(text, list, n, literals, clauses)
}
