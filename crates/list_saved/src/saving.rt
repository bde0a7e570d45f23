// The text of a session in list mode, which goes to a buffer or is only counted.
ghost use Rattle.std.specs.Prelude.{◌≡◌, ◌+◌, ◌≤◌, leb, length};
ghost use Rattle.lit.specs.Numbers.{max_vars};
ghost use Rattle.forms.specs.Written.{Wrote};
ghost use Rattle.list_saved.specs.Pieces.{list_text, ListLines, text_seen, LinesSeen};

use forms::letters::VMTF;
use formula::Clauses;
use list_session::ListView;
use lit::NONE;
use saved_state::saving::{ALL, FEW, longest, put_front};
use saved_state::writing::{order_of, stamps_of};
use saved_text::letters::{ORDER, SEARCH, STAMPS, TIMESTAMP};
use saved_text::number::{Long, Word};
use saved_text::sink::{Buffer, Count, Sink};
use vmtf::VmtfView;

// The lines of the list: its variables from the front, their stamps, the timestamp, and where the search starts.
fn put_list<S: Sink>(sink: &mut S, l: VmtfView<'_>, words: &mut [u32], longs: &mut [u64])
    requires list_lines { ListLines (length l.next.now) l.next.now l.ts.now l.at × (length words.old ≡ length l.next.now) × (length longs.old ≡ length l.next.now) }
    requires room { S.room sink.old (list_text l.next.now l.ts.now l.at) }
    ensures { S.puts sink.old (list_text l.entry.next.now l.entry.ts.now l.entry.at) sink.new }
{
    let stamp = [l.at.timestamp];
    let place = [l.at.search];
    order_of(l.next, l.at.start, words);
    stamps_of(words, l.ts, longs);
    sink.row(ORDER, Word::UpTo(NONE), words);
    sink.row(STAMPS, Long::Number, longs);
    sink.row(TIMESTAMP, Long::Number, &stamp);
    sink.row(SEARCH, Word::Reason, &place);
}

// The text of a session. The scratch has room for the variables.
fn put_session<S: Sink>(
    sink: &mut S,
    n: u32,
    list: Clauses<'_>,
    seen: ListView<'_>,
    words: &mut [u32],
    longs: &mut [u64],
)
    requires lines { LinesSeen n list.lits.now list.ends.now seen }
    requires room { S.room sink.old (text_seen n list.lits.now list.ends.now seen) }
    requires n_in_bounds { (n ≤ length words.old) × (n ≤ length longs.old) }
    ensures { S.puts sink.old (text_seen n list.entry.lits.now list.entry.ends.now seen.entry) sink.new }
{
    let k = seen.trail.at.len as usize;
    put_front(sink, n, &VMTF, list, seen.trail, &mut words[..k]);
    put_list(
        sink,
        seen.vmtf,
        &mut words[..n as usize],
        &mut longs[..n as usize],
    );
}

// The same with a scratch that has room for VARS variables.
fn put_in<S: Sink, const VARS: usize>(sink: &mut S, n: u32, list: Clauses<'_>, seen: ListView<'_>)
    requires lines { LinesSeen n list.lits.now list.ends.now seen }
    requires room { S.room sink.old (text_seen n list.lits.now list.ends.now seen) }
    requires sizes { VARS ≤ max_vars + 16 }
    requires vars { n ≤ VARS }
    ensures { S.puts sink.old (text_seen n list.entry.lits.now list.entry.ends.now seen.entry) sink.new }
{
    let mut words = [0u32; VARS];
    let mut longs = [0u64; VARS];
    put_session(sink, n, list, seen, &mut words, &mut longs);
}

// The same with any number of variables.
pub fn put_all<S: Sink>(sink: &mut S, n: u32, list: Clauses<'_>, seen: ListView<'_>)
    requires lines { LinesSeen n list.lits.now list.ends.now seen }
    requires room { S.room sink.old (text_seen n list.lits.now list.ends.now seen) }
    ensures { S.puts sink.old (text_seen n list.entry.lits.now list.entry.ends.now seen.entry) sink.new }
{
    if n as usize <= FEW {
        put_in::<S, FEW>(sink, n, list, seen);
    } else {
        put_in::<S, ALL>(sink, n, list, seen);
    }
}

// Writes the text from the buffer's front on, and gives its length.
pub fn put_text(out: &mut [u8], n: u32, list: Clauses<'_>, seen: ListView<'_>) -> usize
    requires lines { LinesSeen n list.lits.now list.ends.now seen }
    requires room { length (text_seen n list.lits.now list.ends.now seen) ≤ length out.old }
    ensures { Wrote 0 (text_seen n list.entry.lits.now list.entry.ends.now seen.entry) out.old out.new result }
{
    let mut buffer = Buffer { out, at: 0 };
    put_all(&mut buffer, n, list, seen);
    buffer.at
}

// Whether the text has so much room: its bytes are counted only where a longer text would not have.
pub fn text_fits(room: usize, n: u32, list: Clauses<'_>, seen: ListView<'_>) -> bool
    requires { LinesSeen n list.lits.now list.ends.now seen }
    ensures { result ≡ leb (length (text_seen n list.entry.lits.now list.entry.ends.now seen.entry)) room }
{
    if room >= longest(n, list.ends.len(), list.lits.len()) {
        return true;
    }
    let mut count = Count { bytes: 0 };
    put_all(&mut count, n, list, seen);
    count.bytes <= room
}
