// The text of a session in heap mode, which goes to a buffer or is only counted.
ghost use Rattle.std.specs.Prelude.{◌≡◌, ◌+◌, ◌≤◌, leb, length, take};
ghost use Rattle.lit.specs.Numbers.{max_vars};
ghost use Rattle.forms.specs.Written.{Wrote};
ghost use Rattle.heap_saved.specs.Pieces.{heap_text, HeapLines, text_seen, LinesSeen};

use forms::letters::VSIDS;
use formula::Clauses;
use heap_session::HeapView;
use lit::NONE;
use saved_state::saving::{ALL, FEW, longest, put_front};
use saved_state::writing::{patterns, widened};
use saved_text::letters::{ACTIVITIES, MEMBERS, STEP, SWITCHES};
use saved_text::number::{Long, Word};
use saved_text::sink::{Buffer, Count, Sink};
use vsids::heap_check::VsidsView;

// The lines of the heap: its members, the activities and the switches of the variables, step and decay.
fn put_heap<S: Sink>(sink: &mut S, h: VsidsView<'_>, words: &mut [u32], longs: &mut [u64])
    requires heap_lines { (h.at.len ≤ length h.heap.now) × HeapLines (length h.activity.now) (take h.at.len h.heap.now) h.activity.now h.decision.now h.at.step × (length words.old ≡ length h.decision.now) × (length longs.old ≡ length h.activity.now) }
    requires room { S.room sink.old (heap_text (take h.at.len h.heap.now) h.activity.now h.decision.now h.at.step) }
    ensures { let at = h.entry.at in
        S.puts sink.old (heap_text (take at.len h.entry.heap.now) h.entry.activity.now h.entry.decision.now at.step) sink.new }
{
    let step = h.at.step;
    let pair = [step.inc.to_bits(), step.decay.to_bits()];
    widened(h.decision, words);
    patterns(h.activity, longs);
    sink.row(MEMBERS, Word::UpTo(NONE), &h.heap[..h.at.len as usize]);
    sink.row(ACTIVITIES, Long::Bits, longs);
    sink.row(SWITCHES, Word::UpTo(1), words);
    sink.row(STEP, Long::Bits, &pair);
}

// The text of a session. The scratch has room for the variables.
fn put_session<S: Sink>(
    sink: &mut S,
    n: u32,
    list: Clauses<'_>,
    seen: HeapView<'_>,
    words: &mut [u32],
    longs: &mut [u64],
)
    requires lines { LinesSeen n list.lits.now list.ends.now seen }
    requires room { S.room sink.old (text_seen n list.lits.now list.ends.now seen) }
    requires n_in_bounds { (n ≤ length words.old) × (n ≤ length longs.old) }
    ensures { S.puts sink.old (text_seen n list.entry.lits.now list.entry.ends.now seen.entry) sink.new }
{
    let k = seen.trail.at.len as usize;
    put_front(sink, n, &VSIDS, list, seen.trail, &mut words[..k]);
    put_heap(
        sink,
        seen.vsids,
        &mut words[..n as usize],
        &mut longs[..n as usize],
    );
}

// The same with a scratch that has room for VARS variables.
fn put_in<S: Sink, const VARS: usize>(sink: &mut S, n: u32, list: Clauses<'_>, seen: HeapView<'_>)
    requires lines { LinesSeen n list.lits.now list.ends.now seen }
    requires room { S.room sink.old (text_seen n list.lits.now list.ends.now seen) }
    requires sizes { VARS ≤ max_vars + 16 }
    requires vars { n ≤ VARS }
    ensures { S.puts sink.old (text_seen n list.entry.lits.now list.entry.ends.now seen.entry) sink.new }
{
    let mut words = [0u32; VARS];
    let mut longs = [0u64; VARS];
    put_session(sink, n, list, seen, &mut words, &mut longs);
}

// The same with any number of variables.
pub fn put_all<S: Sink>(sink: &mut S, n: u32, list: Clauses<'_>, seen: HeapView<'_>)
    requires lines { LinesSeen n list.lits.now list.ends.now seen }
    requires room { S.room sink.old (text_seen n list.lits.now list.ends.now seen) }
    ensures { S.puts sink.old (text_seen n list.entry.lits.now list.entry.ends.now seen.entry) sink.new }
{
    if n as usize <= FEW {
        put_in::<S, FEW>(sink, n, list, seen);
    } else {
        put_in::<S, ALL>(sink, n, list, seen);
    }
}

// Writes the text from the buffer's front on, and gives its length.
pub fn put_text(out: &mut [u8], n: u32, list: Clauses<'_>, seen: HeapView<'_>) -> usize
    requires lines { LinesSeen n list.lits.now list.ends.now seen }
    requires room { length (text_seen n list.lits.now list.ends.now seen) ≤ length out.old }
    ensures { Wrote 0 (text_seen n list.entry.lits.now list.entry.ends.now seen.entry) out.old out.new result }
{
    let mut buffer = Buffer { out, at: 0 };
    put_all(&mut buffer, n, list, seen);
    buffer.at
}

// Whether the text has so much room: its bytes are counted only where a longer text would not have.
pub fn text_fits(room: usize, n: u32, list: Clauses<'_>, seen: HeapView<'_>) -> bool
    requires { LinesSeen n list.lits.now list.ends.now seen }
    ensures { result ≡ leb (length (text_seen n list.entry.lits.now list.entry.ends.now seen.entry)) room }
{
    if room >= longest(n, list.ends.len(), list.lits.len()) {
        return true;
    }
    let mut count = Count { bytes: 0 };
    put_all(&mut count, n, list, seen);
    count.bytes <= room
}
