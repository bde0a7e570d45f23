// The list chooser: JigSAT's `VMTF` over lent slices: for each variable the one after it, the one before
// it and its stamp. Here are what a decide finds in it and its check; `move_to_front` makes it and moves variables in it.
#![tactic(auto)]

ghost use Rattle.std.specs.Prelude.{◌≡◌, ◌<◌, List, ℕ, Err, OnErr, length};
ghost use Rattle.lit.specs.Numbers.{NONE as none};
ghost use Rattle.lit.specs.declared.Refusal.TheVariants.{PastOpen};
ghost use Rattle.vmtf.specs.Vmtf as spec;
ghost use Rattle.vmtf.specs.Vmtf.{vmtf_of, vmtf_in, vmtf_seen, SameSlices, Even, Ends, found_of, marked};

use lit::{NONE, Refusal, UNASSIGNED};

// The front, where a decide starts to look, and the next stamp.
#[derive(Clone, Copy, Default)]
pub struct VmtfState {
    pub start: u32,
    pub search: u32,
    pub timestamp: u64,
}

// The list in lent slices: for each variable the one after it, the one before it and its stamp.
#[derive(Drop)]
pub struct Vmtf<'a> {
    pub next: &'a mut [u32],
    pub prev: &'a mut [u32],
    pub ts: &'a mut [u64],
    pub at: VmtfState,
}

// The list, to look at.
#[derive(Clone, Copy)]
pub struct VmtfView<'a> {
    pub next: &'a [u32],
    pub prev: &'a [u32],
    pub ts: &'a [u64],
    pub at: VmtfState,
}

// Whether the variable may be decided: it is unassigned.
fn is_open(values: &[u8], v: u32) -> bool
    requires { v < length values.now }
    ensures { result ≡ spec.is_open values.now v }
{
    values[v as usize] >= UNASSIGNED
}

// The first open variable along the next links from search on.
fn first_open(next: &[u32], values: &[u8], search: u32) -> Option<u32>
    requires ends { Ends next.now search }
    requires values_len { length values.now ≡ length next.now }
    ensures { result ≡ marked (spec.first_open values.now (spec.from next.now (length next.now) search)) }
{
    let mut curr = search;
    // a while: it goes along the links
    while curr != NONE {
        if is_open(values, curr) {
            return Some(curr);
        }
        curr = next[curr as usize];
    }
    None
}

// Whether any variable is open.
fn any_open(values: &[u8]) -> bool
    ensures { result ≡ spec.any_open values.now (length values.now) }
{
    for &value in values {
        if value >= UNASSIGNED {
            return true;
        }
    }
    false
}

// Takes the first open variable from search on, and leaves search at the one after it; `PastOpen` where there is none, but some
// variable is open. The second part is the state after it.
#[inline]
pub fn get_next(
    next: &[u32],
    values: &[u8],
    s: VmtfState,
) -> (Result<Option<u32>, Refusal>, VmtfState)
    requires ends { Ends next.now s.search }
    requires values_len { length values.now ≡ length next.now }
    ensures found { (prev ts : List ℕ) → found_of result.0 (vmtf_of next.now prev ts result.1) ≡ spec.get_next values.now (vmtf_of next.now prev ts s) }
    ensures refused { OnErr result.0 (result.0 ≡ Err PastOpen) }
    ensures kept { OnErr result.0 (result.1 ≡ s) }
{
    if let Some(v) = first_open(next, values, s.search) {
        let mut past = s;
        past.search = next[v as usize];
        return (Ok(Some(v)), past);
    }
    if any_open(values) {
        return (Err(Refusal::PastOpen), s);
    }
    (Ok(None), s)
}

impl VmtfView<'_> {
    // Whether curr may come next in the list: a variable with the link back to the one before it and a lower stamp.
    fn stands(self, before: u32, stamp: u64, curr: u32) -> bool
        requires { Even (vmtf_seen self) }
        ensures { result ≡ spec.stands (vmtf_seen self.entry) before stamp curr }
    {
        if curr as usize >= self.next.len() {
            return false;
        }
        if self.prev[curr as usize] != before {
            return false;
        }
        self.ts[curr as usize] < stamp
    }

    // Whether all variables stand in the list from the front on, with links that agree and stamps that fall below the timestamp.
    fn check_row(self) -> bool
        requires { Even (vmtf_seen self) }
        ensures { let l = vmtf_seen self.entry in
            result ≡ spec.check_row l (length l.next) none l.timestamp l.start }
    {
        let mut before = NONE;
        let mut stamp = self.at.timestamp;
        let mut curr = self.at.start;
        for _ in 0..self.next.len() {
            if !self.stands(before, stamp, curr) {
                return false;
            }
            before = curr;
            stamp = self.ts[curr as usize];
            curr = self.next[curr as usize];
        }
        curr == NONE
    }

    // Whether the list is good: all variables stand in it, and search is a variable or NONE.
    pub fn check(self) -> bool
        requires { Even (vmtf_seen self) }
        ensures { result ≡ spec.check_list (vmtf_seen self.entry) }
    {
        if !self.check_row() {
            return false;
        }
        if self.at.search == NONE {
            return true;
        }
        (self.at.search as usize) < self.next.len()
    }
}

impl Vmtf<'_> {
    pub fn view(&self) -> VmtfView<'_>
        ensures { vmtf_seen result ≡ vmtf_in self.now }
    {
        VmtfView {
            next: self.next,
            prev: self.prev,
            ts: self.ts,
            at: self.at,
        }
    }

    // Takes the first open variable from search on, and leaves search at the one after it; `PastOpen` where there is none, but some
    // variable is open.
    #[inline(always)]
    pub fn get_next(&mut self, values: &[u8]) -> Result<Option<u32>, Refusal>
        requires ends { Ends self.old.next.now self.old.at.search }
        requires values_len { length values.now ≡ length self.old.next.now }
        ensures found { found_of result (vmtf_in self.new) ≡ spec.get_next values.now (vmtf_in self.old) }
        ensures refused { OnErr result (result ≡ Err PastOpen) }
        ensures kept { OnErr result (vmtf_in self.new ≡ vmtf_in self.old) }
        ensures same_slices { SameSlices self.old self.new }
    {
        let (answer, past) = get_next(self.view().next, values, self.at);
        self.at = past;
        answer
    }
}
