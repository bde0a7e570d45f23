// The small states of a session as hosts lend them, each number by itself.
ghost use Rattle.std.specs.Prelude.{◌≡◌};
ghost use Rattle.native.specs.Numbers.{heap_in, list_in, SameHeap, SameList};

use activity::Step;
use heap_session::HeapState;
use list_session::ListState;
use trail::TrailState;
use vmtf::VmtfState;
use vsids::VsidsState;

// In heap mode.
#[derive(Drop)]
pub struct HeapNumbers<'a> {
    pub len: &'a mut u32,
    pub level: &'a mut u32,
    pub curr_i: &'a mut u32,
    pub members: &'a mut u32,
    pub inc: &'a mut f64,
    pub decay: &'a mut f64,
}

impl HeapNumbers<'_> {
    pub fn state(&self) -> HeapState
        ensures { result ≡ heap_in self.now }
    {
        HeapState {
            trail: TrailState {
                len: *self.len,
                level: *self.level,
                curr_i: *self.curr_i,
            },
            vsids: VsidsState {
                len: *self.members,
                step: Step {
                    inc: *self.inc,
                    decay: *self.decay,
                },
            },
        }
    }

    pub fn set(&mut self, s: HeapState)
        ensures taken { heap_in self.new ≡ s }
        ensures same_numbers { SameHeap self.old self.new }
    {
        *self.len = s.trail.len;
        *self.level = s.trail.level;
        *self.curr_i = s.trail.curr_i;
        *self.members = s.vsids.len;
        *self.inc = s.vsids.step.inc;
        *self.decay = s.vsids.step.decay;
    }
}

// In list mode.
#[derive(Drop)]
pub struct ListNumbers<'a> {
    pub len: &'a mut u32,
    pub level: &'a mut u32,
    pub curr_i: &'a mut u32,
    pub start: &'a mut u32,
    pub search: &'a mut u32,
    pub timestamp: &'a mut u64,
}

impl ListNumbers<'_> {
    pub fn state(&self) -> ListState
        ensures { result ≡ list_in self.now }
    {
        ListState {
            trail: TrailState {
                len: *self.len,
                level: *self.level,
                curr_i: *self.curr_i,
            },
            vmtf: VmtfState {
                start: *self.start,
                search: *self.search,
                timestamp: *self.timestamp,
            },
        }
    }

    pub fn set(&mut self, s: ListState)
        ensures taken { list_in self.new ≡ s }
        ensures same_numbers { SameList self.old self.new }
    {
        *self.len = s.trail.len;
        *self.level = s.trail.level;
        *self.curr_i = s.trail.curr_i;
        *self.start = s.vmtf.start;
        *self.search = s.vmtf.search;
        *self.timestamp = s.vmtf.timestamp;
    }
}
