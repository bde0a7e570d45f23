// The move-to-front list as a lent slice of node records, from decision.rs: a node read and written, and the fields of all out into flat slices, and back.
ghost use Rattle.std.specs.Prelude.{◌≡◌, ◌<◌, ◌++◌, length, get_or, set, take, drop};
ghost use Rattle.node_entry.specs.Nodes.{nexts, prevs, tss, no_node, FlatRoom, room_for};

use lit::MAX_VARS;

// A variable's place in the list: its neighbours and its stamp.
#[derive(Clone, Copy)]
pub struct Node {
    pub next: u32,
    pub prev: u32,
    pub ts: u64,
}

// One node more than there may be variables, so that too many are seen as too many.
pub const ROOM: usize = MAX_VARS as usize + 1;

// How many of the nodes there is room for.
pub fn room_for(len: usize) -> usize
    ensures { result ≡ room_for len }
{
    len.min(ROOM)
}

// Reads a node.
#[inline]
pub fn node_at(nodes: &[Node], i: usize) -> Node
    requires { i < length nodes.now }
    ensures { result ≡ get_or nodes.now i no_node }
{
    nodes[i]
}

// Writes a node; the others stay.
#[inline]
pub fn set_node(nodes: &mut [Node], i: usize, n: Node)
    requires { i < length nodes.old }
    ensures { nodes.new ≡ set nodes.old i n }
{
    nodes[i] = n;
}

// Reads the fields of the first nodes, each into a slice of its own.
pub fn gather(nodes: &[Node], next: &mut [u32], prev: &mut [u32], ts: &mut [u64])
    requires { FlatRoom nodes.now next.old prev.old ts.old }
    ensures { let all = nodes.now in
        let k = length next.old in
        (next.new ≡ take k (nexts all)) × (prev.new ≡ take k (prevs all)) × (ts.new ≡ take k (tss all)) }
{
    // four slices at one index: zips of four are no plainer
    for i in 0..next.len() {
        let n = node_at(nodes, i);
        next[i] = n.next;
        prev[i] = n.prev;
        ts[i] = n.ts;
    }
}

// Writes the first nodes, each with its fields from the flat slices; the others stay.
pub fn scatter(nodes: &mut [Node], next: &[u32], prev: &[u32], ts: &[u64])
    requires { FlatRoom nodes.old next.now prev.now ts.now }
    ensures { let before = nodes.old in
        let after = nodes.new in
        let k = length next.now in
        (nexts after ≡ next.now ++ drop k (nexts before)) × (prevs after ≡ prev.now ++ drop k (prevs before)) × (tss after ≡ ts.now ++ drop k (tss before)) }
{
    // four slices at one index: zips of four are no plainer
    for i in 0..next.len() {
        let n = Node {
            next: next[i],
            prev: prev[i],
            ts: ts[i],
        };
        set_node(nodes, i, n);
    }
}
