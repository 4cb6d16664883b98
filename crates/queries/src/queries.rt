// Queries on a handed-in graph, each answered into a lent buffer. Sets of nodes are marks, 512 as in the graph, which an
// arc's ends index; edges are read in passes.
ghost use Rattle.std.specs.Prelude.{◌≡◌, true, false, not, ◌≤◌, ◌<◌, length, take, set, IfSome, IfNone};
ghost use Rattle.std.specs.List.Sorted.{IsNonDecreasing};
ghost use Rattle.file.specs.Lists.{members};
ghost use Rattle.queries.specs.Marks.{no_node, Listed, Ordered, LeadsAbove};
ghost use Rattle.queries.specs.Marks.{Carried, in_turn, Swept, Closed, Waiting, FirstAt};
ghost use Rattle.queries.specs.Reach.{Reaching};
ghost use Rattle.queries.specs.Queries.{answers, execution_blocked, blocking_predecessors, successors as successors_rule, new_front_layer};

use crate::Arcs;
use crate::kept::Kept;
use crate::node::{Node, check_node};
use file::Refusal;
use graph::{CircuitDag, NodeIndex, no_marks};
use std::array;

// The nodes that stand in a list; its numbers from 512 on are no nodes.
fn listed(list: &[u16]) -> [bool; 512]
    ensures { Listed list.now result }
{
    let mut r = [false; 512];
    for u in list {
        if *u < 512 {
            r[usize::from(*u)] = true;
        }
    }
    r
}

// The near ends of the arcs whose far end is v.
#[tactic(auto, unfolding(crate::specs::Marks::no_node))]
fn neighbours_of(v: Node, arcs: &Arcs) -> [bool; 512]
    ensures { Reaching arcs.now.far.now arcs.now.near.now arcs.now.count (set no_node v.v.0 true) result }
{
    arcs.reached(&v.marked([false; 512]))
}

// A marked far end marks the near end, with no branch. Did the mark come new?
fn carry(mark: &mut [bool; 512], arcs: &Arcs, i: usize) -> bool
    requires { i < arcs.now.count }
    ensures { Carried arcs.now.near.now arcs.now.far.now i mark.old mark.new result }
{
    let (near, far) = arcs.ends(i);
    let old = mark[near];
    let new = mark[far];
    mark[near] = old | new;
    new & !old
}

// The arc that comes i-th in a pass up or down the m arcs. An enum of the two directions would say no more than the
// flag, and the next pass's direction is its negation.
fn in_turn(i: usize, m: usize, up: bool) -> usize
    requires { i < m }
    ensures { result ≡ in_turn i m up }
{
    if up { i } else { m - (i + 1) }
}

// One pass, up or down the arcs. Did a mark come new?
fn sweep(mark: &mut [bool; 512], arcs: &Arcs, up: bool) -> bool
    ensures { Swept arcs.now.near.now arcs.now.far.now arcs.now.count mark.old mark.new result }
{
    let mut moved = false;
    for i in 0..arcs.count {
        moved |= carry(mark, arcs, in_turn(i, arcs.count, up));
    }
    moved
}

// Passes in turn up and down until no mark comes new; the first one up or down.
fn spread(mark: &mut [bool; 512], arcs: &Arcs, first_up: bool)
    ensures { Closed arcs.now.near.now arcs.now.far.now arcs.now.count mark.old mark.new }
{
    let mut up = first_up;
    let mut moved = true;
    while moved {
        moved = sweep(mark, arcs, up);
        up = !up;
    }
}

// The ends that stand in an array. A proof has the array's length of a parameter, and not of a field that lends it.
fn first_ends(ends: &[u16; 2048], count: usize) -> &[u16]
    requires { count ≤ 2048 }
    ensures ends { result.now ≡ take count ends.now }
    ensures length { length result.now ≡ count }
{
    &ends[..count]
}

// Does every edge lead to a larger number, and do these ascend along the list? So it is after insertions at the back
// alone. A fold has no branch on an edge, so that the compiler takes many at a time; all and is_sorted stop at an edge,
// and over skip(1) it takes them one by one.
fn is_ordered(arcs: &Arcs) -> bool
    ensures { result ≡ true → Ordered arcs.now.near.now arcs.now.far.now arcs.now.count }
{
    let near = first_ends(arcs.near, arcs.count);
    let far = first_ends(arcs.far, arcs.count);
    let next = &far[arcs.count.min(1)..];
    let rises = near
        .iter()
        .zip(far)
        .fold(true, |so_far, (u, v)| so_far & (u < v));
    let ascends = far
        .iter()
        .zip(next)
        .fold(true, |so_far, (u, v)| so_far & (u <= v));
    rises && ascends
}

// An index from which on a list that ascends is above v: there the arcs lead above it.
fn leads_above(far: &[u16], v: NodeIndex) -> usize
    requires { IsNonDecreasing far.now }
    ensures { LeadsAbove far.now (length far.now) v.0 result }
{
    far.partition_point(|u| *u <= v.0)
}

// One pass down the first k arcs of an ordered list carries every mark as far as it goes.
fn settle(mark: &mut [bool; 512], arcs: &Arcs, k: usize)
    requires { (k ≤ arcs.now.count) × Ordered arcs.now.near.now arcs.now.far.now k }
    ensures { Closed arcs.now.near.now arcs.now.far.now k mark.old mark.new }
{
    for i in (0..k).rev() {
        let (near, far) = arcs.ends(i);
        mark[near] |= mark[far];
    }
}

// The answer of a query whose entries are the marked nodes, ascending.
pub fn answer_marked(mark: [bool; 512], buffer: &mut [u16]) -> Result<usize, Refusal>
    ensures { record { answer = result; buffer = buffer.new } ≡ answers (members mark) buffer.old }
{
    let kept = Kept {
        mark: &mark,
        skip: &no_marks(),
        n: 512,
    };
    kept.answer(buffer)
}

// The first index of v in the list.
fn index_in(list: &[u16], v: NodeIndex) -> Option<usize>
    ensures there { IfSome result (λ i. FirstAt v.0 list.now i × (i < length list.now)) }
    ensures absent { IfNone result (FirstAt v.0 list.now (length list.now)) }
{
    list.iter().position(|u| *u == v.0)
}

// The node v and those from which it is reached: marks from v against the edges. In an ordered list no edge that leads
// above v counts.
#[tactic(auto, unfolding(crate::specs::Marks::no_node))]
fn ancestors(arcs: &Arcs, v: Node) -> [bool; 512]
    ensures { Closed arcs.now.near.now arcs.now.far.now arcs.now.count (set no_node v.v.0 true) result }
{
    let mut mark = v.marked([false; 512]);
    if is_ordered(arcs) {
        let k = leads_above(first_ends(arcs.far, arcs.count), v.v);
        settle(&mut mark, arcs, k);
        return mark;
    }
    spread(&mut mark, arcs, false);
    mark
}

// The nodes that have an ancestor that is not skipped: marks from the ends of such nodes' edges along the edges.
fn waiting(skip: &[bool; 512], arcs: &Arcs) -> [bool; 512]
    ensures { Waiting skip.now arcs.now.near.now arcs.now.far.now arcs.now.count result }
{
    let mut mark = arcs.reached(&array::from_fn(|v| !skip[v]));
    spread(&mut mark, arcs, true);
    mark
}

// The list goes over a part of a buffer that is as long. A loop, and no copy_from_slice: of two lent parts that becomes a
// call of memmove, and the library for C asks its host for memcpy and memset alone.
pub(crate) fn copy_list(list: &[u16], part: &mut [u16])
    requires { length part.old ≡ length list.now }
    ensures { part.new ≡ list.now }
{
    for (i, v) in list.iter().enumerate() {
        part[i] = *v;
    }
}

// The answer of a query whose entries are a list.
pub fn answer_list(list: &[u16], buffer: &mut [u16]) -> Result<usize, Refusal>
    ensures { record { answer = result; buffer = buffer.new } ≡ answers list.now buffer.old }
{
    if buffer.len() < list.len() {
        return Err(Refusal::ShortBuffer);
    }
    copy_list(list, &mut buffer[..list.len()]);
    Ok(list.len())
}

// In the public queries g, executed, v and buffer stand one by one: they are the parameters of document 01's calls.

// All nodes other than v from which v is reached, minus those in the executed list, ascending.
#[tactic(auto, unfolding(crate::specs::Queries::execution_blocked))]
pub fn execution_blocked(
    g: CircuitDag,
    executed: &[u16],
    v: NodeIndex,
    buffer: &mut [u16],
) -> Result<usize, Refusal>
    ensures { record { answer = result; buffer = buffer.new }
        ≡ execution_blocked g executed.now v.0 buffer.old }
{
    let (node, arcs) = check_node(&g, v)?;
    let kept = Kept {
        mark: &ancestors(&arcs.reversed(), node),
        skip: &node.marked(listed(executed)),
        n: g.nodes.count,
    };
    kept.answer(buffer)
}

// The direct predecessors of v, minus those in the executed list, ascending.
#[tactic(auto, unfolding(crate::specs::Queries::blocking_predecessors))]
pub fn blocking_predecessors(
    g: CircuitDag,
    executed: &[u16],
    v: NodeIndex,
    buffer: &mut [u16],
) -> Result<usize, Refusal>
    ensures { record { answer = result; buffer = buffer.new }
        ≡ blocking_predecessors g executed.now v.0 buffer.old }
{
    let (node, arcs) = check_node(&g, v)?;
    let kept = Kept {
        mark: &neighbours_of(node, &arcs.reversed()),
        skip: &listed(executed),
        n: g.nodes.count,
    };
    kept.answer(buffer)
}

// The direct successors of v, ascending.
#[tactic(auto, unfolding(crate::specs::Queries::successors))]
pub fn successors(g: CircuitDag, v: NodeIndex, buffer: &mut [u16]) -> Result<usize, Refusal>
    ensures { record { answer = result; buffer = buffer.new } ≡ successors_rule g v.0 buffer.old }
{
    let (node, arcs) = check_node(&g, v)?;
    let kept = Kept {
        mark: &neighbours_of(node, &arcs),
        skip: &no_marks(),
        n: g.nodes.count,
    };
    kept.answer(buffer)
}

// The layer after v has run: its first occurrence goes and the successors that are not blocked follow, ascending;
// with successors that are all blocked the layer stays.
#[tactic(auto, unfolding(crate::specs::Queries::new_front_layer))]
pub fn new_front_layer(
    g: CircuitDag,
    executed: &[u16],
    layer: &[u16],
    v: NodeIndex,
    buffer: &mut [u16],
) -> Result<usize, Refusal>
    ensures { record { answer = result; buffer = buffer.new }
        ≡ new_front_layer g executed.now layer.now v.0 buffer.old }
{
    let (node, arcs) = check_node(&g, v)?;
    let Some(i) = index_in(layer, v) else {
        return Err(Refusal::NotInLayer);
    };
    let next = neighbours_of(node, &arcs);
    let n = g.nodes.count;
    let all = Kept {
        mark: &next,
        skip: &no_marks(),
        n,
    };
    let k = all.count();
    if k == 0 {
        return all.answer_next(k, layer, i, buffer);
    }
    let freed = Kept {
        mark: &next,
        skip: &waiting(&node.marked(listed(executed)), &arcs),
        n,
    };
    freed.answer_layer(layer, i, buffer)
}
