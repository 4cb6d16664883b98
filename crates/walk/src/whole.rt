// The whole walk and its single step, both found by passes over the edge list. Sets and numbers of nodes are arrays of
// 512, the most nodes there are, so that an arc's ends index them: a slice's length would be one more fact to hand on.
ghost use Rattle.std.specs.Prelude.{◌≡◌, true, false, cond, not, ◌&&◌, ◌||◌, map, ℕ, ◌+◌, ◌-◌, ◌≤◌, ◌<◌, max, eqb, length};
ghost use Rattle.file.specs.Lists.{members, onto, up_to};
ghost use Rattle.graph.specs.Dag.{size};
ghost use Rattle.queries.specs.Marks.{in_turn};
ghost use Rattle.queries.specs.Reach.{Along};
ghost use Rattle.walk.specs.Blocks.{whole_walk, blocks, number_from, joined, start, next};
ghost use Rattle.walk.specs.Numbering.{at, following, Swept, Settled, Begun, Zeroed, Counted, Freed, free_after};

use crate::ParallelBlocks;
use file::Refusal;
use graph::CircuitDag;
use queries::{Arcs, answer_marked};
use std::array;

// The number of an edge's end: at least one more than its start's, 65535 staying.
fn raised(old: u16, before: u16) -> u16
    ensures { result ≡ max old (following before) }
{
    old.max(before.saturating_add(1))
}

// The arc that comes i-th in a pass up or down the m arcs, as in the queries. One public function for the queries and
// the walk may ask nothing of i, and a total one (`saturating_sub`) says less plainly which arc it is.
fn in_turn(i: usize, m: usize, up: bool) -> usize
    requires { i < m }
    ensures { result ≡ in_turn i m up }
{
    if up { i } else { m - (i + 1) }
}

// One pass along the edges, up or down the list: whether it changed a number. By the arc's number, like the
// passes below: that the ends are below 512 is known of a number (Arcs), and a pass down needs it.
fn sweep(arcs: &Arcs, up: bool, num: &mut [u16; 512]) -> bool
    ensures { Swept arcs.now.far.now arcs.now.near.now arcs.now.count num.old num.new result }
{
    let mut changed = false;
    for i in 0..arcs.count {
        let j = in_turn(i, arcs.count, up);
        let t = usize::from(arcs.near[j]);
        let old = num[t];
        let new = raised(old, num[usize::from(arcs.far[j])]);
        num[t] = new;
        changed |= old < new;
    }
    changed
}

// Passes up and down in turn until nothing changes, at most one for each node: no path is longer.
fn settle(arcs: &Arcs, n: usize, first_up: bool, num: &mut [u16; 512])
    ensures { Settled arcs.now.far.now arcs.now.near.now arcs.now.count n num.old num.new }
{
    let mut up = first_up;
    for _k in 0..n {
        if !sweep(arcs, up, num) {
            return;
        }
        up = !up;
    }
}

// 0 for a member, 65535 for any other node: the first block's numbers, or who has run. 65535 as in the lent buffer,
// which C reads.
fn number_at_first(member: bool) -> u16
    ensures { result ≡ cond member 0 65535 }
{
    if member { 0 } else { 65535 }
}

// So for all nodes. By index: `block.map` would move the array into an iterator first.
fn first_numbers(block: &[bool; 512]) -> [u16; 512]
    ensures { Begun block.now result }
{
    array::from_fn(|v| number_at_first(block[v]))
}

// 0 for every target of an edge.
fn number_targets(targets: &[u16], num: &mut [u16; 512])
    requires { (j : ℕ) → j < length targets.now → at targets.now j < 512 }
    ensures { Zeroed targets.now num.old num.new }
{
    for t in targets {
        num[usize::from(*t)] = 0;
    }
}

// How many blocks the numbers name: one more than the greatest, 65535 left out, as in the lent buffer, which C reads.
fn count_blocks(num: &[u16]) -> usize
    ensures { Counted num.now (length num.now) result }
{
    num.iter()
        .filter(|x| **x != 65535)
        .map(|x| usize::from(*x) + 1)
        .max()
        .unwrap_or(0)
}

// Each node's block number, 65535 where no block holds it.
fn numbers_of(g: CircuitDag, arcs: &Arcs) -> [u16; 512]
    requires { Along g arcs.now.near.now arcs.now.far.now arcs.now.count }
    ensures { (v : ℕ) → v < size g → at result v ≡ number_from 0 (blocks g) v }
{
    let mut num = first_numbers(&g.first.block);
    number_targets(&g.edges.to[..g.edges.count], &mut num);
    settle(arcs, g.nodes.count, g.fronts == 0, &mut num);
    num
}

// "The whole walk": each node's block number to the lent buffer, and the number of non-empty blocks.
pub fn whole_walk(g: CircuitDag, buffer: &mut [u16]) -> Result<usize, Refusal>
    ensures { record { answer = result; buffer = buffer.new } ≡ whole_walk g buffer.old }
{
    let arcs = Arcs::along(&g)?;
    let n = g.nodes.count;
    if buffer.len() < n {
        return Err(Refusal::ShortBuffer);
    }
    let num = numbers_of(g, &arcs);
    let num = &num[..n];
    buffer[..n].copy_from_slice(num);
    Ok(count_blocks(num))
}

// The members of either set.
fn join_marks(a: &[bool; 512], b: &[bool; 512]) -> [bool; 512]
    ensures { result ≡ joined a.now b.now }
{
    array::from_fn(|v| a[v] | b[v])
}

// Takes away the nodes that wait: those with an edge from one with 65535. No Option stands for it: these numbers come from
// the same passes (`settle`) as those that go to the lent buffer.
fn take_waiting(arcs: &Arcs, num: &[u16; 512], found: &mut [bool; 512])
    ensures { Freed arcs.now.far.now arcs.now.near.now arcs.now.count num.now found.old found.new }
{
    for i in 0..arcs.count {
        found[usize::from(arcs.near[i])] &= num[usize::from(arcs.far[i])] != 65535;
    }
}

// The successors of the current nodes that are blocked by none.
fn free_block(g: CircuitDag, arcs: &Arcs, current: &[bool; 512], all: &[bool; 512]) -> [bool; 512]
    requires { Along g arcs.now.near.now arcs.now.far.now arcs.now.count }
    ensures { members result ≡ free_after g current.now all.now }
{
    let mut num = first_numbers(all);
    settle(arcs, g.nodes.count, g.fronts == 0, &mut num);
    let mut found = arcs.reached(current);
    take_waiting(arcs, &num, &mut found);
    found
}

impl ParallelBlocks {
    // Before the first step: two empty sets.
    #[tactic(auto, unfolding(crate::specs::Blocks::start))]
    pub fn new() -> ParallelBlocks
        ensures { result ≡ start }
    {
        ParallelBlocks {
            current: [false; 512],
            executed: [false; 512],
        }
    }

    // The next block to the lent buffer, with how many nodes it has, or None. A refusal leaves the walk as it was.
    pub fn next(&mut self, g: CircuitDag, buffer: &mut [u16]) -> Result<Option<usize>, Refusal>
        ensures { record { answer = result; walk = self.new; buffer = buffer.new }
            ≡ next g self.old buffer.old }
    {
        let arcs = Arcs::along(&g)?;
        if !graph::members_below(self.current, g.nodes.count) {
            return Err(Refusal::Absent);
        }
        let started = graph::has_member(self.current) | graph::has_member(self.executed);
        let all = join_marks(&self.current, &self.executed);
        let found = if started {
            free_block(g, &arcs, &self.current, &all)
        } else {
            g.first.block
        };
        let k = answer_marked(found, buffer)?;
        *self = ParallelBlocks {
            current: found,
            executed: all,
        };
        Ok(if started & (k == 0) { None } else { Some(k) })
    }
}
