// The chain: from the smallest node of the last block down to block 0.
ghost use Rattle.std.specs.Prelude.{◌≡◌, ◌+◌, ◌≤◌, ◌<◌, length};
ghost use Rattle.planning.specs.Chain.{chain as chain_rule};
ghost use Rattle.planning.specs.Descents.{InBlock, Before, Smallest, node_before, Descended};

use file::Refusal;
use graph::{CircuitDag, NodeIndex};
use queries::Arcs;

// The smallest node with the block's number. Here and in smallest_predecessor any number will do where there is none
// (Smallest): an Option would add a case to `descend` that never comes.
fn smallest_member(number: &[u16], block: usize) -> NodeIndex
    requires { length number.now ≤ 512 }
    ensures { Smallest (InBlock number.now (length number.now) block) result.0 }
{
    match number.iter().position(|x| usize::from(*x) == block) {
        // No loss: u is below 512.
        Some(u) => NodeIndex(u as u16),
        None => NodeIndex(65535),
    }
}

// Each node's block number, and the arcs against the edges.
#[derive(Clone, Copy)]
struct Numbered<'n, 'a> {
    number: &'n [u16; 512],
    arcs: Arcs<'a>,
}

impl Numbered<'_, '_> {
    // The node that arc j comes from, if it leads to v from a node with the block's number.
    fn node_before(&self, j: usize, v: NodeIndex, block: usize) -> Option<u16>
        requires { j < self.now.arcs.count }
        ensures { result ≡ node_before self.now.number.now self.now.arcs.near.now self.now.arcs.far.now v.0 block j }
    {
        let node = self.arcs.near[j];
        let before = self.arcs.far[j] == v.0
            && usize::from(self.number[usize::from(node)]) == block;
        before.then_some(node)
    }

    // The smallest direct predecessor of v with the block's number.
    fn smallest_predecessor(&self, v: NodeIndex, block: usize) -> NodeIndex
        ensures { Smallest
            (Before self.now.number.now self.now.arcs.near.now self.now.arcs.far.now self.now.arcs.count v.0 block)
            result.0 }
    {
        let nodes = (0..self.arcs.count).filter_map(|j| self.node_before(j, v, block));
        NodeIndex(nodes.min().unwrap_or(65535))
    }

    // The chain from v on, a node of the block, over the buffer's first entries: each call is for a direct predecessor,
    // the block's number one lower, on the rest of the buffer.
    fn descend(&self, v: NodeIndex, block: usize, buffer: &mut [u16])
        requires { block < length buffer.old }
        ensures { Descended self.now.number.now self.now.arcs.near.now self.now.arcs.far.now self.now.arcs.count
            v.0 block buffer.old buffer.new }
    {
        buffer[0] = v.0;
        if block == 0 {
            return;
        }
        let lower = block - 1;
        let u = self.smallest_predecessor(v, lower);
        self.descend(u, lower, &mut buffer[1..]);
    }
}

// "The chain starts at the smallest node of the last block": its nodes to the lent buffer, and how many they are.
pub fn chain(dag: CircuitDag, buffer: &mut [u16]) -> Result<usize, Refusal>
    ensures { record { answer = result; buffer = buffer.new } ≡ chain_rule dag buffer.old }
{
    let mut number = [65535u16; 512];
    let count = walk::whole_walk(dag, &mut number)?;
    if buffer.len() < count {
        return Err(Refusal::ShortBuffer);
    }
    if count == 0 {
        return Ok(0);
    }
    // A literal: `Arcs::along` would test the graph's soundness once more, which the walk has tested.
    let arcs = Arcs {
        near: &dag.edges.from,
        far: &dag.edges.to,
        count: dag.edges.count,
    };
    let last = count - 1;
    let v = smallest_member(&number[..dag.nodes.count], last);
    let numbered = Numbered {
        number: &number,
        arcs,
    };
    numbered.descend(v, last, buffer);
    Ok(count)
}
