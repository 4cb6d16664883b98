// Numbers that carry their bounds, so that no function that indexes a graph's arrays by them has to ask for these.
ghost use Rattle.std.specs.Prelude.{◌≡◌, true, ◌<◌, ◌≤◌, MatchResult};

use file::Refusal;
use graph::{NodeIndex, Qubit};

// A node of a graph. Crate queries has one of its own: what the two are asked for differs, so that of one in graph these
// methods would be functions, or public ones there.
#[derive(Clone, Copy)]
pub(crate) struct Node {
    pub(crate) number: NodeIndex,
    ghost low: { number.0 < 512 },
}

// A qubit of a map from qubit to node.
#[derive(Clone, Copy)]
pub(crate) struct MapQubit {
    pub(crate) number: Qubit,
    ghost low: { number.0 < 64 },
}

// The qubits of a mask, from the lowest up.
#[derive(Drop)]
pub(crate) struct Qubits {
    left: u64,
}

impl Node {
    ghost use Rattle.file.specs.declared.Refusal.TheVariants.{TooManyNodes};
    ghost use Rattle.graph.specs.Dag.{present};
    ghost use Rattle.links.specs.Numbers.{number_of};

    // Node k, where a graph has room for it.
    pub(crate) fn at(k: usize) -> Result<Node, Refusal>
        ensures { MatchResult result (λ v. v.number.0 ≡ k) (λ r. (512 ≤ k) × (r ≡ TooManyNodes)) }
    {
        if 512 <= k {
            return Err(Refusal::TooManyNodes);
        }
        // A cast: k fits, so that try_from would have no error to give.
        Ok(Node {
            number: NodeIndex(k as u16),
        })
    }

    // The node that an entry names, where it names one.
    pub(crate) fn named(x: NodeIndex) -> Option<Node>
        requires { present x.0 ≡ true → x.0 < 512 }
        ensures { number_of result ≡ x.0 }
    {
        if x.0 == 65535 {
            return None;
        }
        Some(Node { number: x })
    }

    // MapQubit has the same method: a trait with its law would be longer than the two.
    pub(crate) fn index(self) -> usize
        ensures { result ≡ self.number.0 }
    {
        usize::from(self.number.0)
    }
}

impl MapQubit {
    // "qubit 0 maps to v in both".
    pub(crate) fn zero() -> MapQubit
        ensures { result.number.0 ≡ 0 }
    {
        MapQubit { number: Qubit(0) }
    }

    pub(crate) fn index(self) -> usize
        ensures { result ≡ self.number.0 }
    {
        usize::from(self.number.0)
    }
}

impl Qubits {
    ghost use Rattle.links.specs.Links.{qubits};
    ghost use Rattle.links.specs.Numbers.{left_of};

    pub(crate) fn of(mask: u64) -> Qubits
        ensures { left_of result ≡ qubits mask }
    {
        Qubits { left: mask }
    }
}

impl Iterator for Qubits {
    type Item = MapQubit;

    ghost use Rattle.std.specs.Iterator.{YieldsFirstBy, item_count};
    ghost use Rattle.links.specs.Numbers.{left_of, qubit_number};

    ghost next_gives = { YieldsFirstBy qubit_number left_of };

    ghost remaining = { item_count left_of };

    // "Qubits are taken from the lowest up": m & (m - 1) is the mask m without its lowest qubit.
    fn next(&mut self) -> Option<MapQubit> {
        if self.left == 0 {
            return None;
        }
        // A cast: a mask that is not 0 has at most 63 trailing zeros.
        let lowest = self.left.trailing_zeros() as u8;
        self.left &= self.left - 1;
        Some(MapQubit {
            number: Qubit(lowest),
        })
    }
}
