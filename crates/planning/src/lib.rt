// Planning on the walk's blocks: the chain. The rules are in specs/.
#![tactic(auto)]

pub mod chains;

pub use chains::chain;
