// Document 01's blocks: the walk's types. The rules are in specs/.
#![tactic(auto)]

pub mod whole;

pub use whole::whole_walk;

// "the state is two sets, current and executed"
#[repr(C)]
#[derive(Clone, Copy)]
pub struct ParallelBlocks {
    pub current: [bool; 512],
    pub executed: [bool; 512],
}
