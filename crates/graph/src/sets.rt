// Sets of nodes, kept as marks: v is in the set where mark v stands. Of 512 marks always, as they stand in the graph, so
// that none has a length.
ghost use Rattle.std.specs.Prelude.{◌≡◌, Bool, false, ℕ, ltb, replicate};
ghost use Rattle.file.specs.Lists.{any_of, all_of, members};

// The set without nodes.
pub fn no_marks() -> [bool; 512]
    ensures { result ≡ replicate 512 false }
{
    [false; 512]
}

// Whether a set has a node.
pub fn has_member(marks: [bool; 512]) -> bool
    ensures { result ≡ any_of (λ (b : Bool). b) marks }
{
    marks.iter().any(|mark| *mark)
}

// Whether its nodes are all below n. A fold, which unlike any has no branch on a mark: the compiler takes many at a time.
pub fn members_below(marks: [bool; 512], n: usize) -> bool
    ensures { result ≡ all_of (λ (v : ℕ). ltb v n) (members marks) }
{
    !marks[n.min(512)..]
        .iter()
        .fold(false, |above, mark| above | *mark)
}
