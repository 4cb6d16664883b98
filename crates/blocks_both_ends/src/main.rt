// The blocks of a circuit file that is loaded in K6's way.
#![tactic(auto)]

// The programs that are this line stay, one for each input or way of loading that is run.
fn main(rt: HostRuntime) {
    standard_io::print_blocks_by(&rt, links::LoadingRule::FarAll);
}
