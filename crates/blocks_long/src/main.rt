// The program `blocks` on a file of 65,600 bytes whose last part ends one byte beyond the first 65,536, the only ones that it takes.
#![tactic(auto)]

// The programs that are this line stay, one for each input or way of loading that is run.
fn main(rt: HostRuntime) {
    standard_io::print_blocks(&rt);
}
