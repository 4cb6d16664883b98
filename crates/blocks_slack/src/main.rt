// The program `blocks` on a file of 65,600 bytes with slack before, between and behind its records, of which the last ends at byte 65,536.
#![tactic(auto)]

// The programs that are this line stay, one for each input or way of loading that is run.
fn main(rt: HostRuntime) {
    standard_io::print_blocks(&rt);
}
