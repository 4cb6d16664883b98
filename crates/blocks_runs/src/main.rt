// The program `blocks` on several files: on standard input each stands behind its length in two bytes, little-endian. The text for each
// file follows a line with its length.
#![tactic(auto)]

use standard_io::Files;
use std::io;

// The text for one file, behind a line with its length.
fn print_file(rt: &impl Print, file: &[u8]) -> io::Result<()> {
    println!(rt; "file of {} bytes", file.len())?;
    let text = report::blocks_text(file);
    rt.write_all(text.as_bytes())
}

fn main(rt: HostRuntime) -> io::Result<()> {
    let mut input = [0; 65536];
    for file in Files(standard_io::read_file(&rt, &mut input)) {
        print_file(&rt, file)?;
    }
    Ok(())
}
