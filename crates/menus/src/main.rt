// Answers a script on standard input, line by line, on standard output.
#![tactic(auto)]

use std::io;
use std::io::{Read, Write};
use stream::{LONGEST, run};

fn main(rt: HostRuntime) -> io::Result<()> {
    let mut input = Vec::new(rt.alloc());
    // one byte more than a script may have shows that it is too long
    rt.stdin().take(LONGEST as u64 + 1).read_to_end(&mut input)?;
    let mut out = Vec::new(rt.alloc());
    run(rt.alloc(), &input, &mut out)?;
    rt.stdout().write_all(&out)
}
