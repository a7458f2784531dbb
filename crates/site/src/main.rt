// The program: standard input, a reply to it, standard output. A read or a write that fails ends it with the error.
#![tactic(auto)]

use reading::read_full;
use std::io;

// A plan has at most 57,856 bytes: of a longer input enough is read to see that it is longer.
fn main(rt: HostRuntime) -> io::Result<()> {
    let mut input = [0u8; 57862];
    let n = read_full(&mut rt.stdin(), &mut input)?;
    let mut out = [0u8; 7168];
    let k = program::reply(&input[..n], &mut out);
    rt.write_all(&out[..k])
}
