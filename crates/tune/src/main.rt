// Reads a ceiling and penalties from standard input. Prints their running joins and joined penalty
// on both scales, what the tunings of a small plan cost at that ceiling, and how the plan settles.
#![tactic(auto)]

use report::answer::answer;
use std::io;
use std::io::Read;

fn main(rt: HostRuntime) -> io::Result<()> {
    let heap = rt.alloc();
    let mut text = Vec::new(heap);
    rt.stdin().read_to_end(&mut text)?;
    rt.print(answer(heap, text.as_slice())?)
}
