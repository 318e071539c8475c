// Tries a script of drawing calls on a module of any wiring.
//
// The script comes on standard input; the argument says what is wanted of it: answers (also with no argument),
// listing, glass or picture.
#![tactic(auto)]

use runner::{Wanted, bench};
use std::env;
use std::io::Read;

// One byte more than the longest script: enough to see that a text is too long.
const ENOUGH: u64 = 65536;

fn asked(rt: &HostRuntime) -> anyhow::Result<Wanted> {
    match env::args(rt)?.nth(1) {
        None => Ok(Wanted::Answers),
        Some(word) => Ok(word.as_str().parse()?),
    }
}

fn show(rt: &HostRuntime) -> anyhow::Result<()> {
    let wanted = asked(rt)?;
    let mut text = Vec::new(rt.alloc());
    rt.stdin().take(ENOUGH).read_to_end(&mut text)?;
    bench(rt.alloc(), text.as_slice(), wanted, &mut rt.stdout())
}

fn main(rt: HostRuntime) -> anyhow::Result<()> {
    show(&rt)
}
