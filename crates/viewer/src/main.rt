// Shows what a listing on standard input leaves on the glass.
#![tactic(auto)]

use listing::view;
use ssd1329::Controller;
use std::io::Read;

// One byte more than the longest listing: enough to see that a text is too long.
const ENOUGH: u64 = 65536;

fn show(rt: &HostRuntime) -> anyhow::Result<()> {
    let heap = rt.alloc();
    let mut text = Vec::new(heap);
    rt.stdin().take(ENOUGH).read_to_end(&mut text)?;
    let mut controller = Controller::blank(heap)?;
    view(text.as_slice(), &mut controller, &mut rt.stdout())?;
    Ok(())
}

fn main(rt: HostRuntime) -> anyhow::Result<()> {
    show(&rt)
}
