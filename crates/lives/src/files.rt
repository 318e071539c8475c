// Cases that are files.
use crate::tally::Tally;
use runner::{Wanted, bench};
use std::alloc::Global;
use std::fs;

const LIVES: u32 = 84;

// What the bench prints for a script.
fn answered(heap: Global, text: &[u8], wanted: Wanted) -> anyhow::Result<Vec<u8>> {
    let mut out = Vec::new(heap);
    bench(heap, text, wanted, &mut out)?;
    Ok(out)
}

pub fn try_lives(rt: &HostRuntime) -> anyhow::Result<Tally> {
    let heap = rt.alloc();
    let mut tally = Tally::default();
    for n in 0..LIVES {
        let text = fs::read(rt, format!(in heap; "l{n:03}.scr")?)?;
        let answers = fs::read(rt, format!(in heap; "l{n:03}.ans")?)?;
        let glass = fs::read(rt, format!(in heap; "l{n:03}.gls")?)?;
        tally.case(answered(heap, text.as_slice(), Wanted::Answers)? == answers);
        tally.case(answered(heap, text.as_slice(), Wanted::Glass)? == glass);
    }
    Ok(tally)
}
