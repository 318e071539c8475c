// Tries listings with known answers, and says which differ.
//
// data/NNN.lst is a listing, data/NNN.out what the viewer should print, made by another model of the rules.
#![tactic(auto)]

use listing::view;
use ssd1329::Controller;
use std::alloc::Global;
use std::fs;

const CASES: u32 = 120;

// What the viewer prints for a text.
fn viewed(heap: Global, text: &[u8]) -> anyhow::Result<Vec<u8>> {
    let mut controller = Controller::blank(heap)?;
    let mut out = Vec::new(heap);
    view(text, &mut controller, &mut out)?;
    Ok(out)
}

// Whether a case comes out as it should.
fn agrees(rt: &HostRuntime, n: u32) -> anyhow::Result<bool> {
    let heap = rt.alloc();
    let text = fs::read(rt, format!(in heap; "{n:03}.lst")?)?;
    let wanted = fs::read(rt, format!(in heap; "{n:03}.out")?)?;
    let got = viewed(heap, text.as_slice())?;
    Ok(got == wanted)
}

fn try_all(rt: &HostRuntime) -> anyhow::Result<()> {
    let mut differ: u32 = 0;
    for n in 0..CASES {
        if !agrees(rt, n)? {
            differ = differ.saturating_add(1);
            println!(rt; "{n:03} differs")?;
        }
    }
    println!(rt; "{CASES} cases, {differ} differ")?;
    Ok(())
}

fn main(rt: HostRuntime) -> anyhow::Result<()> {
    try_all(&rt)
}
