// Tries lives with known answers, the edges of the refusals and the wirings, and says which differ.
//
// data/ has lives (lNNN.scr, scripts for the bench) with their answers (lNNN.ans) and their glass (lNNN.gls), made by
// another model of the rules.
#![tactic(auto)]

mod edges;
mod files;
mod tally;
mod wirings;

fn try_all(rt: &HostRuntime) -> anyhow::Result<()> {
    let lives = files::try_lives(rt)?;
    println!(rt; "lives: {lives}")?;
    let edges = edges::try_edges(rt.alloc())?;
    println!(rt; "edges: {edges}")?;
    let wirings = wirings::try_wirings(rt.alloc())?;
    println!(rt; "wirings: {wirings}")?;
    Ok(())
}

fn main(rt: HostRuntime) -> anyhow::Result<()> {
    try_all(&rt)
}
