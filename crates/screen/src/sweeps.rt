// Sending due bytes as blocks. The marks are the array that a canvas has as a public field.
ghost use Rattle.std.specs.Prelude.{◌≡◌, ℕ, ◌+◌, ◌-◌, ◌/◌, ◌^◌, ◌<◌, ◌≤◌, length, slice_index};
ghost use Rattle.marks.specs.Marks.{First};
ghost use Rattle.marks.specs.Blocks.{area, parts, words, bytes_due, Part, Clears};
ghost use Rattle.marks.specs.Sending.{Chosen, EndsThere, InOneBlock, Swept};
ghost use Rattle.screen.specs.Slots.{Sends};

use crate::blocks::Block;
use crate::slots::Slot;
use link::Link;
use marks::{Run, cleared, due_bytes, first_run};
use ssd1329::Transfer;
use ssd1329::commands::{SET_COLUMNS, SET_LINES};

// How many lines from y on, at most `most`, have that first run, down to the first that does not. Line y itself is not looked at.
fn height_of(due: &[u64; 128], y: u8, run: Run, most: u32) -> u8
    requires { (y < 128) × (0 < most) }
    ensures tall { (0 < result) × (result ≤ most) × (y + result ≤ 128)
        × ((k : ℕ) → 0 < k → k < result → First (slice_index due.now (y + k)) run.start run.len) }
    ensures ends { EndsThere due.now y run.start run.len most result }
{
    let below = &due[y as usize + 1..];
    let most = below.len().min(most as usize - 1);
    let alike = below[..most]
        .iter()
        .position(|w| first_run(*w) != Some(run))
        .unwrap_or(most);
    1 + alike as u8
}

// The block to send at line y, by the first run there, with `left` transfers left.
fn choose(due: &[u64; 128], y: u8, run: Run, left: u32) -> Block
    requires { (y < 128) × ((8 ≤ left) × (First (slice_index due.now y) run.start run.len)) }
    ensures place { result.line ≡ y }
    ensures chosen { Chosen due.now left y result.from run.len result.size result.height }
    ensures ends { EndsThere due.now y result.from result.size ((left - 7) / result.size) result.height }
{
    let size = run.len.min(left - 7);
    let narrower = Run {
        start: run.start,
        len: size,
    };
    Block {
        line: y,
        from: run.start as u8,
        size: size as u8,
        height: height_of(due, y, narrower, (left - 7) / size),
    }
}

impl<L: Link> Slot<'_, L> {
    // Sends the window of a block, and the bytes that stand there.
    fn send_block(&mut self, canvas: &[u8; 8192], due: &mut [u64; 128], block: &Block)
        requires grant { 6 + area block.now ≤ self.old.left }
        requires marked { (k : ℕ) → k < block.now.height → Part (slice_index due.old (block.now.line + k)) block.now.from block.now.size }
        ensures sends { Sends L.Link self.old (words canvas.now block.now) self.new }
        ensures clears { Clears due.old (parts block.now) due.new }
        ensures long { length (words canvas.now block.now) ≡ 6 + area block.now }
    {
        let last_column = block.from + block.size - 1;
        let last_line = block.line + block.height - 1;
        self.send_each(
            &[
                SET_COLUMNS,
                block.from,
                last_column,
                SET_LINES,
                block.line,
                last_line,
            ],
            Transfer::Command,
        );
        // By index: of marks that an iterator lends for writing a proof knows nothing afterwards.
        for line in block.line..block.line + block.height {
            let from = line as usize * 64 + block.from as usize;
            self.send_each(&canvas[from..from + block.size as usize], Transfer::Data);
            due[line as usize] = cleared(due[line as usize], block.from as u32, block.size as u32);
        }
    }

    // Sends due bytes while there is room for them, and keeps one transfer.
    // By their lending cells stay and marks change, so they do not come as one.
    pub(crate) fn sweep(&mut self, canvas: &[u8; 8192], due: &mut [u64; 128])
        requires { 0 < self.old.left }
        ensures same_link { self.new.link.ghost_name ≡ self.old.link.ghost_name }
        ensures swept { Swept (L.means self.old.link.now) canvas.now due.old self.old.left (L.means self.new.link.now) due.new self.new.left }
        ensures boxed { InOneBlock due.old self.old.left due.new self.new.left }
        ensures wide { length canvas.now ≡ 8192 }
    {
        // By number: a block takes marks of the lines below too, and a line is looked at again until it has no run.
        for y in 0..128u8 {
            if self.left < 8 {
                return;
            }
            while let Some(run) = first_run(due[y as usize]) {
                if self.left < 8 {
                    return;
                }
                let block = choose(due, y, run, self.left);
                self.send_block(canvas, due, &block);
            }
        }
    }
}

// How many bytes are due.
pub(crate) fn all_due(due: &[u64; 128]) -> u32
    ensures sum { result ≡ bytes_due due.now }
    ensures fit { (k : ℕ) → k < length due.now → slice_index due.now k < 2 ^ 64 }
{
    due.iter().map(|w| due_bytes(*w)).sum()
}
