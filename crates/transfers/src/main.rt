// What everyday drawings cost: the transfers of a flush over a listing link, beside those of one box around all
// changes and of a whole frame.
#![tactic(auto)]

use anyhow::Context;
use drawing::Pen;
use link::ListingLink;
use refusal::Refusal;
use screen::{FlushFault, Screen};
use ssd1329::Wiring;
use std::alloc::{AllocError, Global};

const FRAME: u32 = 8199;

const BEFORE: [u8; 8] = [0, 0, 4, 1, 7, 2, 6, 3];

const NEXT: [u8; 8] = [0, 0, 4, 1, 7, 2, 6, 4];

const NEW: [u8; 8] = [5, 8, 3, 9, 0, 9, 4, 1];

// The seven strokes of a figure, as x, y, width and height in a cell of 10 by 18 dots.
const STROKES: [(i32, i32, u32, u32); 7] = [
    (2, 0, 6, 2),
    (8, 2, 2, 6),
    (8, 10, 2, 6),
    (2, 16, 6, 2),
    (0, 10, 2, 6),
    (0, 2, 2, 6),
    (2, 8, 6, 2),
];

// Which strokes each figure has, the first in the lowest bit.
const FIGURES: [u8; 10] = [0x3F, 0x06, 0x5B, 0x4F, 0x66, 0x6D, 0x7D, 0x07, 0x7F, 0x6F];

// A screen over a listing link, and the pen that draws on it.
#[derive(Drop)]
struct Sheet {
    screen: Screen<ListingLink>,
    pen: Pen,
}

impl Sheet {
    fn fresh(heap: Global) -> anyhow::Result<Sheet> {
        let link = ListingLink::new(vec![in heap; 0u8; 65535]?);
        let screen = Screen::new(Wiring::plain(), link).map_err(Refusal::from)?;
        Ok(Sheet {
            screen,
            pen: Pen::new(),
        })
    }

    // A figure with its corner at (x, y): each stroke is drawn or wiped.
    fn figure(&mut self, x: i32, y: i32, n: u8) -> Result<(), Refusal> {
        let strokes = FIGURES.get(usize::from(n)).copied().unwrap_or(0);
        for (i, (dx, dy, w, h)) in STROKES.iter().copied().enumerate() {
            self.pen.ink(if (strokes >> i) & 1 == 1 { 15 } else { 0 })?;
            self.screen.bar(&self.pen, x.saturating_add(dx), y.saturating_add(dy), w, h)?;
        }
        Ok(())
    }

    // A trace number of eight figures.
    fn number(&mut self, figures: &[u8; 8]) -> Result<(), Refusal> {
        for (x, n) in (8..).step_by(14).zip(figures) {
            self.figure(x, 40, *n)?;
        }
        Ok(())
    }

    // A battery with so many of its twelve dots full.
    fn battery(&mut self, level: u32) -> Result<(), Refusal> {
        let level = level.min(12);
        self.pen.ink(9)?;
        self.screen.bar(&self.pen, 108, 4, level, 6)?;
        self.pen.ink(0)?;
        self.screen
            .bar(&self.pen, 108 + level as i32, 4, 12 - level, 6)
    }

    fn weight(&mut self, width: u32) -> Result<(), Refusal> {
        self.pen.ink(12)?;
        self.screen.bar(&self.pen, 8, 100, width, 10)
    }

    fn diagonal(&mut self) -> Result<(), Refusal> {
        self.pen.ink(6)?;
        for i in 0..128i32 {
            self.screen.dot(&self.pen, i, i)?;
        }
        Ok(())
    }

    fn outline(&mut self) -> Result<(), Refusal> {
        self.pen.ink(3)?;
        self.screen.bar(&self.pen, 4, 20, 120, 1)?;
        self.screen.bar(&self.pen, 4, 90, 120, 1)?;
        self.screen.bar(&self.pen, 4, 20, 1, 71)?;
        self.screen.bar(&self.pen, 123, 20, 1, 71)
    }

    // What stands on the screen before a change.
    fn before(&mut self) -> Result<(), Refusal> {
        self.number(&BEFORE)?;
        self.battery(12)?;
        self.weight(40)
    }

    // The grays of all dots, line by line.
    fn grays(&self, heap: Global) -> Result<Vec<u8>, AllocError> {
        let mut all = Vec::new(heap);
        for y in 0..128 {
            for x in 0..128 {
                all.push(self.screen.gray(x, y).unwrap_or(0))?;
            }
        }
        Ok(all)
    }

    // How many transfers a flush takes.
    fn sent(&mut self) -> Result<u32, FlushFault> {
        self.screen.flush(9999)
    }
}

// What one box around all bytes that differ would take: a window, its bytes, and a closing command.
fn one_box(before: &[u8], after: &[u8]) -> u32 {
    let mut left = 63u32;
    let mut right = 0u32;
    let mut top = 127u32;
    let mut bottom = 0u32;
    for ((i, was), is) in (0..128 * 128u32).zip(before).zip(after) {
        if was != is {
            let column = i % 128 / 2;
            left = left.min(column);
            right = right.max(column);
            top = top.min(i / 128);
            bottom = bottom.max(i / 128);
        }
    }
    let wide = right.saturating_add(1).saturating_sub(left);
    let high = bottom.saturating_add(1).saturating_sub(top);
    wide.saturating_mul(high).saturating_add(7)
}

// A line of the table: what a change of the drawing takes.
fn show<F: FnOnce(&mut Sheet) -> Result<(), Refusal>>(
    rt: &HostRuntime,
    name: &str,
    change: F,
) -> anyhow::Result<()>
    requires { F.IsAlwaysCallable change }
{
    let heap = rt.alloc();
    let mut sheet = Sheet::fresh(heap)?;
    sheet.before().context("a drawing call is refused")?;
    sheet.sent()?;
    let before = sheet.grays(heap)?;
    change(&mut sheet).context("a drawing call is refused")?;
    let after = sheet.grays(heap)?;
    let boxed = one_box(before.as_slice(), after.as_slice());
    let sent = sheet.sent()?;
    println!(rt; "{name}\t{sent}\t{boxed}\t{FRAME}")?;
    Ok(())
}

fn show_all(rt: &HostRuntime) -> anyhow::Result<()> {
    println!(rt; "drawing\tflush\tone box\tframe")?;
    show(rt, "next trace number", |sheet| sheet.number(&NEXT))?;
    show(rt, "new trace number", |sheet| sheet.number(&NEW))?;
    show(rt, "digit and battery icon", |sheet| {
        sheet.number(&NEXT)?;
        sheet.battery(8)
    })?;
    show(rt, "growing weight bar", |sheet| sheet.weight(46))?;
    show(rt, "diagonal", Sheet::diagonal)?;
    show(rt, "outline", Sheet::outline)?;
    let sent = Sheet::fresh(rt.alloc())?.sent()?;
    println!(rt; "full frame\t{sent}\t{FRAME}\t{FRAME}")?;
    Ok(())
}

fn main(rt: HostRuntime) -> anyhow::Result<()> {
    show_all(&rt)
}
