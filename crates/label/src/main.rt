// Draws a label, and prints the part of the drawing that has it: a hexadecimal digit a dot, a point for gray 0.
#![tactic(auto)]

use drawing::{Pen, Rectangle};
use link::ListingLink;
use picture::{BitPicture, Picture};
use refusal::Refusal;
use screen::Screen;
use ssd1329::Wiring;

const WIDTH: u32 = 40;

const HEIGHT: u32 = 16;

// A figure 8, eight dots wide and high, with its waist at the fourth line.
const EIGHT: [u8; 8] = [0x3C, 0x42, 0x42, 0x3C, 0x42, 0x42, 0x42, 0x3C];

// A border, a figure, and a patch of gray 7 with a darker corner that is cut at its edge.
fn draw(screen: &mut Screen<ListingLink>, pen: &mut Pen) -> Result<(), Refusal> {
    screen.bar(pen, 0, 0, WIDTH, HEIGHT)?;
    pen.ink(0)?;
    screen.bar(pen, 1, 1, WIDTH - 2, HEIGHT - 2)?;
    let bytes: &[u8] = &EIGHT;
    let figure = BitPicture::new(bytes, 8, 8, 12)?;
    screen.place(pen, &figure, 4, 4)?;
    {
        let patch = pen.narrow(Rectangle::new(20, 4, 12, 8)?);
        patch.pen.ink(7)?;
        screen.bar(patch.pen, 0, 0, 128, 128)?;
        let corner = patch.pen.narrow(Rectangle::new(28, -4, 100, 12)?);
        corner.pen.ink(3)?;
        screen.bar(corner.pen, -5, -5, 255, 255)?;
    }
    screen.dot(pen, 0, 0)
}

fn digit(gray: u8) -> char {
    match gray {
        0 => '.',
        _ => char::from_digit(u32::from(gray), 16).unwrap_or('?'),
    }
}

fn print(rt: &HostRuntime, screen: &Screen<ListingLink>) -> anyhow::Result<()> {
    for y in 0..HEIGHT {
        for x in 0..WIDTH {
            let shown = screen.gray(x, y).map_or('?', digit);
            print!(rt; "{shown}")?;
        }
        println!(rt; "")?;
    }
    Ok(())
}

fn show(rt: &HostRuntime) -> anyhow::Result<()> {
    let link = ListingLink::new(vec![in rt.alloc(); 0u8; 64]?);
    let mut screen = Screen::new(Wiring::plain(), link).map_err(Refusal::from)?;
    let mut pen = Pen::new();
    if let Err(refusal) = draw(&mut screen, &mut pen) {
        println!(rt; "{refusal}")?;
    }
    print(rt, &screen)
}

fn main(rt: HostRuntime) -> anyhow::Result<()> {
    show(&rt)
}
