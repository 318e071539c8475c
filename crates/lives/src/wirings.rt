// One drawing on each of the 1,024 wirings.
ghost use Rattle.std.specs.Prelude.{◌<◌};

use crate::tally::Tally;
use drawing::Pen;
use link::Panel;
use picture::{GrayPicture, Picture as _};
use refusal::Refusal;
use screen::{FlushFault, Screen};
use ssd1329::Wiring;
use std::alloc::{AllocError, Global};

type Picture = GrayPicture<Vec<u8>>;

// The gray that the drawing has at (x, y): lines and columns near each other differ.
fn wanted(x: u32, y: u32) -> u8
    ensures { result < 16 }
{
    let slanted = x.wrapping_mul(7).wrapping_add(y.wrapping_mul(5));
    (slanted.wrapping_add(x.wrapping_mul(y) / 3) % 16) as u8
}

fn whole_picture(heap: Global) -> anyhow::Result<Picture> {
    let mut bytes = Vec::new(heap);
    for y in 0..128u32 {
        for k in 0..64u32 {
            bytes.push(wanted(2 * k, y) * 16 + wanted(2 * k + 1, y))?;
        }
    }
    Ok(GrayPicture::new(bytes, 128, 128).map_err(Refusal::from)?)
}

// The panel of a module on which the picture was drawn and flushed.
fn shown(panel: Panel, wiring: Wiring, picture: &Picture) -> Result<Panel, FlushFault> {
    let mut screen = Screen::new(wiring, panel).map_err(Refusal::from)?;
    screen.place(&Pen::new(), picture, 0, 0)?;
    screen.flush(9999)?;
    Ok(screen.into_link())
}

fn agrees(panel: &Panel, wiring: &Wiring) -> bool {
    (0..128).all(|y| (0..128).all(|x| panel.dot(wiring, x, y) == Ok(wanted(x, y))))
}

// Whether the drawing comes out on a module of that wiring.
fn comes_out(heap: Global, wiring: Wiring, picture: &Picture) -> Result<bool, AllocError> {
    let panel = Panel::new(vec![in heap; 0xA5u8; 8192]?, 9999);
    Ok(shown(panel, wiring, picture).is_ok_and(|panel| agrees(&panel, &wiring)))
}

pub fn try_wirings(heap: Global) -> anyhow::Result<Tally> {
    let picture = whole_picture(heap)?;
    let mut tally = Tally::default();
    for comb in [false, true] {
        for flipped in [false, true] {
            for mirrored in [false, true] {
                for shift in 0..128 {
                    let wiring = Wiring::new(mirrored, flipped, comb, shift)?;
                    tally.case(comes_out(heap, wiring, &picture)?);
                }
            }
        }
    }
    Ok(tally)
}
