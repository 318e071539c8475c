// Drawing by example; docs/DRAWING.md has the rules.
use crate::canvas::Canvas;
use crate::pen::Pen;
use crate::rectangle::Rectangle;
use picture::{GrayPicture, Picture};
use refusal::Refusal;
use std::test::Fail;

fn rectangle(x: i32, y: i32, w: u32, h: u32) -> Result<Rectangle, Fail> {
    Ok(Rectangle::new(x, y, w, h)?)
}

// How many dots of the canvas have a gray.
fn dots(c: &Canvas, gray: u8) -> usize {
    (0..128 * 128)
        .filter(|place| c.gray(place % 128, place / 128) == Ok(gray))
        .count()
}

#[test]
fn bars_are_cut_at_the_four_edges(rt: HostRuntime) {
    let mut c = Canvas::new();
    let pen = Pen::new();
    assert_eq!(rt; c.bar(&pen, -3, 60, 5, 1), Ok(()));
    assert_eq!(rt; c.bar(&pen, 125, 60, 255, 1), Ok(()));
    assert_eq!(rt; c.bar(&pen, 60, -3, 1, 5), Ok(()));
    assert_eq!(rt; c.bar(&pen, 60, 125, 1, 255), Ok(()));
    assert_eq!(rt; dots(&c, 15), 10);
    assert_eq!(rt; c.gray(1, 60), Ok(15));
    assert_eq!(rt; c.gray(2, 60), Ok(0));
    assert_eq!(rt; c.gray(124, 60), Ok(0));
    assert_eq!(rt; c.gray(125, 60), Ok(15));
    assert_eq!(rt; c.gray(60, 128), Err(Refusal::Position));
}

#[test]
fn positions_and_sizes_are_judged_in_order(rt: HostRuntime) {
    let mut c = Canvas::new();
    let mut pen = Pen::new();
    assert_eq!(rt; c.bar(&pen, -1024, 1023, 255, 255), Ok(()));
    assert_eq!(rt; c.bar(&pen, -1025, 0, 256, 0), Err(Refusal::Position));
    assert_eq!(rt; c.bar(&pen, 0, 0, 0, 256), Err(Refusal::Size));
    assert_eq!(rt; c.dot(&pen, 0, 1024), Err(Refusal::Position));
    assert_eq!(rt; pen.ink(16), Err(Refusal::Gray));
    assert_eq!(rt; dots(&c, 0), 16384);
}

#[test]
fn narrowings_nest_and_end(rt: HostRuntime) -> Result<(), Fail> {
    let mut c = Canvas::new();
    let mut pen = Pen::new();
    {
        let a = pen.narrow(rectangle(10, 10, 4, 4)?);
        assert_eq!(rt; a.pen.ink(1), Ok(()));
        {
            let b = a.pen.narrow(rectangle(12, 12, 4, 4)?);
            assert_eq!(rt; b.pen.ink(2), Ok(()));
            {
                let none = b.pen.narrow(rectangle(0, 0, 5, 5)?);
                assert_eq!(rt; c.bar(none.pen, 0, 0, 255, 255), Ok(()));
            }
            assert_eq!(rt; c.bar(b.pen, 0, 0, 255, 255), Ok(()));
        }
        assert_eq!(rt; dots(&c, 2), 4);
        assert_eq!(rt; c.bar(a.pen, 0, 0, 255, 255), Ok(()));
    }
    assert_eq!(rt; dots(&c, 1), 16);
    assert_eq!(rt; c.dot(&pen, 0, 0), Ok(()));
    assert_eq!(rt; c.gray(0, 0), Ok(15));
    Ok(())
}

#[test]
fn clear_dots_and_dots_outside_stay(rt: HostRuntime) -> Result<(), Fail> {
    let mut c = Canvas::new();
    let pen = Pen::new();
    let bytes: &[u8] = &[0x39];
    let pair = GrayPicture::new(bytes, 2, 1).map_err(Refusal::from)?;
    assert_eq!(rt; c.place(&pen, &pair, -1, 127), Ok(()));
    assert_eq!(rt; c.gray(0, 127), Ok(9));
    assert_eq!(rt; dots(&c, 3), 0);
    Ok(())
}

#[test]
fn a_byte_is_due_once_a_dot_of_it_changes(rt: HostRuntime) {
    assert_eq!(rt; Canvas::new().is_due(127, 63), Ok(true));
    let mut c = Canvas {
        cells: [0; 8192],
        due: [0; 128],
    };
    let mut pen = Pen::new();
    assert_eq!(rt; pen.ink(0), Ok(()));
    assert_eq!(rt; c.bar(&pen, 0, 0, 128, 128), Ok(()));
    assert_eq!(rt; c.is_due(2, 1), Ok(false));
    assert_eq!(rt; pen.ink(5), Ok(()));
    assert_eq!(rt; c.dot(&pen, 3, 2), Ok(()));
    assert_eq!(rt; c.is_due(2, 1), Ok(true));
    assert_eq!(rt; c.is_due(2, 0), Ok(false));
    assert_eq!(rt; c.is_due(2, 2), Ok(false));
    assert_eq!(rt; c.is_due(128, 0), Err(Refusal::Position));
}
