// The edges of every refusal, and of a script's room, through public calls.
use crate::tally::Tally;
use drawing::{Pen, Rectangle};
use link::{Link, ListingLink, Panel};
use listing::{Record, check, write_record};
use picture::{BitPicture, Crop, GrayPicture, Picture};
use refusal::HandedBack;
use screen::{FlushFault, Screen};
use script::{Unread, read};
use ssd1329::{Controller, Transfer, Wiring};
use std::alloc::{AllocError, Global};

fn panel(heap: Global, transfers: u32) -> Result<Panel, AllocError> {
    Ok(Panel::new(vec![in heap; 0u8; 8192]?, transfers))
}

type Bits = Result<BitPicture<Vec<u8>>, HandedBack<Vec<u8>>>;

fn bits(heap: Global, bytes: usize, width: u32, height: u32, gray: u8) -> Result<Bits, AllocError> {
    Ok(BitPicture::new(vec![in heap; 0xFFu8; bytes]?, width, height, gray))
}

impl Tally {
    // 5, 1 and 4 in this order; 2 and 3.
    fn try_link(&mut self, heap: Global) -> Result<(), AllocError> {
        let mut link = panel(heap, 3)?;
        self.number(link.send(Transfer::Command(0xE3)), 3);
        self.number(link.close(), 3);
        self.number(link.open(0), 5);
        self.number(link.open(10000), 5);
        self.number(link.open(9999), 0);
        self.number(link.open(0), 5);
        self.number(link.open(1), 1);
        for _ in 0..3 {
            self.number(link.send(Transfer::Command(0xE3)), 0);
        }
        self.number(link.send(Transfer::Command(0xE3)), 2);
        self.number(link.close(), 0);
        self.number(link.open(10000), 5);
        self.number(link.open(1), 4);
        Ok(())
    }

    // 15 for memory and buffers.
    fn try_memory(&mut self, heap: Global) -> Result<(), AllocError> {
        for (size, wanted) in [(8191usize, 15u8), (8192, 0), (8193, 15)] {
            let memory = vec![in heap; 0u8; size]?;
            self.number(Panel::check(memory.as_slice()), wanted);
            self.number(Controller::new(memory), wanted);
        }
        for (size, wanted) in [(0usize, 0u8), (65535, 0), (65536, 15)] {
            let buffer = vec![in heap; 0u8; size]?;
            self.number(ListingLink::check(buffer.as_slice()), wanted);
        }
        Ok(())
    }

    // 6, then 15 for row text; 6 for a dot of the glass.
    fn try_glass(&mut self, heap: Global) -> Result<(), AllocError> {
        let controller = Controller::blank(heap)?;
        let wiring = Wiring::plain();
        let mut row = vec![in heap; 0u8; 1408]?;
        let row = row.as_mut_slice();
        self.number(controller.row_text(&wiring, 127, row), 0);
        self.number(controller.row_text(&wiring, 128, row), 6);
        self.number(controller.row_text(&wiring, 127, &mut row[0..1407]), 15);
        self.number(controller.row_text(&wiring, 128, &mut row[0..1407]), 6);
        self.number(controller.dot(&wiring, 127, 127), 0);
        self.number(controller.dot(&wiring, 128, 0), 6);
        self.number(controller.dot(&wiring, 0, 128), 6);
        Ok(())
    }

    // 11 for a wiring, and 1 for a link that is open or has taken something.
    fn try_making(&mut self, heap: Global) -> Result<(), AllocError> {
        self.number(Wiring::new(true, true, true, 127), 0);
        self.number(Wiring::new(false, false, false, 128), 11);
        self.number(Screen::new(Wiring::plain(), panel(heap, 9)?), 0);
        let mut open = panel(heap, 9)?;
        self.number(open.open(1), 0);
        self.number(Screen::new(Wiring::plain(), open), 1);
        let mut used = panel(heap, 9)?;
        self.number(used.open(1), 0);
        self.number(used.send(Transfer::Command(0xE3)), 0);
        self.number(used.close(), 0);
        self.number(Screen::new(Wiring::plain(), used), 1);
        Ok(())
    }

    // 6, 7 and 8 for drawing.
    fn try_drawing(&mut self, heap: Global) -> Result<(), AllocError> {
        let Ok(mut screen) = Screen::new(Wiring::plain(), panel(heap, 9)?) else {
            self.case(false);
            return Ok(());
        };
        let mut pen = Pen::new();
        for (p, wanted) in [(-1025i32, 6u8), (-1024, 0), (1023, 0), (1024, 6)] {
            self.number(screen.dot(&pen, p, 0), wanted);
            self.number(screen.dot(&pen, 0, p), wanted);
            self.number(screen.bar(&pen, p, 0, 1, 1), wanted);
            self.number(Rectangle::new(0, p, 1, 1), wanted);
        }
        for (n, wanted) in [(0u32, 0u8), (255, 0), (256, 7)] {
            self.number(screen.bar(&pen, 0, 0, n, 1), wanted);
            self.number(screen.bar(&pen, 0, 0, 1, n), wanted);
            self.number(Rectangle::new(0, 0, n, n), wanted);
        }
        self.number(screen.bar(&pen, 1024, 0, 256, 1), 6);
        self.number(pen.ink(15), 0);
        self.number(pen.ink(16), 8);
        self.number(screen.gray(128, 0), 6);
        Ok(())
    }

    // 9, then 8 for pictures; 10 for a crop; 12 for a dot outside.
    fn try_pictures(&mut self, heap: Global) -> Result<(), AllocError> {
        for (bytes, width, height, gray, wanted) in [
            (2usize, 9u32, 1u32, 15u8, 0u8),
            (1, 9, 1, 15, 9),
            (3, 9, 1, 15, 9),
            (0, 0, 1, 15, 9),
            (0, 1, 0, 15, 9),
            (2048, 128, 128, 15, 0),
            (17, 129, 1, 15, 9),
            (129, 1, 129, 15, 9),
            (2, 9, 1, 16, 8),
            (1, 9, 1, 16, 9),
        ] {
            self.number(bits(heap, bytes, width, height, gray)?, wanted);
        }
        for (bytes, width, wanted) in [(1usize, 2u32, 0u8), (2, 3, 0), (1, 3, 9), (65, 129, 9)] {
            self.number(
                GrayPicture::new(vec![in heap; 0u8; bytes]?, width, 1),
                wanted,
            );
        }
        for (a, b, w, h, wanted) in [
            (0u32, 0u32, 8u32, 2u32, 0u8),
            (7, 1, 1, 1, 0),
            (0, 0, 0, 1, 10),
            (0, 0, 1, 0, 10),
            (1, 0, 8, 1, 10),
            (0, 1, 1, 2, 10),
            (u32::MAX, 0, 1, 1, 10),
        ] {
            if let Ok(picture) = bits(heap, 2, 8, 2, 9)? {
                self.number(picture.dot(7, 1), 0);
                self.number(picture.dot(8, 0), 12);
                self.number(picture.dot(0, 2), 12);
                self.number(Crop::new(picture, a, b, w, h), wanted);
            } else {
                self.case(false);
            }
        }
        Ok(())
    }

    // 13 with its place; 5, then 15 for a record.
    fn try_listing(&mut self, heap: Global) -> Result<(), AllocError> {
        let good = b"O\t0001\nC\tAF\nZ\n";
        self.case(check(good).is_ok());
        let late = b"O\t0001\nC\tAF\nC\tAF\nZ\n";
        self.case(matches!(check(late), Err(bad) if bad.number() == 13 && bad.place == 12));
        let long = vec![in heap; b'Z'; 65536]?;
        self.case(matches!(check(long.as_slice()), Err(bad) if bad.place == 65535));
        let mut line = [0u8; 7];
        self.number(write_record(&mut line, 0, Record::Open(0)), 5);
        self.number(write_record(&mut line, 1, Record::Open(10000)), 5);
        self.number(write_record(&mut line, 0, Record::Open(9999)), 0);
        self.number(write_record(&mut line, 1, Record::Open(9999)), 15);
        Ok(())
    }

    // 5, then 4 for a flush; 14 with its values.
    fn try_flush(&mut self, heap: Global) -> Result<(), AllocError> {
        let Ok(mut screen) = Screen::new(Wiring::plain(), panel(heap, 9)?) else {
            self.case(false);
            return Ok(());
        };
        self.number(screen.flush(0), 5);
        self.number(screen.flush(10000), 5);
        self.case(matches!(
            screen.flush(9999),
            Err(FlushFault::LeftOver(left)) if left.count == 9 && left.due == 8190
        ));
        self.number(screen.flush(1), 4);
        self.number(screen.flush(0), 5);
        let Ok(mut lit) = Screen::new(Wiring::plain(), panel(heap, 9999)?) else {
            self.case(false);
            return Ok(());
        };
        self.number(lit.flush(8198), 14);
        self.number(lit.flush(9999), 0);
        self.number(lit.flush(1), 0);
        Ok(())
    }

    // A script has room for 65,535 bytes: two lines in front, and 16,379 ends.
    fn try_room(&mut self, heap: Global) -> Result<(), AllocError> {
        let mut text = Vec::new(heap);
        text.extend_from_slice(b"card\t-\t0\nbuffer\t19\n")?;
        for _ in 0..16379u32 {
            text.extend_from_slice(b"end\n")?;
        }
        self.case(read(heap, text.as_slice()).is_ok_and(|script| text.len() == 65535
            && script.lines.len() == 16379));
        text.extend_from_slice(b"end\n")?;
        self.case(matches!(read(heap, text.as_slice()), Err(Unread::BadLine(16382))));
        Ok(())
    }
}

pub fn try_edges(heap: Global) -> Result<Tally, AllocError> {
    let mut tally = Tally::default();
    tally.try_link(heap)?;
    tally.try_memory(heap)?;
    tally.try_glass(heap)?;
    tally.try_making(heap)?;
    tally.try_drawing(heap)?;
    tally.try_pictures(heap)?;
    tally.try_listing(heap)?;
    tally.try_flush(heap)?;
    tally.try_room(heap)?;
    Ok(tally)
}
