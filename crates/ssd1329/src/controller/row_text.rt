// The text of a row of the glass: a line for each dot above 0.
ghost use Rattle.std.specs.Prelude.{◌+◌, ◌≤◌, length};
ghost use Rattle.ssd1329.specs.Meaning.{chip, wires};
ghost use Rattle.ssd1329.specs.RowText.{decimal, dot_line};
ghost use Rattle.ssd1329.specs.RowTextCall.{RowWritten};

use super::Controller;
use crate::below::{Below, Gray, Position};
use crate::wiring::Wiring;
use refusal::Refusal;

// The longest text of a row: 128 lines of at most 11 bytes.
const LONGEST_ROW: usize = 1408;

// A text that grows at the front of a lent buffer.
#[derive(Drop)]
struct Text<'a> {
    buffer: &'a mut [u8],
    len: usize,
}

impl<'a> Text<'a> {
    ghost use Rattle.ssd1329.specs.Text.{Adds};

    #[tactic(auto, using(crate::proofs::Texts::put_written, crate::proofs::Texts::written_long))]
    fn put(&mut self, bytes: &[u8])
        requires { self.old.len + length bytes.now ≤ length self.old.buffer.now }
        ensures { Adds self.old self.new bytes.now }
    {
        let end = self.len + bytes.len();
        self.buffer[self.len..end].copy_from_slice(bytes);
        self.len = end;
    }

    // A number in decimal digits, by their count, which each copy then knows: a dot has three numbers, and the library's
    // buffer of forty bytes took longer. The contract of `write!` lets any call fail.
    #[tactic(auto, unfolding(crate::specs::RowText::decimal))]
    fn put_decimal(&mut self, n: u8)
        requires { self.old.len + 3 ≤ length self.old.buffer.now }
        ensures { Adds self.old self.new (decimal n) }
    {
        let ones = b'0' + n % 10;
        match n {
            0..=9 => self.put(&[ones]),
            10..=99 => self.put(&[b'0' + n / 10, ones]),
            100.. => self.put(&[b'0' + n / 100, b'0' + n / 10 % 10, ones]),
        }
    }

    // The line of a dot.
    #[tactic(auto, using(crate::proofs::Texts::decimal_short, crate::proofs::Texts::decimal_below_100))]
    fn put_dot(&mut self, y: Position, x: Position, gray: Gray)
        requires { self.old.len + 11 ≤ length self.old.buffer.now }
        ensures { Adds self.old self.new (dot_line y x gray) }
    {
        self.put_decimal(y.0);
        self.put(b"\t");
        self.put_decimal(x.0);
        self.put(b"\t");
        self.put_decimal(gray.0);
        self.put(b"\n");
    }
}

impl Controller {
    // Writes the text of row y at the front of the buffer; the answer is its length.
    // A row above 127 is refused, then a buffer of less than 1,408 bytes.
    // The buffer is memory of the caller: nothing is allocated here.
    pub fn row_text(&self, wiring: &Wiring, y: u32, out: &mut [u8]) -> Result<usize, Refusal>
        ensures { RowWritten (wires wiring.now) (chip self.now) y out.old out.new result }
    {
        let row = Position::try_from(y)?;
        if out.len() < LONGEST_ROW {
            return Err(Refusal::Memory);
        }
        let mut text = Text {
            buffer: out,
            len: 0,
        };
        for x in 0..128 {
            let x = Below(x);
            let gray = self.gray(wiring, x, row);
            if gray.0 > 0 {
                text.put_dot(row, x, gray);
            }
        }
        Ok(text.len)
    }
}
