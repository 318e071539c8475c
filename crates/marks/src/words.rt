// The mark word of one line. Bit k is set if byte k is due.
ghost use Rattle.std.specs.Prelude.{◌≡◌};
ghost use Rattle.marks.specs.Marks.{due, Clearing};
ghost use Rattle.marks.specs.FirstRun.{FirstRun};

use crate::run::Run;

// The first run of due bytes; none if no byte is due.
pub fn first_run(w: u64) -> Option<Run>
    ensures { FirstRun w result }
{
    if w == 0 {
        return None;
    }
    let start = w.trailing_zeros();
    let len = (w >> start).trailing_ones();
    Some(Run { start, len })
}

// The word without its m marks from start on; the word as it was, if they are not all within it.
// Two numbers and no `Run`, since they may be any.
pub fn cleared(w: u64, start: u32, m: u32) -> u64
    ensures { Clearing w start m result }
{
    if m == 0 || m > 64 || start > 64 - m {
        return w;
    }
    let mask = (u64::MAX >> (64 - m)) << start;
    w & !mask
}

// How many bytes are due.
pub fn due_bytes(w: u64) -> u32
    ensures { result ≡ due w }
{
    w.count_ones()
}
