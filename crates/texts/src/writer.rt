// Lines of fields, written into a buffer of the caller's.
mod line;
mod put;

ghost use Rattle.std.specs.Prelude.{◌≤◌, length};

pub use line::{line_len, write_front, write_line};
pub use put::number_len;

// One field of a line.
#[derive(Clone, Copy)]
pub enum Field<'a> {
    // bytes as they are
    Word(&'a [u8]),
    // a number in decimal
    Number(usize),
    // bytes in hex, two lowercase digits each, the upper half first
    Hex(&'a [u8]),
}

// A buffer of the caller's, and the place in it up to which it is written: a slice of the free part alone would not tell how
// much is written.
#[derive(Drop)]
pub struct Writer<'a> {
    out: &'a mut [u8],
    place: usize,
    ghost within: { place ≤ length out.now },
}

impl<'a> Writer<'a> {
    ghost use Rattle.std.specs.Prelude.{◌≡◌};
    ghost use Rattle.texts.specs.Writers.{Fronts, place_of};

    // A writer at the front of a buffer.
    pub fn over(out: &'a mut [u8]) -> Writer<'a>
        ensures { Fronts out.entry result }
    {
        Writer { out, place: 0 }
    }

    // How many bytes of the buffer are written.
    pub fn place(&self) -> usize
        ensures { result ≡ place_of self.now }
    {
        self.place
    }
}
