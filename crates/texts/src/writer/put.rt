// Single texts, written where a buffer has room for them: no text here is a `Display`, since one that does not fit has to be
// refused and leave the buffer alone, and a `fmt` promises nothing where it stops.
// Inlined down to a single byte: where the writer is a local value, its place then stays in a register, and is not stored
// behind a reference for each text.
ghost use Rattle.std.specs.Prelude.{◌≡◌, ◌<◌, ◌≤◌, [], ◌∷◌, length, decimal};
ghost use Rattle.std.specs.Char.{digit_char};
ghost use Rattle.texts.specs.Hex.{hex};
ghost use Rattle.texts.specs.Lines.{field_text};
ghost use Rattle.texts.specs.Writers.{Puts, Room};

use super::{Field, Writer};

impl Writer<'_> {
    #[inline(always)]
    fn put(&mut self, bytes: &[u8])
        requires { Room self.old bytes.now }
        ensures { Puts self.old bytes.now self.new }
    {
        let end = self.place + bytes.len();
        self.out[self.place..end].copy_from_slice(bytes);
        self.place = end;
    }

    #[inline(always)]
    pub(crate) fn put_byte(&mut self, byte: u8)
        requires { Room self.old (byte ∷ []) }
        ensures { Puts self.old (byte ∷ []) self.new }
    {
        self.out[self.place] = byte;
        self.place += 1;
    }

    fn put_number(&mut self, n: usize)
        requires { Room self.old (decimal n) }
        ensures { Puts self.old (decimal n) self.new }
    {
        self.put(itoa::Buffer::new().format(n).as_bytes());
    }

    fn put_hex(&mut self, bytes: &[u8])
        requires { Room self.old (hex bytes.now) }
        ensures { Puts self.old (hex bytes.now) self.new }
    {
        let end = self.place + 2 * bytes.len();
        fill_hex(&mut self.out[self.place..end], bytes);
        self.place = end;
    }

    #[inline(always)]
    pub(super) fn put_field(&mut self, field: Field)
        requires { Room self.old (field_text field) }
        ensures { Puts self.old (field_text field.entry) self.new }
    {
        match field {
            Field::Word(bytes) => self.put(bytes),
            Field::Number(n) => self.put_number(n),
            Field::Hex(bytes) => self.put_hex(bytes),
        }
    }
}

// By hand: `from_digit` gives a `char`, to be turned back into a byte, which is no plainer; and the kit's `hex` cannot be used in
// a crate with a module of that name, which is public here.
fn hex_character(half: u8) -> u8
    requires { half < 16 }
    ensures { result ≡ digit_char half }
{
    if half < 10 {
        b'0' + half
    } else {
        b'a' + (half - 10)
    }
}

// Fills a buffer with the hex of these bytes, by a writer of its own: behind a reference, its place would be stored for each byte.
fn fill_hex(out: &mut [u8], bytes: &[u8])
    requires { length out.old ≡ length (hex bytes.now) }
    ensures { out.new ≡ hex bytes.now }
{
    let mut writer = Writer::over(out);
    for byte in bytes {
        writer.put_byte(hex_character(*byte / 16));
        writer.put_byte(hex_character(*byte % 16));
    }
}

// How many digits a number has in decimal.
pub fn number_len(n: usize) -> usize
    ensures value { result ≡ length (decimal n) }
    ensures few { result ≤ 20 }
{
    match n.checked_ilog10() {
        Some(log) => log as usize + 1,
        None => 1,
    }
}
