ghost use Rattle.std.specs.Prelude.{◌^◌, ◌<◌, map, length};
ghost use Rattle.std.specs.Option.{SomeIff};
ghost use Rattle.texts.specs.Buffers.{WrittenAt, Written};
ghost use Rattle.texts.specs.Lines.{behind, field_text, line_of};
ghost use Rattle.texts.specs.Writers.{Puts, PutsIfRoom, Room};

use super::put::number_len;
use super::{Field, Writer};
use refusals::Refusal;

impl Field<'_> {
    // How long the text of a field is; absent where 64 bits do not hold it.
    fn len(self) -> Option<usize>
        ensures { SomeIff result (length (field_text self.entry) < 2 ^ 64) (length (field_text self.entry)) }
    {
        match self {
            Field::Word(bytes) => Some(bytes.len()),
            Field::Number(n) => Some(number_len(n)),
            Field::Hex(bytes) => bytes.len().checked_mul(2),
        }
    }
}

// How long the line of these fields is; absent where 64 bits do not hold it.
pub fn line_len(fields: &[Field]) -> Option<usize>
    ensures { SomeIff result (length (line_of fields.now) < 2 ^ 64) (length (line_of fields.now)) }
{
    if fields.is_empty() {
        return Some(1);
    }
    // behind each field stands one byte: a tab, or the line feed
    let mut total: usize = 0;
    for field in fields {
        let marked = field.len()?.checked_add(1)?;
        total = total.checked_add(marked)?;
    }
    Some(total)
}

impl Writer<'_> {
    // What stands behind the first field. Inlined like the single texts, for the same reason.
    #[inline(always)]
    fn put_behind(&mut self, fields: &[Field])
        requires { Room self.old (behind (map field_text fields.now)) }
        ensures { Puts self.old (behind (map field_text fields.now)) self.new }
    {
        for field in fields {
            self.put_byte(b'\t');
            self.put_field(*field);
        }
        self.put_byte(b'\n');
    }

    #[inline(always)]
    fn put_line(&mut self, fields: &[Field])
        requires { Room self.old (line_of fields.now) }
        ensures { Puts self.old (line_of fields.now) self.new }
    {
        match fields {
            [] => self.put_byte(b'\n'),
            [first, more @ ..] => {
                self.put_field(*first);
                self.put_behind(more);
            }
        }
    }

    // Writes the line of these fields behind what is written. It looks at the length first, so that a line that does not
    // fit leaves the writer and its buffer alone.
    pub fn write_line(&mut self, fields: &[Field]) -> Result<(), Refusal>
        ensures { PutsIfRoom self.old (line_of fields.now) self.new result }
    {
        let len = line_len(fields).ok_or(Refusal::OutputTooShort)?;
        if len > self.out.len() - self.place {
            return Err(Refusal::OutputTooShort);
        }
        self.put_line(fields);
        Ok(())
    }
}

// Writes the line of these fields into the buffer from a place on, and answers the place behind it.
// A line that does not fit leaves the buffer alone. Kept beside the writer: by a rule of the project public
// calls stay.
pub fn write_line(fields: &[Field], out: &mut [u8], at: usize) -> Option<usize>
    ensures { WrittenAt out.old at (line_of fields.now) out.new result }
{
    if at > out.len() {
        return None;
    }
    let mut writer = Writer { out, place: at };
    writer.write_line(fields).ok()?;
    Some(writer.place)
}

// Writes the line of these fields at the front of the buffer, and answers its length.
pub fn write_front(fields: &[Field], out: &mut [u8]) -> Result<usize, Refusal>
    ensures { Written (line_of fields.now) out.old out.new result }
{
    write_line(fields, out, 0).ok_or(Refusal::OutputTooShort)
}
