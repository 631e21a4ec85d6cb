// The entries of a file: its lines that are no remarks.
ghost use Rattle.texts.specs.Readers.{left_of, passed_of};
ghost use Rattle.vector_files.specs.Entries.{NextEntry};

use crate::fields::is_remark;
use crate::read::read_vector;
use crate::vector::{Fault, Vector};
use texts::reader::Reader;

// A line's number and what it says: a vector, or what is wrong with it.
#[derive(Clone, Copy)]
pub struct Entry<'a> {
    pub line: usize,
    pub vector: Result<Vector<'a>, Fault>,
}

// The next entry, past all remarks; absent at the end of the text.
pub fn next_entry<'a>(reader: &mut Reader<'a>) -> Option<Entry<'a>>
    ensures { NextEntry (passed_of reader.old) (left_of reader.old) result (passed_of reader.new) (left_of reader.new) }
{
    while let Some(line) = reader.next_line() {
        if !is_remark(line.bytes) {
            return Some(Entry {
                line: line.number,
                vector: read_vector(line.bytes),
            });
        }
    }
    reader.rest().map(|line| Entry {
        line: line.number,
        vector: Err(Fault::Unended),
    })
}
