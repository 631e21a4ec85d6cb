ghost use Rattle.std.specs.Prelude.{◌+◌, ◌^◌, ◌<◌, length};

use crate::fields::cut;

// One line of a text, without its line feed, and its number, from 1.
#[derive(Clone, Copy)]
pub struct Line<'a> {
    pub number: usize,
    pub bytes: &'a [u8],
}

// A reader over the caller's text: what is left of it, and how many lines came before.
#[derive(Clone, Copy)]
pub struct Reader<'a> {
    left: &'a [u8],
    passed: usize,
    ghost few: { passed + length left.now < 2 ^ 64 },
}

impl<'a> Reader<'a> {
    ghost use Rattle.std.specs.Prelude.{◌≡◌};
    ghost use Rattle.texts.specs.Readers.{left_of, passed_of, NextLine, RestLine, Passes};

    // A reader that has handed out nothing of the text.
    pub fn over(text: &'a [u8]) -> Reader<'a>
        ensures left { left_of result ≡ text.now }
        ensures passed { passed_of result ≡ 0 }
    {
        Reader {
            left: text,
            passed: 0,
        }
    }

    // Hands out a line, behind which this is left.
    fn pass(&mut self, bytes: &'a [u8], left: &'a [u8]) -> Line<'a>
        requires { length left.now < length (left_of self.old) }
        ensures line { result.bytes.now ≡ bytes.now }
        ensures left { left_of self.new ≡ left.now }
        ensures passes { Passes self.old self.new result }
    {
        self.left = left;
        self.passed += 1;
        Line {
            number: self.passed,
            bytes,
        }
    }

    // The next line that a line feed ends.
    pub fn next_line(&mut self) -> Option<Line<'a>>
        ensures { NextLine self.old self.new result }
    {
        let (line, left) = cut(self.left, b'\n')?;
        Some(self.pass(line, left))
    }

    // All that is left, as one line: past the last line feed, a line that lacks its own.
    pub fn rest(&mut self) -> Option<Line<'a>>
        ensures { RestLine self.old self.new result }
    {
        if self.left.is_empty() {
            return None;
        }
        Some(self.pass(self.left, &[]))
    }
}
