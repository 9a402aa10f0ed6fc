// The lines of a text of calls, byte by byte.
ghost use Rattle.std.specs.Prelude.{◌≡◌, ◌+◌, ◌^◌, ◌<◌, ◌≤◌, length};

use crate::number::Number;

/// A line so far: the numbers before its last space, and the number since.
#[derive(Clone, Copy, Debug, PartialEq, Eq)]
pub struct Line {
    pub fields: u32,
    pub number: Number,
}

impl Line {
    ghost use Rattle.text.specs.Scan.{fresh_line, space_in, line_in, line_good, line_blank};

    fn new() -> Self
        ensures { result ≡ fresh_line }
    {
        Line {
            fields: 0,
            number: Number::Empty,
        }
    }

    /// Five numbers.
    fn is_good(self) -> bool
        ensures { result ≡ line_good self }
    {
        self.number.is_value() && self.fields == 4
    }

    /// No byte of the line was read.
    fn is_blank(self) -> bool
        ensures { result ≡ line_blank self }
    {
        self.number.is_empty() && self.fields == 0
    }

    /// A fifth space makes the line bad.
    fn with_space(self) -> Self
        ensures { result ≡ space_in self }
    {
        if self.number.is_value() && self.fields < 4 {
            Line {
                fields: self.fields + 1,
                number: Number::Empty,
            }
        } else {
            Line {
                number: Number::Bad,
                ..self
            }
        }
    }

    fn with_byte(self, byte: u8) -> Self
        ensures { result ≡ line_in self byte }
    {
        if byte == b' ' {
            return self.with_space();
        }
        Line {
            number: self.number.with_byte(byte),
            ..self
        }
    }
}

/// The lines so far: how many ended, the number of the first bad one, and the line since. Where none is bad the number
/// is 0 and no Option: so specs/Scan has it, and the laws that say which line is the first bad one.
#[derive(Clone, Copy, Debug, PartialEq, Eq)]
pub struct Lines {
    pub ended: u32,
    pub bad: u32,
    pub line: Line,
}

impl Lines {
    ghost use Rattle.text.specs.Scan.{scan, fresh_lines, line_ended, byte_in, rest_in};

    fn new() -> Self
        ensures { result ≡ fresh_lines }
    {
        Lines {
            ended: 0,
            bad: 0,
            line: Line::new(),
        }
    }

    fn end_line(&mut self, good: bool)
        requires { self.old.ended + 1 < 2 ^ 32 }
        ensures { self.new ≡ line_ended good self.old }
    {
        self.ended += 1;
        if self.bad == 0 && !good {
            self.bad = self.ended;
        }
        self.line = Line::new();
    }

    fn push(&mut self, byte: u8)
        requires { self.old.ended + 1 < 2 ^ 32 }
        ensures { self.new ≡ byte_in self.old byte }
    {
        if byte == b'\n' {
            self.end_line(self.line.is_good());
        } else {
            self.line = self.line.with_byte(byte);
        }
    }

    /// Ends the text: a rest without a newline is a line too, and bad.
    fn end(&mut self)
        requires { self.old.ended + 1 < 2 ^ 32 }
        ensures { self.new ≡ rest_in self.old }
    {
        if !self.line.is_blank() {
            self.end_line(false);
        }
    }

    /// All lines of the bytes.
    pub(crate) fn of(bytes: &[u8]) -> Self
        requires { length bytes.now + 1 < 2 ^ 32 }
        ensures { result ≡ rest_in (scan byte_in fresh_lines bytes.now) }
    {
        let mut lines = Lines::new();
        for &byte in bytes {
            lines.push(byte);
        }
        lines.end();
        lines
    }
}
