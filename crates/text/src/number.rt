// A number of a text, byte by byte.
ghost use Rattle.std.specs.Prelude.{◌≡◌, ◌<◌};
ghost use Rattle.text.specs.Scan.{field_ends};

/// What the bytes since the start of a number are: none, a number below 2 ^ 32, or no number.
#[derive(Clone, Copy, Debug, PartialEq, Eq)]
pub enum Number {
    Empty,
    Value(u32),
    Bad,
}

/// Whether a byte ends a number: a space or a newline.
pub(crate) fn ends_field(byte: u8) -> bool
    ensures { result ≡ field_ends byte }
{
    byte == b' ' || byte == b'\n'
}

impl Number {
    ghost use Rattle.text.specs.Scan.{add_digit, digit_in, is_value, value_in, blank, number_after};
    ghost use Rattle.text.specs.ImageLine.{field_in};

    pub(crate) fn is_value(self) -> bool
        ensures { result ≡ is_value self }
    {
        matches!(self, Number::Value(_))
    }

    pub(crate) fn is_empty(self) -> bool
        ensures { result ≡ blank self }
    {
        matches!(self, Number::Empty)
    }

    /// The number, or 0 where there is none.
    pub(crate) fn value(self) -> u32
        ensures { result ≡ value_in self }
    {
        match self {
            Number::Value(v) => v,
            Number::Empty | Number::Bad => 0,
        }
    }

    /// With a digit behind it. Only the number 0 itself begins with 0.
    fn with_digit(self, digit: u32) -> Self
        requires { digit < 10 }
        ensures { result ≡ add_digit self digit }
    {
        match self {
            Number::Empty => Number::Value(digit),
            Number::Value(0) | Number::Bad => Number::Bad,
            Number::Value(v) => match u32::try_from(10 * u64::from(v) + u64::from(digit)) {
                Ok(longer) => Number::Value(longer),
                Err(_) => Number::Bad,
            },
        }
    }

    /// With a byte behind it that ends no number.
    pub(crate) fn with_byte(self, byte: u8) -> Self
        ensures { result ≡ digit_in self byte }
    {
        if byte.is_ascii_digit() {
            self.with_digit(u32::from(byte - b'0'))
        } else {
            Number::Bad
        }
    }

    /// The number since the last space or newline, in the text of calls.
    pub(crate) fn after(self, byte: u8) -> Self
        ensures { result ≡ number_after self byte }
    {
        if ends_field(byte) {
            Number::Empty
        } else {
            self.with_byte(byte)
        }
    }

    /// The number since the last space, in the line of an image: there only a space behind a number ends one.
    pub(crate) fn after_in_line(self, byte: u8) -> Self
        ensures { result ≡ field_in self byte }
    {
        if byte != b' ' {
            self.with_byte(byte)
        } else if self.is_value() {
            Number::Empty
        } else {
            Number::Bad
        }
    }
}
