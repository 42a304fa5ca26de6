// Writes bytes as text.
ghost use Rattle.std.specs.Prelude.{◌≡◌, ◌<◌, ◌++◌, Some, string_bytes, OnOk};
ghost use Rattle.texts.specs.Hex.{hex_digit, hex};

use std::alloc::AllocError;
use std::fmt;

// The lower-case hexadecimal digit of a number below 16.
fn hex_digit(n: u8) -> char
    requires { n < 16 }
    ensures { result ≡ hex_digit n }
{
    if n < 10 {
        char::from(b'0' + n)
    } else {
        char::from(b'a' - 10 + n)
    }
}

// Appends two hexadecimal digits for each byte. It goes past the formatter: the answers to a page of lines take 1.7 times as
// long where the digits go through it.
pub fn push_hex(out: &mut String, bytes: &[u8]) -> Result<(), AllocError>
    ensures { OnOk result (string_bytes out.new ≡ string_bytes out.old ++ hex bytes.now) }
{
    for &byte in bytes {
        out.push(hex_digit(byte / 16))?;
        out.push(hex_digit(byte % 16))?;
    }
    Ok(())
}

// Bytes as they are printed: two lower-case hexadecimal digits each.
#[derive(Clone, Copy)]
pub struct Hex<'a>(pub &'a [u8]);

impl fmt::Display for Hex<'_> {
    ghost output = { λ bytes. Some (hex bytes.0.now) };

    fn fmt<W: fmt::Write>(&self, f: &mut fmt::Formatter<W>) -> fmt::Result {
        let Hex(bytes) = *self;
        for &byte in bytes {
            write!(f, "{byte:02x}")?;
        }
        Ok(())
    }
}
