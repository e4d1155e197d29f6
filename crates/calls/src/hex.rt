// Bytes as text: two lower-case hexadecimal digits each, and a dash for no bytes.
ghost use Rattle.std.specs.Prelude.{◌≡◌, ◌<◌, Some};
ghost use Rattle.std.specs.Char.{digit_char};
ghost use Rattle.std.specs.Fmt.{WritesOnOk};
ghost use Rattle.calls.specs.Texts.{byte_text, bytes_text};

use std::fmt;

#[derive(Drop)]
pub struct Hex<'a> {
    pub bytes: &'a [u8],
}

fn hex_digit(value: u8) -> char
    requires { value < 16 }
    ensures digit { result ≡ digit_char value }
    ensures ascii { result < 128 }
{
    char::from_digit(u32::from(value), 16).unwrap()
}

// Digit by digit: a width to be filled up costs half as much again, and texts of bytes are most of a long log.
fn write_byte<W: fmt::Write>(f: &mut fmt::Formatter<W>, byte: u8) -> fmt::Result
    ensures { WritesOnOk W.Write.write_str_gives f.old result (byte_text byte) f.new }
{
    let high = hex_digit(byte / 16);
    let low = hex_digit(byte % 16);
    write!(f, "{high}{low}")
}

impl fmt::Display for Hex<'_> {
    ghost output = { λ h. Some (bytes_text h.bytes.now) };

    fn fmt<W: fmt::Write>(&self, f: &mut fmt::Formatter<W>) -> fmt::Result {
        if self.bytes.is_empty() {
            return f.write_str("-");
        }
        for byte in self.bytes {
            write_byte(f, *byte)?;
        }
        Ok(())
    }
}
