// Text fields and times of day as they are listed.
use std::fmt;

// Bytes in quotation marks: printable ASCII as itself, but for the quotation mark and the backslash; every other byte as
// \x and two hexadecimal digits.
#[derive(Clone, Copy)]
pub(crate) struct Quoted<'a>(pub &'a [u8]);

impl fmt::Display for Quoted<'_> {
    fn fmt<W: fmt::Write>(&self, f: &mut fmt::Formatter<W>) -> fmt::Result {
        write!(f, "\"")?;
        for byte in self.0 {
            let c = char::from(*byte);
            match c {
                ' '..='~' if c != '"' && c != '\\' => write!(f, "{c}")?,
                _ => write!(f, "\\x{byte:02x}")?,
            }
        }
        write!(f, "\"")
    }
}

// A second after midnight as hours, minutes and seconds.
#[derive(Clone, Copy)]
pub(crate) struct TimeOfDay(pub u32);

impl fmt::Display for TimeOfDay {
    fn fmt<W: fmt::Write>(&self, f: &mut fmt::Formatter<W>) -> fmt::Result {
        let hours = self.0 / 3600;
        let minutes = self.0 / 60 % 60;
        let seconds = self.0 % 60;
        write!(f, "{hours:02}:{minutes:02}:{seconds:02}")
    }
}
