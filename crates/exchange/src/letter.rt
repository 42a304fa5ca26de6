// What one site tells another of its layout: the bytes of a descriptor.
use crate::failure::Failure;
use descriptor::{LONGEST, read, write};
use layouts::Layout;
use std::fmt;

// No list on the heap: a letter is had without memory.
#[derive(Clone, Copy)]
pub struct Letter {
    bytes: [u8; LONGEST],
    length: usize,
}

impl Letter {
    // The letter that describes a layout.
    pub fn about(layout: &Layout) -> Result<Letter, Failure> {
        let mut bytes = [0u8; LONGEST];
        let length = write(layout, &mut bytes)?;
        Ok(Letter { bytes, length })
    }

    // The bytes that were written.
    fn text(&self) -> &[u8] {
        self.bytes.get(..self.length).unwrap_or(&[])
    }

    // The layout that the letter describes.
    pub fn layout(&self) -> Result<Layout, Failure> {
        Ok(read(self.text())?)
    }
}

// The bytes in hexadecimal.
impl fmt::Display for Letter {
    fn fmt<W: fmt::Write>(&self, f: &mut fmt::Formatter<W>) -> fmt::Result {
        for byte in self.text() {
            write!(f, " {byte:02x}")?;
        }
        Ok(())
    }
}
