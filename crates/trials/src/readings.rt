// The reader against a second reading of the format, which keeps no rule of the first: it gathers the bytes of a number
// with their place first, and then judges the number by its place in the row.
use crate::source::{LETTERS, Source};
use descriptor::{LONGEST, read, write};
use draws::Draws;
use layouts::Layout;
use masked::Refusal;
use orders::named;
use placement::Shape;
use std::alloc::Global;
use tally::Tally;

// How many one-bits, counted one after another.
fn one_bits(n: u32) -> usize {
    (0..32u32).filter(|k| n.wrapping_shr(*k) % 2 == 1).count()
}

// How many binary digits, counted one after another.
fn binary_digits(n: u32) -> usize {
    (0..32u32).filter(|k| n.wrapping_shr(*k) > 0).count()
}

// A refusal as the format has it: its number and the place, and no type of the library's.
#[derive(Clone, Copy, PartialEq, Eq, Debug)]
struct Verdict {
    number: u8,
    place: usize,
}

// A number of a descriptor, and the place of its first byte.
#[derive(Clone, Copy)]
struct Number {
    value: u32,
    place: usize,
}

impl Number {
    // Refuses the number by the number of a rule of the format, unless the rule is kept.
    fn must(self, is_kept: bool, number: u8) -> Result<(), Verdict> {
        if is_kept {
            Ok(())
        } else {
            Err(Verdict {
                number,
                place: self.place,
            })
        }
    }
}

// A row of numbers, and the place of the next.
#[derive(Drop)]
struct Numbers<'a> {
    input: &'a [u8],
    place: usize,
}

impl<'a> Numbers<'a> {
    // What is left of the input.
    fn rest(&self) -> &'a [u8] {
        let input = self.input;
        input.get(self.place..).unwrap_or(&[])
    }

    // How many bytes the next number has: it ends within four, at the first that is below 128.
    fn length(&self) -> Result<usize, Verdict> {
        let rest = self.rest();
        match rest.iter().take(4).position(|byte| *byte < 128) {
            Some(last) => Ok(last.saturating_add(1)),
            None if rest.len() < 4 => Err(Verdict {
                number: 1,
                place: self.input.len(),
            }),
            None => Err(Verdict {
                number: 2,
                place: self.place,
            }),
        }
    }

    // The next number. What its bytes come to is taken from the last to the first.
    fn next(&mut self) -> Result<Number, Verdict> {
        let length = self.length()?;
        let bytes = self.rest().get(..length).unwrap_or(&[]);
        let value = bytes.iter().rev().fold(0u32, |value, byte| {
            value.wrapping_mul(128).wrapping_add(u32::from(byte % 128))
        });
        let is_shortest = length == 1 || bytes.last() != Some(&0);
        let number = Number {
            value,
            place: self.place,
        };
        number.must(is_shortest, 3)?;
        self.place = self.place.saturating_add(length);
        Ok(number)
    }

    // The rows or the columns, which are told less one.
    fn side(&mut self) -> Result<u32, Verdict> {
        let less_one = self.next()?;
        less_one.must(less_one.value <= 4095, 5)?;
        Ok(less_one.value.wrapping_add(1))
    }

    // The mask of a side.
    fn mask(&mut self, entries: u32) -> Result<Number, Verdict> {
        let mask = self.next()?;
        let digits = binary_digits(entries.saturating_sub(1));
        mask.must(one_bits(mask.value) == digits, 6)?;
        mask.must(mask.value <= 0x00ff_ffff, 7)?;
        Ok(mask)
    }

    // The stride, for the near side and the strided one.
    fn stride(&mut self, near: u32, strided: u32) -> Result<(), Verdict> {
        let stride = self.next()?;
        let is_long = stride.value >= near && stride.value < 4096;
        stride.must(is_long, 9)?;
        let is_masked = one_bits(stride.value) == 1 || strided == 1;
        stride.must(!is_masked, 10)
    }
}

// What the second reading finds: the kind, rows less one, columns less one, and then two masks or a stride.
fn judged(input: &[u8]) -> Result<(), Verdict> {
    let mut numbers = Numbers { input, place: 0 };
    let kind = numbers.next()?;
    kind.must(kind.value <= 2, 4)?;
    let rows = numbers.side()?;
    let columns = numbers.side()?;
    match kind.value {
        0 => {
            let row_mask = numbers.mask(rows)?;
            let column_mask = numbers.mask(columns)?;
            let is_apart = row_mask.value & column_mask.value == 0;
            column_mask.must(is_apart, 8)?;
        }
        1 => numbers.stride(columns, rows)?,
        _ => numbers.stride(rows, columns)?,
    }
    if numbers.place < input.len() {
        return Err(Verdict {
            number: 11,
            place: numbers.place,
        });
    }
    Ok(())
}

// Whether a layout is written as the very bytes that it was read from.
fn is_written_as(layout: &Layout, input: &[u8]) -> bool {
    let mut bytes = [0u8; LONGEST];
    write(layout, &mut bytes).is_ok_and(|length| bytes.get(..length) == Some(input))
}

// Whether the reader accepts a string. What it accepts has to be written again byte for byte.
fn is_accepted(input: &[u8]) -> bool {
    read(input).is_ok_and(|layout| is_written_as(&layout, input))
}

// Whether the reader finds what the second reading does.
fn agrees(input: &[u8]) -> bool {
    match read(input) {
        Ok(layout) => is_written_as(&layout, input) && judged(input).is_ok(),
        Err(fault) => {
            let told = Verdict {
                number: fault.refusal.number(),
                place: fault.place,
            };
            judged(input) == Err(told)
        }
    }
}

// Every string of up to three bytes.
pub fn short_strings() -> Tally {
    let mut tally = Tally::new();
    tally.note(agrees(&[]));
    for a in 0..=255u8 {
        tally.note(agrees(&[a]));
        for b in 0..=255u8 {
            tally.note(agrees(&[a, b]));
            for c in 0..=255u8 {
                tally.note(agrees(&[a, b, c]));
            }
        }
    }
    tally
}

// A byte, most often a low one, so that strings come past the first numbers.
fn random_byte(source: &mut Source) -> u8 {
    let limit = if source.one_in(4) { 256 } else { 16 };
    source.below(limit) as u8
}

// Strings of up to fifteen bytes.
pub fn random_strings(heap: Global) -> Tally {
    let mut tally = Tally::new();
    let mut source = Source::new(heap, 0x9e37_79b9_7f4a_7c15);
    for _ in 0..100_000u32 {
        let mut bytes = [0u8; 15];
        bytes.fill_with(|| random_byte(&mut source));
        let length = source.below(16) as usize;
        tally.note(agrees(&bytes[..length]));
    }
    tally
}

// The layout of a named order of a shape, which is small half the time.
fn random_layout(source: &mut Source) -> Result<Layout, Refusal> {
    let letter = source.one_of(&LETTERS);
    let limit = if source.one_in(2) { 8 } else { 4096 };
    let shape = Shape {
        rows: source.up_to(limit),
        columns: source.up_to(limit),
    };
    let inner = source.inner(letter, 13);
    named(letter, shape, inner)
}

// The longest descriptor, and one byte more.
const ROOM: usize = LONGEST + 1;

// A descriptor, with room for one byte more. No list on the heap: the trials of the reader need no memory.
#[derive(Clone, Copy)]
struct Text {
    bytes: [u8; ROOM],
    length: usize,
}

impl Text {
    // The first bytes, as many as are asked for.
    fn first(&self, length: usize) -> &[u8] {
        self.bytes.get(..length).unwrap_or(&[])
    }
}

// The descriptor of such a layout, or none where it is declined.
fn random_descriptor(source: &mut Source) -> Option<Text> {
    let layout = random_layout(source).ok()?;
    let mut bytes = [0u8; ROOM];
    let length = write(&layout, &mut bytes).ok()?;
    Some(Text { bytes, length })
}

// A descriptor as it is, cut, prolonged, and with one byte changed.
fn damaged(source: &mut Source, mut text: Text) -> Tally {
    let mut tally = Tally::new();
    tally.note(is_accepted(text.first(text.length)));
    let place = source.below(14) as usize % text.length.max(1);
    tally.note(agrees(text.first(place)));
    tally.note(agrees(text.first(text.length.saturating_add(1))));
    let change = source.below(255) as u8;
    if let Some(byte) = text.bytes.get_mut(place) {
        *byte = byte.wrapping_add(change).wrapping_add(1);
    }
    tally.note(agrees(text.first(text.length)));
    tally
}

// Descriptors of named orders, and what becomes of each when it is damaged.
pub fn damaged_descriptors(heap: Global) -> Tally {
    let mut tally = Tally::new();
    let mut source = Source::new(heap, 0x2545_f491_4f6c_dd1d);
    for _ in 0..20_000u32 {
        match random_descriptor(&mut source) {
            Some(text) => tally = tally.and(damaged(&mut source, text)),
            None => tally.note(false),
        }
    }
    tally
}
