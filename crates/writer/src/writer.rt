// The writer.
ghost use Rattle.std.specs.Prelude.{◌≡◌, ◌+◌, ◌≤◌, ◌++◌, length, drop};
ghost use Rattle.layouts.specs.Layouts.{layout_plan};
ghost use Rattle.writer.specs.Descriptors.{in_form, bytes_of, write_answer, write_bytes};
ghost use Rattle.writer.specs.Numbers.{NumberLaw};

use crate::number::{number_len, put_number};
use layouts::{Layout, Strides};
use masked::Refusal;
use placement::Placement;

// No descriptor is longer: a kind, two sides of two bytes each, and two masks of four.
pub const LONGEST: usize = 13;

// How many bytes the numbers take.
fn numbers_len(numbers: &[u32]) -> usize
    requires { length numbers.now ≤ 5 }
    ensures { result ≡ length (in_form numbers.now) }
{
    numbers.iter().map(|n| number_len(*n)).sum()
}

// Writes the numbers at the front of the bytes, which have room for them.
fn put_numbers(bytes: &mut [u8], numbers: &[u32]) -> usize
    requires { length (in_form numbers.now) ≤ length bytes.old }
    ensures end { result ≡ length (in_form numbers.now) }
    ensures after { bytes.new ≡ in_form numbers.now ++ drop (length (in_form numbers.now)) bytes.old }
{
    let mut end = 0;
    // Where one number ends the next begins.
    for n in numbers {
        end += put_number(&mut bytes[end..], *n);
    }
    end
}

// Writes the numbers at the front of the bytes, or refuses where these are too few.
fn put(bytes: &mut [u8], numbers: &[u32]) -> Result<usize, Refusal>
    requires { length numbers.now ≤ 5 }
    ensures answer { result ≡ write_answer (in_form numbers.now) bytes.old }
    ensures after { bytes.new ≡ write_bytes (in_form numbers.now) bytes.old }
{
    if bytes.len() < numbers_len(numbers) {
        return Err(Refusal::Room);
    }
    Ok(put_numbers(bytes, numbers))
}

// Writes the descriptor of the layout at the front of the given bytes and answers its length. No byte after it changes, and
// none at all where the bytes are too few.
#[tactic(auto, using(crate::proofs::Forms::longest_layout, crate::proofs::Numbers::number_law))]
pub fn write(layout: &Layout, bytes: &mut [u8]) -> Result<usize, Refusal>
    ensures answer { result ≡ write_answer (bytes_of (layout_plan layout.now)) bytes.old }
    ensures after { bytes.new ≡ write_bytes (bytes_of (layout_plan layout.now)) bytes.old }
    ensures longest { length (bytes_of (layout_plan layout.now)) ≤ 13 }
    ensures form { NumberLaw }
{
    let kind = layout.kind() as u32;
    let shape = layout.shape();
    let last_row = shape.rows - 1;
    let last_column = shape.columns - 1;
    match layout {
        Layout::Masks(p) => put(
            bytes,
            &[kind, last_row, last_column, p.row_mask, p.column_mask],
        ),
        Layout::RowStride(Strides { stride, .. }) | Layout::ColumnStride(Strides { stride, .. }) =>
            put(bytes, &[kind, last_row, last_column, *stride]),
    }
}
