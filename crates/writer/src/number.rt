// Numbers as bytes: seven bits to a byte, the lowest first, with 128 added to every byte but the last.
ghost use Rattle.std.specs.Prelude.{◌≡◌, ◌≤◌, ◌++◌, length, drop};
ghost use Rattle.writer.specs.Numbers.{groups};

// How many bytes `n` takes.
pub(crate) fn number_len(n: u32) -> usize
    ensures len { result ≡ length (groups n) }
    ensures short { result ≤ 5 }
{
    if n < 128 { 1 } else { 1 + number_len(n / 128) }
}

// Writes `n` at the front of the bytes, and returns how many it took.
pub(crate) fn put_number(bytes: &mut [u8], n: u32) -> usize
    requires { length (groups n) ≤ length bytes.old }
    ensures len { result ≡ length (groups n) }
    ensures after { bytes.new ≡ groups n ++ drop (length (groups n)) bytes.old }
{
    if n < 128 {
        bytes[0] = n as u8;
        return 1;
    }
    bytes[0] = (128 + n % 128) as u8;
    1 + put_number(&mut bytes[1..], n / 128)
}
