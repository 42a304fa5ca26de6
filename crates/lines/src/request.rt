// Reads what one line asks for.
ghost use Rattle.std.specs.Prelude.{◌≡◌, ◌≤◌, true, length};
ghost use Rattle.std.specs.Option.{option_map};
ghost use Rattle.std.specs.Str.{all_ascii_digits};
ghost use Rattle.lines.specs.Requests.{value_of, plain, digit_count, number_at, field_at, inner_at, request_of, ReadLaw};

// The number of digits at the front.
fn digit_count(bytes: &[u8]) -> usize
    ensures { result ≡ digit_count bytes.now }
{
    bytes.iter().take_while(|b| b.is_ascii_digit()).count()
}

// A number has one to four digits, and no zero in front unless it is just "0".
fn is_plain(digits: &[u8]) -> bool
    ensures { result ≡ plain digits.now }
{
    match digits {
        [] => false,
        [_] => true,
        [first, ..] => *first != b'0' && digits.len() <= 4,
    }
}

// The number that at most four digits write.
fn value(digits: &[u8]) -> u32
    requires all { all_ascii_digits digits.now ≡ true }
    requires short { length digits.now ≤ 4 }
    ensures { result ≡ value_of digits.now }
{
    let mut n = 0u32;
    for d in digits {
        n = n * 10 + u32::from(*d - b'0');
    }
    n
}

// The number that all digits at the front write, and the bytes after them.
fn number(bytes: &[u8]) -> Option<(u32, &[u8])>
    ensures { option_map (λ p. (p.0, p.1.now)) result ≡ number_at bytes.now }
{
    let (digits, rest) = bytes.split_at(digit_count(bytes));
    if is_plain(digits) {
        Some((value(digits), rest))
    } else {
        None
    }
}

// A blank and a number at the front, and the bytes after them.
fn field(bytes: &[u8]) -> Option<(u32, &[u8])>
    ensures { option_map (λ p. (p.0, p.1.now)) result ≡ field_at bytes.now }
{
    match bytes {
        [b' ', after @ ..] => number(after),
        _ => None,
    }
}

// R, C, Z and N ask for rows and columns only, so that the inner width is 0, and H has one more field.
fn inner(letter: char, bytes: &[u8]) -> Option<(u32, &[u8])>
    ensures { option_map (λ p. (p.0, p.1.now)) result ≡ inner_at letter bytes.now }
{
    match letter {
        'R' | 'C' | 'Z' | 'N' => Some((0, bytes)),
        'H' => field(bytes),
        _ => None,
    }
}

// What a line asks for.
#[derive(Clone, Copy, Debug, PartialEq, Eq)]
pub struct Request {
    pub letter: char,
    pub rows: u32,
    pub columns: u32,
    // 0 where the letter is not H, as the maker of named orders takes it.
    pub inner: u32,
}

impl Request {
    // A line of another form asks for nothing.
    pub fn read(line: &[u8]) -> Option<Request>
        ensures exact { result ≡ request_of line.now }
        ensures law { ReadLaw }
    {
        let [first, rest @ ..] = line else {
            return None;
        };
        let letter = char::from(*first);
        let (rows, rest) = field(rest)?;
        let (columns, rest) = field(rest)?;
        let (inner, rest) = inner(letter, rest)?;
        if rest.is_empty() {
            Some(Request {
                letter,
                rows,
                columns,
                inner,
            })
        } else {
            None
        }
    }
}
