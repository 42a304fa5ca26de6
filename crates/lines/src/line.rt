// Cuts an input into lines.
ghost use Rattle.std.specs.Prelude.{◌≡◌, [], MatchOption};
ghost use Rattle.lines.specs.Lines.{line_length, Split, LinesLaw};

// How many bytes come before the first newline, or before the end where there is none.
fn line_length(input: &[u8]) -> usize
    ensures { result ≡ line_length input.now }
{
    input.iter().take_while(|b| **b != b'\n').count()
}

// The first line, and what follows the newline that ends it. Where the input ends the line, nothing follows.
// An empty input has no line.
pub fn split_line(input: &[u8]) -> Option<(&[u8], &[u8])>
    ensures split { MatchOption result (input.now ≡ []) (λ s. Split input.now s.0.now s.1.now) }
    ensures law { LinesLaw }
{
    if input.is_empty() {
        return None;
    }
    let end = line_length(input);
    let (line, after) = input.split_at(end);
    let rest = if end < input.len() {
        &after[1..]
    } else {
        after
    };
    Some((line, rest))
}
