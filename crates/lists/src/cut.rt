// Where a line and a field end: lines are parted by CR LF and by nothing else, fields by commas.
ghost use Rattle.std.specs.Prelude.{◌≡◌, ◌+◌, ◌≤◌, ◌<◌, length, drop, MatchOption};
ghost use Rattle.lists.specs.Cut.{length_to, is_break, is_comma, field_in, fields_after};

// Whether CR LF stands at `at`.
fn is_break(text: &[u8], at: usize) -> bool
    requires { at < length text.now }
    ensures { result ≡ is_break (drop at text.now) }
{
    text[at..].starts_with(b"\r\n")
}

// The offset of the first CR LF from `at` on, or of the text's end.
pub fn break_from(text: &[u8], at: usize) -> usize
    requires { at ≤ length text.now }
    ensures { (result ≡ at + length_to is_break (drop at text.now)) × (result ≤ length text.now) }
{
    for i in at..text.len() {
        if is_break(text, i) {
            return i;
        }
    }
    text.len()
}

// The field in front of the first comma, and what comes after it.
pub fn parted(line: &[u8]) -> Option<(&[u8], &[u8])>
    ensures { MatchOption result
        (length line.now ≤ length_to is_comma line.now)
        (λ parts. (parts.0.now ≡ field_in line.now) × (parts.1.now ≡ fields_after line.now)) }
{
    let n = line.iter().position(|b| *b == b',')?;
    Some((&line[..n], &line[n + 1..]))
}
