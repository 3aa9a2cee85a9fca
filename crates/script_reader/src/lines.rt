//! Cutting a text into its lines, and which lines are skipped as empty or as comments.

ghost use Rattle.std.specs.Prelude.{◌≡◌, ◌+◌, ◌<◌, ◌≤◌, ◌==◌, ◌∷◌, [], length, position, MatchOption};
ghost use Rattle.std.specs.List.{position_or_len};
ghost use Rattle.frame_script.specs.Lines.{lines, is_skipped};

/// The first line of a text, without its line feed, and the text after it. `None` at the end of the text.
pub fn split_line(text: &[u8]) -> Option<(&[u8], &[u8])>
    ensures cases { MatchOption result (text.now ≡ []) (λ x. lines text.now ≡ x.0.now ∷ lines x.1.now) }
    ensures shorter { MatchOption result (text.now ≡ []) (λ x. length x.1.now < length text.now) }
{
    if text.is_empty() {
        return None;
    }
    let end = line_end(text);
    let after = text.len().min(end + 1);
    Some((&text[..end], &text[after..]))
}

/// Where the first line ends: at the first line feed, or at the end of the text where there is none.
fn line_end(text: &[u8]) -> usize
    ensures index { result ≡ position_or_len (λ b. b == 10) text.now }
    ensures within { result ≤ length text.now }
{
    line_feed(text).unwrap_or(text.len())
}

fn line_feed(text: &[u8]) -> Option<usize>
    ensures { result ≡ position (λ b. b == 10) text.now }
{
    text.iter().position(|b| *b == b'\n')
}

/// Whether a line says nothing: it is empty, or begins with `#`.
pub(crate) fn is_skipped(line: &[u8]) -> bool
    ensures { result ≡ is_skipped line.now }
{
    match line {
        [] => true,
        [first, ..] => *first == b'#',
    }
}
