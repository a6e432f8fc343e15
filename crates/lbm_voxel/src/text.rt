//! The lines and the words of a voxel file.

ghost use Rattle.std.specs.Prelude.{◌≡◌, ◌≤◌, ◌∷◌, [], drop, length, not, option_map, MatchOption};
ghost use Rattle.std.specs.List.{position_or_len};
ghost use Rattle.lbm_voxel.specs.Text.{first_line, without_return, is_line_feed, is_blank, words};

/// A line without the byte 13 that may end it.
fn without_return(line: &[u8]) -> &[u8]
    ensures { result.now ≡ without_return line.now }
{
    match line {
        [.., b'\r'] => &line[..line.len() - 1],
        _ => line,
    }
}

/// How many bytes stand before the first byte 10.
fn line_len(text: &[u8]) -> usize
    ensures { result ≡ position_or_len is_line_feed text.now }
{
    for (n, byte) in text.iter().enumerate() {
        if *byte == b'\n' {
            return n;
        }
    }
    text.len()
}

/// The first line of a text, and what follows it.
pub(crate) fn split_line(text: &[u8]) -> Option<(&[u8], &[u8])>
    ensures { option_map (λ at. (at.0.now, at.1.now)) result ≡ first_line text.now }
{
    let end = line_len(text);
    if end >= text.len() {
        return None;
    }
    Some((without_return(&text[..end]), &text[end + 1..]))
}

fn is_blank(byte: u8) -> bool
    ensures { result ≡ is_blank byte }
{
    matches!(byte, b'\t' | b'\n' | b'\r' | b' ')
}

/// How many blank bytes a text begins with.
fn blanks(text: &[u8]) -> usize
    ensures value { result ≡ position_or_len (λ byte. not (is_blank byte)) text.now }
    ensures within { result ≤ length text.now }
{
    for (n, byte) in text.iter().enumerate() {
        if !is_blank(*byte) {
            return n;
        }
    }
    text.len()
}

/// How many bytes stand before the first blank one.
fn word_len(text: &[u8]) -> usize
    ensures value { result ≡ position_or_len is_blank text.now }
    ensures within { result ≤ length text.now }
{
    for (n, byte) in text.iter().enumerate() {
        if is_blank(*byte) {
            return n;
        }
    }
    text.len()
}

/// What follows the blank bytes that a text begins with.
fn skip_blanks(text: &[u8]) -> &[u8]
    ensures { result.now ≡ drop (position_or_len (λ byte. not (is_blank byte)) text.now) text.now }
{
    let (_, rest) = text.split_at(blanks(text));
    rest
}

/// The first word of a text, and what follows it.
pub(crate) fn split_word(text: &[u8]) -> Option<(&[u8], &[u8])>
    ensures { MatchOption result (words text.now ≡ [])
        (λ at. words text.now ≡ at.0.now ∷ words at.1.now) }
{
    let rest = skip_blanks(text);
    if rest.is_empty() {
        return None;
    }
    Some(rest.split_at(word_len(rest)))
}
