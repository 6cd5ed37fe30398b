//! Pieces of a line. No function takes memory.

ghost use Rattle.std.specs.Prelude.{◌≡◌, ℕ, List, bytes_eq, option_map};
ghost use Rattle.ul_lines.specs.Pieces.{strip, until, inner_and_rest, optional_part, cut_end, inside};

/// Whether two texts are the same bytes.
pub fn same(left: &[u8], right: &[u8]) -> bool
    ensures { result ≡ bytes_eq left.now right.now }
{
    left == right
}

/// The text behind a front, if the front is there.
pub fn stripped<'a>(text: &'a [u8], front: &[u8]) -> Option<&'a [u8]>
    ensures { option_map (λ r. r.now) result ≡ strip front.now text.now }
{
    let mut rest = text;
    for want in front {
        match rest {
            [found, after @ ..] => {
                if *want != *found {
                    return None;
                }
                rest = after;
            }
            [] => return None,
        }
    }
    Some(rest)
}

/// What stands before a byte, where it stands first, and what behind it.
pub fn divided(text: &[u8], stop: u8) -> Option<(&[u8], &[u8])>
    ensures { option_map (λ p. (p.0.now, p.1.now)) result ≡ until stop text.now }
{
    for (i, byte) in text.iter().enumerate() {
        if *byte == stop {
            return Some((&text[..i], &text[i + 1..]));
        }
    }
    None
}

/// What stands behind a front up to a byte, and what behind that byte.
pub fn enclosed_text<'a>(text: &'a [u8], front: &[u8], stop: u8) -> Option<(&'a [u8], &'a [u8])>
    ensures { option_map (λ p. (p.0.now, p.1.now)) result ≡ inner_and_rest front.now stop text.now }
{
    match stripped(text, front) {
        None => None,
        Some(rest) => divided(rest, stop),
    }
}

/// The same, or no text and all bytes where the front isn't there.
pub fn optional_text<'a>(
    text: &'a [u8],
    front: &[u8],
    stop: u8,
) -> Option<(Option<&'a [u8]>, &'a [u8])>
    ensures { option_map (λ p. (option_map (λ t. t.now) p.0, p.1.now)) result ≡ optional_part front.now stop text.now }
{
    match stripped(text, front) {
        None => Some((None, text)),
        Some(rest) => match divided(rest, stop) {
            None => None,
            Some((part, after)) => Some((Some(part), after)),
        },
    }
}

/// What stands before an end, if the end is there.
#[tactic(auto, unfolding(crate::specs::Pieces::cut_end))]
pub fn before_end<'a>(text: &'a [u8], end: &[u8]) -> Option<&'a [u8]>
    ensures { option_map (λ r. r.now) result ≡ cut_end end.now text.now }
{
    if text.len() < end.len() {
        return None;
    }
    let (front, back) = text.split_at(text.len() - end.len());
    if same(back, end) { Some(front) } else { None }
}

/// What stands between a front and an end, if both are there.
pub fn inside_text<'a>(text: &'a [u8], front: &[u8], end: &[u8]) -> Option<&'a [u8]>
    ensures { option_map (λ r. r.now) result ≡ inside front.now end.now text.now }
{
    match stripped(text, front) {
        None => None,
        Some(rest) => before_end(rest, end),
    }
}
