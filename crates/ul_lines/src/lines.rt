//! The lines of a text.

ghost use Rattle.std.specs.Prelude.{◌≡◌, ◌∷◌, ◌<◌, length};
ghost use Rattle.ul_lines.specs.Lines.{lines_of};

use crate::pieces::divided;

/// The first line with its LF, which the last line may lack, and what follows. Takes no memory.
pub fn first_line(text: &[u8]) -> (&[u8], &[u8])
    requires { 0 < length text.now }
    ensures cut { lines_of text.now ≡ result.0.now ∷ lines_of result.1.now }
    ensures shorter { length result.1.now < length text.now }
{
    match divided(text, b'\n') {
        None => text.split_at(text.len()),
        Some((line, _)) => {
            let end = line.len() + 1;
            text.split_at(end)
        }
    }
}
