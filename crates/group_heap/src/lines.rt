//! The lines of a text, and those that begin a section.

ghost use Rattle.std.specs.Prelude.{◌≡◌, ◌+◌, ◌∷◌, ◌++◌, ◌≤◌, false, true, length};
ghost use Rattle.std.specs.Bool.{MatchBool};
ghost use Rattle.std.specs.List.{All};
ghost use Rattle.group_heap.specs.Lines.{Cuts, bytes_left, lines_left};
ghost use Rattle.group_heap.specs.Texts as spec;
ghost use Rattle.group_heap.specs.Texts.{BeginsSection, lines_of};
ghost use Rattle.posix_defs.specs.ScriptWords.{ends_word, is_blank};

use script_words::cut_at;

/// The first line of a text, and the bytes behind its newline; None where it has none.
pub fn cut_line(text: &[u8]) -> (&[u8], Option<&[u8]>)
    ensures lines { lines_of text.now ≡ result.0.now ∷ lines_left result.1 }
    ensures size { length text.now ≡ length result.0.now + bytes_left result.1 }
{
    match cut_at(text, b'\n') {
        Some((first, next)) => (first, Some(next)),
        None => (text, None),
    }
}

/// A space, a tab, a carriage return.
fn is_blank(byte: u8) -> bool
    ensures { result ≡ is_blank byte }
{
    byte == b' ' || byte == b'\t' || byte == b'\r'
}

/// What stands before the first blank, and the rest from it on.
fn cut_word(bytes: &[u8]) -> (&[u8], &[u8])
    ensures whole { bytes.now ≡ result.0.now ++ result.1.now }
    ensures plain { All (λ byte. is_blank byte ≡ false) result.0.now }
    ensures ends { ends_word result.1.now ≡ true }
{
    match bytes.iter().position(|byte| is_blank(*byte)) {
        Some(at) => bytes.split_at(at),
        None => (bytes, &[]),
    }
}

/// The bytes before the first blank.
fn up_to_blank(bytes: &[u8]) -> &[u8]
    ensures { result.now ≡ spec.up_to_blank bytes.now }
{
    let (word, _) = cut_word(bytes);
    word
}

/// The first word of a line, as it stands there; nothing where the line is blank.
fn first_word(line: &[u8]) -> &[u8]
    ensures { result.now ≡ spec.first_word line.now }
{
    let mut rest = line;
    while let Some((byte, next)) = rest.split_first() {
        if !is_blank(*byte) {
            return up_to_blank(rest);
        }
        rest = next;
    }
    rest
}

/// Whether a line begins a section.
pub fn begins_section(line: &[u8]) -> bool
    ensures { MatchBool result (BeginsSection line.now) (BeginsSection line.now → ⊥) }
{
    first_word(line) == b"group".as_slice() && str::from_utf8(line).is_ok()
}

/// What stands before the next line that begins a section: as a text of its own, in so many lines, and what is left from that line on;
/// None where there is none.
pub fn cut_section(text: &[u8]) -> (&[u8], u32, Option<&[u8]>)
    requires { length text.now ≤ 1048576 }
    ensures cut { Cuts (lines_of text.now) result.0.now result.1 (lines_left result.2) }
    ensures short { length result.0.now ≤ length text.now }
    ensures size { result.1 + bytes_left result.2 ≤ 1 + length text.now }
{
    let mut lines: u32 = 0;
    let mut end: usize = 0;
    let mut rest = text;
    loop {
        let (first, next) = cut_line(rest);
        if begins_section(first) {
            // The newline before it is no more of the section.
            return (&text[..end.saturating_sub(1)], lines, Some(rest));
        }
        lines += 1;
        let Some(next) = next else {
            return (text, lines, None);
        };
        end += first.len() + 1;
        rest = next;
    }
}
