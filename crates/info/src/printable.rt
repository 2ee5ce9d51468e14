// Text from a recording, printed with control codes, what turns the direction of a line or ends it, and the backslash escaped.
ghost use Rattle.std.specs.Prelude.{◌≡◌};
ghost use Rattle.std.specs.Fmt.{WritesOnOk};
ghost use Rattle.info.specs.Plain.{is_plain, is_plain_in, char_text, printed};

use crate::words::InWords;
use std::fmt;

// Whether a character is printed as it is: it is no control code, does not turn the direction of the line or end it,
// and is not the backslash that escapes begin with.
fn is_plain(c: char) -> bool
    ensures { result ≡ is_plain c }
{
    !matches!(
        c,
        '\0'..='\u{1F}'
            | '\u{7F}'..='\u{9F}'
            | '\u{61C}'
            | '\u{200E}'..='\u{200F}'
            | '\u{2028}'..='\u{202E}'
            | '\u{2066}'..='\u{2069}'
            | '\\'
    )
}

// The same of a text or, where `in_word` holds, of a word, in which the space is not plain.
fn is_plain_in(in_word: bool, c: char) -> bool
    ensures { result ≡ is_plain_in in_word c }
{
    is_plain(c) && !(in_word && c == ' ')
}

fn write_char<W: fmt::Write>(f: &mut fmt::Formatter<W>, in_word: bool, c: char) -> fmt::Result
    ensures { WritesOnOk W.write_str_gives f.old result (char_text in_word c) f.new }
{
    if is_plain_in(in_word, c) {
        write!(f, "{c}")
    } else {
        let code = u32::from(c);
        write!(f, "\\u{{{code:x}}}")
    }
}

// The characters of a text, each that is not plain by its number.
fn write_text<W: fmt::Write>(f: &mut fmt::Formatter<W>, in_word: bool, text: &str) -> fmt::Result
    ensures { WritesOnOk W.write_str_gives f.old result (printed in_word text.now) f.new }
{
    for c in text.chars() {
        write_char(f, in_word, c)?;
    }
    Ok(())
}

impl fmt::Display for InWords<&str> {
    ghost use Rattle.std.specs.Prelude.{Some, false};
    ghost use Rattle.info.specs.Plain.{printed};

    ghost output = { λ t. Some (printed false t.0.now) };

    fn fmt<W: fmt::Write>(&self, f: &mut fmt::Formatter<W>) -> fmt::Result {
        write_text(f, false, self.0)
    }
}

// A word of several: a space is escaped too, so that words can be told apart.
#[derive(Clone, Copy)]
pub struct Word<'a>(pub &'a str);

impl fmt::Display for Word<'_> {
    ghost use Rattle.std.specs.Prelude.{Some, true};
    ghost use Rattle.info.specs.Plain.{printed};

    ghost output = { λ w. Some (printed true w.0.now) };

    fn fmt<W: fmt::Write>(&self, f: &mut fmt::Formatter<W>) -> fmt::Result {
        write_text(f, true, self.0)
    }
}
