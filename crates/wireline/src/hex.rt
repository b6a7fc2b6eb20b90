// Octets as two hexadecimal digits each: read with blanks and line ends anywhere, written in capitals with one blank between.
ghost use Rattle.std.specs.Prelude.{◌≡◌, ◌<◌};
ghost use Rattle.text.specs.Page.{Wrote};
ghost use Rattle.wireline.specs.Hex.{hex_digit, octet_text, end_text, hex_text, meaning_of, HasFourBits, Says, hexed_of};

use text::Page;

// What a byte of a text is: a digit, with its value; a blank or the end of a line, which do not count; or no part of such a text.
#[derive(Clone, Copy)]
pub(crate) enum HexByte {
    Digit(u8),
    Blank,
    Other,
}

fn hex_digit(x: u8) -> u8
    requires { x < 16 }
    ensures { result ≡ hex_digit x }
{
    if x < 10 { b'0' + x } else { b'A' + (x - 10) }
}

pub(crate) fn put_octet(page: &mut Page<'_>, b: u8)
    ensures { Wrote (octet_text b) page.old page.new }
{
    page.put(hex_digit(b / 16));
    page.put(hex_digit(b % 16));
}

// After an octet: a blank, or after the last the end of the line.
fn put_end(page: &mut Page<'_>, left: usize)
    ensures { Wrote (end_text left) page.old page.new }
{
    if left == 0 {
        page.put(b'\n');
    } else {
        page.put(b' ');
    }
}

// The octets as one line.
pub(crate) fn put_hex(page: &mut Page<'_>, s: &[u8])
    ensures { Wrote (hex_text s.now) page.old page.new }
{
    for (i, b) in s.iter().enumerate() {
        put_octet(page, *b);
        put_end(page, s.len() - (i + 1));
    }
}

pub(crate) fn meaning(b: u8) -> HexByte
    ensures value { result ≡ meaning_of b }
    ensures digit { HasFourBits result }
{
    match b {
        b' ' | b'\t' | b'\n' | b'\r' => HexByte::Blank,
        b'0'..=b'9' => HexByte::Digit(b - b'0'),
        b'A'..=b'F' => HexByte::Digit(b - (b'A' - 10)),
        b'a'..=b'f' => HexByte::Digit(b - (b'a' - 10)),
        _ => HexByte::Other,
    }
}

// How many octets a text says, if it says octets; those past the buffer's end are counted alone.
pub(crate) fn octets(text: &[u8], out: &mut [u8]) -> Option<usize>
    ensures { Says (hexed_of text.now) out.old out.new result }
{
    let mut half = None;
    let mut page = Page::new(out);
    for b in text {
        match (meaning(*b), half) {
            (HexByte::Other, _) => return None,
            (HexByte::Blank, _) => {}
            (HexByte::Digit(d), None) => half = Some(d),
            (HexByte::Digit(d), Some(high)) => {
                page.put(high * 16 + d);
                half = None;
            }
        }
    }
    match half {
        None => Some(page.at),
        Some(_) => None,
    }
}
