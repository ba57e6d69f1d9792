// Bytes from hex text.
ghost use Rattle.std.specs.Prelude.{◌≤◌, ◌<◌, length, IfSome};

// What a hex digit stands for. `char::to_digit` takes capitals too. The program replay_lists has this function as well.
fn digit(c: u8) -> Option<u8>
    ensures { IfSome result (λ d. d < 16) }
{
    match c {
        b'0'..=b'9' => Some(c - b'0'),
        b'a'..=b'f' => Some(c - b'a' + 10),
        _ => None,
    }
}

// The text starts with the bytes that its hex digits stand for then: so many. What is no digit stands between bytes; one behind a single digit is read as a 0.
pub fn decode(text: &mut [u8]) -> usize
    ensures { result ≤ length text.new }
{
    let mut i = 0usize;
    let mut m = 0usize;
    // A `while`, since one slice is read and written, and a step is one or two digits.
    while i + 1 < text.len() {
        let Some(high) = digit(text[i]) else {
            i += 1;
            continue;
        };
        text[m] = high << 4 | digit(text[i + 1]).unwrap_or(0);
        m += 1;
        i += 2;
    }
    m
}
