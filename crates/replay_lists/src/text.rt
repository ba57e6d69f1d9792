// The parts of a line of a stored answer: a keyword, decimal numbers and hex, with a space before each but the first.
ghost use Rattle.std.specs.Prelude.{◌≤◌, ◌<◌, length, IfSome};

// What a hex digit stands for. `char::to_digit` takes capitals too. The program replay_arithmetic has this function as well.
fn digit(c: u8) -> Option<u8>
    ensures { IfSome result (λ d. d < 16) }
{
    match c {
        b'0'..=b'9' => Some(c - b'0'),
        b'a'..=b'f' => Some(c - b'a' + 10),
        _ => None,
    }
}

// The number with one more decimal digit; no number of a line is as long as to be cut here.
fn with_digit(n: u64, c: u8) -> u64 {
    if n < 1_000_000_000_000 {
        n * 10 + u64::from(c.saturating_sub(b'0'))
    } else {
        n
    }
}

// What is left of a line.
#[derive(Clone, Copy)]
pub struct Parts<'a>(&'a [u8]);

impl<'a> Parts<'a> {
    // What is behind this word, where it is the line's keyword.
    pub fn after(line: &'a [u8], word: &str) -> Option<Parts<'a>> {
        let rest = line.strip_prefix(word.as_bytes())?;
        if !rest.is_empty() && !rest.starts_with(b" ") {
            return None;
        }
        Some(Parts(rest))
    }

    // The decimal number behind the space that stands here.
    pub fn number(&mut self) -> Option<u64> {
        let text = self.0.strip_prefix(b" ")?;
        let len = text.iter().take_while(|c| c.is_ascii_digit()).count();
        if len == 0 {
            return None;
        }
        let (digits, rest) = text.split_at(len);
        self.0 = rest;
        Some(digits.iter().fold(0, |n, c| with_digit(n, *c)))
    }

    // The 64 bits behind the space that stands here, 16 hex digits.
    pub fn bits(&mut self) -> Option<u64> {
        let text = self.0.strip_prefix(b" ")?;
        let (digits, rest) = text.split_first_chunk::<16>()?;
        self.0 = rest;
        digits
            .iter()
            .try_fold(0u64, |n, c| Some(n << 4 | u64::from(digit(*c)?)))
    }

    pub fn is_end(self) -> bool {
        self.0.is_empty()
    }

    // Records or entries of `size` bytes each, from here to the line's end, are put into `to`: how many bytes they are.
    pub fn decode(self, size: usize, to: &mut [u8]) -> Option<usize>
        ensures { IfSome result (λ n. n ≤ length to.new) }
    {
        let mut rest = self.0;
        let mut m = 0usize;
        while let Some(hex) = rest.strip_prefix(b" ") {
            if to.len() - m < size {
                return None;
            }
            rest = unit(hex, &mut to[m..m + size])?;
            m += size;
        }
        if rest.is_empty() { Some(m) } else { None }
    }
}

// The byte in front, and what is behind its two digits.
fn split_byte(hex: &[u8]) -> Option<(u8, &[u8])>
    ensures { IfSome result (λ p. length p.1.now ≤ length hex.now) }
{
    let ([high, low], rest) = hex.split_first_chunk::<2>()?;
    Some((digit(*high)? << 4 | digit(*low)?, rest))
}

// One record or entry is put into `to`, zeros where its hex has ended: what is behind it; none where there is no byte of it.
fn unit<'a>(hex: &'a [u8], to: &mut [u8]) -> Option<&'a [u8]>
    ensures { IfSome result (λ rest. length rest.now ≤ length hex.now) }
{
    let mut rest = hex;
    for byte in to {
        (*byte, rest) = split_byte(rest).unwrap_or((0, rest));
    }
    if rest.len() == hex.len() {
        return None;
    }
    Some(rest)
}
