//! How long what is at the front of a text is.

ghost use Rattle.std.specs.Prelude.{◌≡◌, ◌+◌, ◌<◌, ◌≤◌, ◌↔◌, ℕ, length, take, drop, slice_index, IsTrue, IfSome};
ghost use Rattle.std.specs.Char.{is_ascii_alphabetic};
ghost use Rattle.mon_smi.specs.Words.{is_part, GoesOn, IsWord};
ghost use Rattle.mon_smi.specs.Scan.{is_of, run_at, word_at, closes_at, remark_at, comment_at};

/// Returns `true` if the byte is a letter, a digit or an underscore.
fn is_part(byte: u8) -> bool
    ensures { result ≡ is_part byte }
{
    byte.is_ascii_alphabetic() || byte.is_ascii_digit() || byte == b'_'
}

/// Returns `true` if a word goes on at this place.
fn goes_on(text: &[u8], i: usize) -> bool
    requires { i < length text.now }
    ensures { IsTrue result ↔ GoesOn text.now i }
{
    if is_part(text[i]) {
        return true;
    }
    text[i] == b'-' && i + 1 < text.len() && is_part(text[i + 1])
}

/// The length of the longest word at the front.
pub(crate) fn word_len(text: &[u8]) -> usize
    requires { IsTrue (is_ascii_alphabetic (slice_index text.now 0)) }
    ensures within { result ≤ length text.now }
    ensures word { IsWord (take result text.now) }
    ensures longest { (m : ℕ) → m ≤ length text.now → IsWord (take m text.now) → m ≤ result }
    ensures exact { result ≡ word_at text.now }
{
    let mut len = 0;
    while len < text.len() && goes_on(text, len) {
        len += 1;
    }
    len
}

/// The byte at this place, or 0 after the end.
pub(crate) fn byte_at(text: &[u8], i: usize) -> u8
    ensures { result ≡ slice_index text.now i }
{
    if i < text.len() {
        return text[i];
    }
    0
}

/// Returns what follows this many bytes.
pub(crate) fn behind(text: &[u8], n: usize) -> &[u8]
    requires { n ≤ length text.now }
    ensures { result.now ≡ drop n text.now }
{
    &text[n..]
}

/// The bytes of a run.
#[derive(Clone, Copy)]
pub(crate) enum Run {
    Digits,
    HexDigits,
    Bits,
    Hyphens,
}

/// Returns `true` if the byte is one of the run.
fn is_of(run: Run, byte: u8) -> bool
    ensures { result ≡ is_of run byte }
{
    match run {
        Run::Digits => byte.is_ascii_digit(),
        Run::HexDigits => byte.is_ascii_hexdigit(),
        Run::Bits => byte == b'0' || byte == b'1',
        Run::Hyphens => byte == b'-',
    }
}

/// The length of the run at the front.
pub(crate) fn run_len(run: Run, text: &[u8]) -> usize
    ensures within { result ≤ length text.now }
    ensures exact { result ≡ run_at (is_of run) text.now }
{
    let mut len = 0;
    let mut rest = text;
    while let [byte, after @ ..] = rest {
        if !is_of(run, *byte) {
            return len;
        }
        rest = after;
        len += 1;
    }
    len
}

/// The length of a comment up to its closing hyphens or the end of the line.
fn remark_len(text: &[u8]) -> usize
    ensures within { result ≤ length text.now }
    ensures exact { result ≡ remark_at text.now }
{
    let mut len = 0;
    let mut rest = text;
    while let [byte, after @ ..] = rest {
        if *byte == b'\n' || (*byte == b'-' && byte_at(after, 0) == b'-') {
            return len;
        }
        rest = after;
        len += 1;
    }
    len
}

/// The length of a comment after its first hyphen.
pub(crate) fn comment_len(text: &[u8]) -> usize
    ensures within { result ≤ length text.now }
    ensures exact { result ≡ comment_at text.now }
{
    let opening = run_len(Run::Hyphens, text);
    let rest = behind(text, opening);
    let remark = remark_len(rest);
    let ending = remark + run_len(Run::Hyphens, behind(rest, remark));
    opening + ending
}

/// The length of the longest string after its opening quote, with its closing one, or none where
/// the text ends first.
pub(crate) fn closing_len(text: &[u8]) -> Option<usize>
    ensures within { IfSome result (λ n. n ≤ length text.now) }
    ensures exact { result ≡ closes_at text.now }
{
    let mut end = None;
    let mut len = 0;
    let mut rest = text;
    while let [byte, after @ ..] = rest {
        if *byte != b'"' {
            rest = after;
            len += 1;
            continue;
        }
        let [next, others @ ..] = after else {
            return Some(len + 1);
        };
        if *next != b'"' {
            return Some(len + 1);
        }
        end = Some(len + 1);
        rest = others;
        len += 2;
    }
    end
}
