//! Times as text.

ghost use Rattle.std.specs.Prelude.{◌≡◌};
ghost use Rattle.mon_notify.specs.Times.{month_digits, time_text};

use httpdate::HttpDate;

/// Returns the number of a month, in two digits, from its name of three letters.
fn month_digits(name: &[u8]) -> [u8; 2]
    ensures { result ≡ month_digits name.now }
{
    if name == b"Jan".as_slice() {
        *b"01"
    } else if name == b"Feb".as_slice() {
        *b"02"
    } else if name == b"Mar".as_slice() {
        *b"03"
    } else if name == b"Apr".as_slice() {
        *b"04"
    } else if name == b"May".as_slice() {
        *b"05"
    } else if name == b"Jun".as_slice() {
        *b"06"
    } else if name == b"Jul".as_slice() {
        *b"07"
    } else if name == b"Aug".as_slice() {
        *b"08"
    } else if name == b"Sep".as_slice() {
        *b"09"
    } else if name == b"Oct".as_slice() {
        *b"10"
    } else if name == b"Nov".as_slice() {
        *b"11"
    } else {
        *b"12"
    }
}

/// Returns a time as RFC 3339 writes it, in UTC, to the second.
pub(crate) fn time_text(date: &HttpDate) -> [u8; 20]
    ensures { result ≡ time_text date.now }
{
    let t = date.to_bytes();
    let [m0, m1] = month_digits(&t[8..11]);
    [
        t[12], t[13], t[14], t[15], b'-', m0, m1, b'-', t[5], t[6], b'T', t[17], t[18], t[19],
        t[20], t[21], t[22], t[23], t[24], b'Z',
    ]
}
