//! Lines and columns of a text, by its characters.

ghost use Rattle.std.specs.Prelude.{◌≡◌, take};
ghost use Rattle.mon_faults.specs.LineColumn.{last_line, line_column_after};

/// A place in a text.
#[derive(Clone, Copy, Debug, PartialEq, Eq)]
pub(crate) struct LineColumn {
    /// The number of its line. The first one is 1.
    pub(crate) line: usize,
    /// The number of its character in the line. The first one is 1.
    pub(crate) column: usize,
}

/// Returns what follows the last line feed.
fn last_line(octets: &[u8]) -> &[u8]
    ensures { result.now ≡ last_line octets.now }
{
    let mut line = octets;
    for (index, octet) in octets.iter().enumerate() {
        if *octet == b'\n' {
            line = &octets[index + 1..];
        }
    }
    line
}

/// The line and the column of the octet after the first `offset` ones of a text, and of its end
/// where it has no more. A column counts characters.
#[tactic(auto, using(std::proofs::lemmas::List::take_all))]
pub(crate) fn line_column_at(text: &str, offset: usize) -> LineColumn
    ensures { result ≡ line_column_after (take offset text.now) }
{
    let all = text.as_bytes();
    let octets = if offset <= all.len() {
        &all[..offset]
    } else {
        all
    };
    let line_feeds = octets.iter().filter(|octet| **octet == b'\n');
    let chars = last_line(octets)
        .iter()
        .filter(|octet| **octet < 0x80 || **octet >= 0xC0);
    LineColumn {
        line: line_feeds.count() + 1,
        column: chars.count() + 1,
    }
}
