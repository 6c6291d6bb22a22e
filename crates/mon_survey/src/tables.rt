//! The texts of interfaces as a file, whose texts become labels of Prometheus' series.

ghost use Rattle.std.specs.Prelude.{◌≡◌, ◌≤◌, ◌++◌, [], ◌∷◌, IfOk, None, OnOk, codes, decimal, if◌then◌else◌, option_map, string_bytes};
ghost use Rattle.std.specs.List.{concat, flat_map};
ghost use Rattle.hex.specs.Hex.{encode_lower};
ghost use Rattle.mon_survey.specs.Answers.{octets_of, speed_in, value_at};
ghost use Rattle.mon_survey.specs.Labels.{begun, escaped, indexes_after, interface_text, is_before, labels_text, line_of, speed_line, text_of};

use crate::answers::Answers;
use crate::column::Column;
use crate::counter::Planned;
use std::alloc::{AllocError, AllocFailed, Global};

/// Adds the index of a counter's interface, unless it was the one before.
fn add_index(
    indexes: &mut Vec<u32>,
    before: Option<u32>,
    index: u32,
) -> Result<(), AllocFailed<u32>>
    ensures { OnOk result (indexes.new.items ≡ indexes.old.items
        ++ (if is_before before index then [] else (index ∷ []))) }
{
    if before == Some(index) {
        return Ok(());
    }
    indexes.push(index)
}

/// The indexes of the counters' interfaces, each once.
pub(crate) fn indexes_of(alloc: Global, counters: &[Planned]) -> Result<Vec<u32>, AllocError>
    ensures { IfOk result (λ v. v.items ≡ indexes_after None counters.now) }
{
    let mut indexes = Vec::new(alloc);
    let mut before = None;
    for one in counters {
        add_index(&mut indexes, before, one.index)?;
        before = Some(one.index);
    }
    Ok(indexes)
}

/// Octets as a text, with U+FFFD in place of what is not UTF-8; `None` if there are none.
pub(crate) fn text_of(alloc: Global, octets: &[u8]) -> Result<Option<String>, AllocError>
    ensures { IfOk result (λ t. option_map string_bytes t ≡ text_of octets.now) }
{
    if octets.is_empty() {
        return Ok(None);
    }
    Ok(Some(String::from_utf8_lossy(alloc, octets)?))
}

/// Adds an octet in quotes: a quote and a backslash after a backslash, a control character by its
/// number in hex.
fn put_escaped(alloc: Global, text: &mut Vec<u8>, octet: u8) -> Result<(), AllocError>
    ensures { OnOk result (text.new.items ≡ text.old.items ++ escaped octet) }
{
    if octet == b'"' || octet == b'\\' {
        return text.extend_from_slice(&[b'\\', octet]);
    }
    if octet <= 31 || octet == 127 {
        let digits = hex::encode(alloc, &[octet])?;
        text.extend_from_slice(b"\\u00")?;
        return text.extend_from_slice(digits.as_bytes());
    }
    text.extend_from_slice(&[octet])
}

/// Adds a text in quotes, without them.
fn put_quoted(alloc: Global, text: &mut Vec<u8>, value: &[u8]) -> Result<(), AllocError>
    ensures { OnOk result (text.new.items ≡ text.old.items ++ flat_map escaped value.now) }
{
    for octet in value {
        put_escaped(alloc, text, *octet)?;
    }
    Ok(())
}

/// Adds the line of a key, where there are octets, as a text.
fn put_text(alloc: Global, text: &mut Vec<u8>, key: &str, octets: &[u8]) -> Result<(), AllocError>
    ensures { OnOk result (text.new.items
        ≡ text.old.items ++ line_of key.now (text_of octets.now)) }
{
    let Some(value) = text_of(alloc, octets)? else {
        return Ok(());
    };
    text.extend_from_slice(key.as_bytes())?;
    text.extend_from_slice(b" = \"")?;
    put_quoted(alloc, text, value.as_bytes())?;
    text.extend_from_slice(b"\"\n")
}

/// Adds the head of an interface's table.
fn put_head(alloc: Global, text: &mut Vec<u8>, engine: &str, index: u32) -> Result<(), AllocError>
    ensures { OnOk result (text.new.items ≡ text.old.items ++ concat
        (codes "\n[[interface]]\nengine = \"" ∷ engine.now ∷ codes "\"\nindex = " ∷ decimal index
        ∷ codes "\n" ∷ [])) }
{
    let head = format!(in alloc; "\n[[interface]]\nengine = \"{engine}\"\nindex = {index}\n")?;
    text.extend_from_slice(head.as_bytes())
}

/// What labels are of: an engine, by its id in hex, and what its agent answered.
#[derive(Clone, Copy)]
pub(crate) struct Source<'a> {
    pub(crate) alloc: Global,
    pub(crate) engine: &'a str,
    pub(crate) answers: &'a Answers,
}

impl Source<'_> {
    /// Returns the octets of the interface's ifName; none if it is absent.
    pub(crate) fn name(&self, index: u32) -> &[u8]
        ensures { result.now ≡ octets_of (value_at self.now.answers.now (Column.IfX 1) index) }
    {
        self.answers.octets(Column::IfX(1), index)
    }

    /// Returns the octets of the interface's ifAlias; none if it is absent.
    pub(crate) fn alias(&self, index: u32) -> &[u8]
        ensures { result.now ≡ octets_of (value_at self.now.answers.now (Column.IfX 18) index) }
    {
        self.answers.octets(Column::IfX(18), index)
    }

    /// Returns the interface's speed in bits a second; 0 if it is unknown.
    pub(crate) fn speed(&self, index: u32) -> u64
        ensures speed { result ≡ speed_in self.now.answers.now index }
        ensures range { result ≤ 4_294_967_295_000_000 }
    {
        self.answers.speed(index)
    }

    /// Adds the line of the interface's speed, if it is known.
    fn put_speed(&self, text: &mut Vec<u8>, index: u32) -> Result<(), AllocError>
        ensures { OnOk result (text.new.items ≡ text.old.items
            ++ speed_line (speed_in self.now.answers.now index)) }
    {
        let speed = self.speed(index);
        if speed == 0 {
            return Ok(());
        }
        let line = format!(in self.alloc; "speed = {speed}\n")?;
        text.extend_from_slice(line.as_bytes())
    }

    /// Adds the table of an interface.
    #[tactic(auto, unfolding(crate::specs::Labels::interface_text))]
    fn put_interface(&self, text: &mut Vec<u8>, index: u32) -> Result<(), AllocError>
        ensures { OnOk result (text.new.items ≡ text.old.items
            ++ interface_text self.now.engine.now self.now.answers.now index) }
    {
        put_head(self.alloc, text, self.engine, index)?;
        put_text(self.alloc, text, "ifName", self.name(index))?;
        put_text(self.alloc, text, "ifAlias", self.alias(index))?;
        self.put_speed(text, index)
    }

    /// The octets of the text: those of the old one, and the tables of the interfaces.
    pub(crate) fn octets(&self, old: &str, indexes: &[u32]) -> Result<Vec<u8>, AllocError>
        ensures { IfOk result (λ v. v.items ≡ labels_text old.now self.now.engine.now
            self.now.answers.now indexes.now) }
    {
        let mut text = Vec::from_slice(self.alloc, begun(old).as_bytes())?;
        for index in indexes {
            self.put_interface(&mut text, *index)?;
        }
        Ok(text)
    }
}

/// The first line of a new file.
const FIRST: &str = "# Labels of interfaces.\n";

/// The old text, or the first line of a new one.
fn begun(old: &str) -> &str
    ensures { result.now ≡ begun old.now }
{
    if old.is_empty() { FIRST } else { old }
}
