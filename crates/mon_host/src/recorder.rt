//! Surroundings in memory.

ghost use Rattle.std.specs.Prelude.{◌≡◌, ◌∷◌, [], Err, IfErr, IfNone, IfOk, IfSome, None, Ok, Some, map, string_bytes};
ghost use Rattle.std.specs.declared.io.ErrorKind.TheVariants.{Unsupported};
ghost use Rattle.mon_host.specs.AtHost.{IsNoted, dating_file, finding, finding_node, listing_arguments, permitting, printing, reading_file, reading_input, reading_part, renaming, writing};
ghost use Rattle.mon_host.specs.Log.{GoesOn};
ghost use Rattle.mon_host.specs.Recorded.{IsStepOf, recorded, refused, step_of};

use crate::host::{Host, Part};
use crate::level::Level;
use crate::reason::Reason;
use std::alloc::{AllocError, Global};
use std::fmt::Display;
use std::io::ErrorKind;
use std::time::{Instant, SystemTime};

/// A call that was recorded: what it was asked, and what it gave.
#[derive(Drop)]
pub enum RecordedCall {
    Arguments(Result<Vec<String>, ErrorKind>),
    AtTerminal(bool),
    OutputAtTerminal(bool),
    Print(Vec<u8>, Result<(), ErrorKind>),
    Note(Level, String),
    ShowLevels,
    Input(Result<Vec<u8>, ErrorKind>),
    File(String, Result<Vec<u8>, ErrorKind>),
    Part(String, Part, Result<Vec<u8>, ErrorKind>),
    Write(String, Vec<u8>, Result<(), ErrorKind>),
    Rename(String, String, Result<(), ErrorKind>),
    Find(String, bool),
    DateFile(String),
    Permit(String, Result<(), ErrorKind>),
    FindNode(String, Option<(u64, u64)>),
    Time,
    Date,
}

/// A file in memory.
#[derive(Drop)]
pub struct Page {
    pub path: String,
    pub octets: Vec<u8>,
}

/// What a program is given in memory, and whether its standard output is refused.
#[derive(Drop)]
pub struct Given {
    /// The arguments, the program's name first.
    pub words: Vec<String>,
    pub input: Result<Vec<u8>, ErrorKind>,
    pub files: Vec<Page>,
    pub output: Result<(), ErrorKind>,
}

/// Surroundings in memory. They have no clock and no terminal, and say no words for why a call
/// failed. Their files have no time, so `changed` is refused as `time` and `date` are; no modes, so
/// all may be read; and no numbers, so the node of each is (0, 0). Each call is recorded. If memory
/// runs out for that, nothing is known from then on.
#[derive(Drop)]
pub struct Recorder {
    alloc: Global,
    given: Given,
    steps: Vec<RecordedCall>,
    is_lost: bool,
}

impl Recorder {
    /// Returns surroundings in which nothing was done so far.
    pub fn new(alloc: Global, given: Given) -> Self
        ensures { recorded result.is_lost result.steps.items ≡ Some [] }
    {
        Recorder {
            alloc,
            given,
            steps: Vec::new(alloc),
            is_lost: false,
        }
    }

    /// Returns what was done, or None if that is lost.
    pub fn steps(&self) -> Option<&[RecordedCall]>
        ensures some { IfSome result
            (λ steps. recorded self.now.is_lost self.now.steps.items
            ≡ Some (map step_of steps.now)) }
        ensures none { IfNone result (recorded self.now.is_lost self.now.steps.items ≡ None) }
    {
        if self.is_lost {
            return None;
        }
        Some(self.steps.as_slice())
    }

    /// Records a call, or that it could not be recorded.
    fn record(&mut self, step: Result<RecordedCall, AllocError>)
        ensures kept { IfOk step (λ s. GoesOn (step_of s ∷ [])
            (recorded self.old.is_lost self.old.steps.items)
            (recorded self.new.is_lost self.new.steps.items)) }
        ensures lost { IfErr step (λ _. recorded self.new.is_lost self.new.steps.items ≡ None) }
    {
        match step {
            Ok(step) => {
                if self.steps.push(step).is_err() {
                    self.is_lost = true;
                }
            }
            Err(_) => self.is_lost = true,
        }
    }

    /// Returns what the file at a path holds.
    fn look_up(&self, path: &str) -> Result<Vec<u8>, ErrorKind> {
        match self
            .given
            .files
            .iter()
            .find(|page| page.path.as_str() == path)
        {
            Some(page) => or_kind(Vec::from_slice(self.alloc, page.octets.as_slice())),
            None => Err(ErrorKind::NotFound),
        }
    }

    /// Returns a part of what the file at a path holds.
    fn look_up_part(&self, path: &str, part: Part) -> Result<Vec<u8>, ErrorKind> {
        let octets = self.look_up(path)?;
        or_kind(Vec::from_slice(self.alloc, part_of(octets.as_slice(), part)))
    }

    /// Returns `true` if a file is at a path.
    fn has(&self, path: &str) -> bool {
        self.given
            .files
            .iter()
            .any(|page| page.path.as_str() == path)
    }

    /// Puts octets into the file at a path.
    fn put(&mut self, path: &str, octets: &[u8]) -> Result<(), AllocError>
        ensures steps { self.new.steps ≡ self.old.steps }
        ensures lost { self.new.is_lost ≡ self.old.is_lost }
    {
        let page = Page {
            path: String::from_str(self.alloc, path)?,
            octets: Vec::from_slice(self.alloc, octets)?,
        };
        self.given.files.retain(|page| page.path.as_str() != path);
        self.given.files.push(page)?;
        Ok(())
    }

    /// Replaces the file at a path by another one.
    fn put_at(&mut self, path: &str, other: &str) -> Result<(), ErrorKind>
        ensures steps { self.new.steps ≡ self.old.steps }
        ensures lost { self.new.is_lost ≡ self.old.is_lost }
    {
        let octets = self.look_up(path)?;
        let done = or_kind(self.put(other, octets.as_slice()));
        if done.is_ok() && path != other {
            self.given.files.retain(|page| page.path.as_str() != path);
        }
        done
    }
}

/// Returns what there was memory for.
fn or_kind<T: Drop, E: Drop>(given: Result<T, E>) -> Result<T, ErrorKind> {
    match given {
        Ok(value) => Ok(value),
        Err(_) => Err(ErrorKind::OutOfMemory),
    }
}

/// Returns a part of octets, fewer if they end before.
fn part_of(octets: &[u8], part: Part) -> &[u8] {
    let at = usize::try_from(part.at)
        .unwrap_or(octets.len())
        .min(octets.len());
    let rest = &octets[at..];
    let length = usize::try_from(part.length)
        .unwrap_or(rest.len())
        .min(rest.len());
    &rest[..length]
}

/// Returns copies of words.
fn copies(alloc: Global, words: &[String]) -> Result<Vec<String>, AllocError>
    ensures { IfOk result (λ copies. map string_bytes copies.items ≡ map string_bytes words.now) }
{
    let mut copies = Vec::new(alloc);
    for word in words {
        copies.push(String::from_str(alloc, word.as_str())?)?;
    }
    Ok(copies)
}

/// Returns what a call gives that failed for a reason of this kind, or not.
fn refused<T: Drop>(given: Result<T, ErrorKind>) -> Result<T, Reason>
    ensures { result ≡ refused given }
{
    match given {
        Ok(value) => Ok(value),
        Err(kind) => Err(Reason { kind, words: None }),
    }
}

/// Records the arguments.
fn arguments_step(
    alloc: Global,
    given: &Result<Vec<String>, ErrorKind>,
) -> Result<RecordedCall, AllocError>
    ensures { IfOk result (IsStepOf (listing_arguments (refused given.now))) }
{
    match given {
        Ok(words) => Ok(RecordedCall::Arguments(Ok(copies(alloc, words.as_slice())?))),
        Err(kind) => Ok(RecordedCall::Arguments(Err(*kind))),
    }
}

/// Records octets that were printed, or that were not.
fn print_step(
    alloc: Global,
    octets: &[u8],
    given: Result<(), ErrorKind>,
) -> Result<RecordedCall, AllocError>
    ensures { IfOk result (IsStepOf (printing octets.now (refused given))) }
{
    Ok(RecordedCall::Print(Vec::from_slice(alloc, octets)?, given))
}

/// Records a text for standard error.
fn note_step<D: Display + Drop>(
    alloc: Global,
    level: Level,
    text: D,
) -> Result<RecordedCall, AllocError>
    ensures { IfOk result (λ step. IsNoted level (D.output text) (step_of step ∷ [])) }
{
    Ok(RecordedCall::Note(level, format!(in alloc; "{text}")?))
}

/// Records what was read from standard input.
fn input_step(alloc: Global, given: &Result<Vec<u8>, ErrorKind>) -> Result<RecordedCall, AllocError>
    ensures { IfOk result (IsStepOf (reading_input (refused given.now))) }
{
    match given {
        Ok(octets) => Ok(RecordedCall::Input(Ok(Vec::from_slice(alloc, octets)?))),
        Err(kind) => Ok(RecordedCall::Input(Err(*kind))),
    }
}

/// Records what was read from a file.
fn file_step(
    alloc: Global,
    path: &str,
    given: &Result<Vec<u8>, ErrorKind>,
) -> Result<RecordedCall, AllocError>
    ensures { IfOk result (IsStepOf (reading_file path.now (refused given.now))) }
{
    let path = String::from_str(alloc, path)?;
    match given {
        Ok(octets) => Ok(RecordedCall::File(path, Ok(Vec::from_slice(alloc, octets)?))),
        Err(kind) => Ok(RecordedCall::File(path, Err(*kind))),
    }
}

/// Records what was read from a part of a file.
fn part_step(
    alloc: Global,
    path: &str,
    part: Part,
    given: &Result<Vec<u8>, ErrorKind>,
) -> Result<RecordedCall, AllocError>
    ensures { IfOk result (IsStepOf (reading_part path.now part (refused given.now))) }
{
    let path = String::from_str(alloc, path)?;
    match given {
        Ok(octets) => Ok(RecordedCall::Part(path, part, Ok(Vec::from_slice(alloc, octets)?))),
        Err(kind) => Ok(RecordedCall::Part(path, part, Err(*kind))),
    }
}

/// Records octets that were written to a file, or that were not.
fn write_step(
    alloc: Global,
    path: &str,
    octets: &[u8],
    given: Result<(), ErrorKind>,
) -> Result<RecordedCall, AllocError>
    ensures { IfOk result (IsStepOf (writing path.now octets.now (refused given))) }
{
    let path = String::from_str(alloc, path)?;
    Ok(RecordedCall::Write(path, Vec::from_slice(alloc, octets)?, given))
}

/// Records that a file got another path, or did not.
fn rename_step(
    alloc: Global,
    path: &str,
    other: &str,
    given: Result<(), ErrorKind>,
) -> Result<RecordedCall, AllocError>
    ensures { IfOk result (IsStepOf (renaming path.now other.now (refused given))) }
{
    let path = String::from_str(alloc, path)?;
    Ok(RecordedCall::Rename(path, String::from_str(alloc, other)?, given))
}

/// Records whether something is at a path.
fn find_step(alloc: Global, path: &str, is: bool) -> Result<RecordedCall, AllocError>
    ensures { IfOk result (IsStepOf (finding path.now (Ok is))) }
{
    Ok(RecordedCall::Find(String::from_str(alloc, path)?, is))
}

/// Records that a file was asked for its time, which none has.
fn date_file_step(alloc: Global, path: &str) -> Result<RecordedCall, AllocError>
    ensures { IfOk result (IsStepOf (dating_file path.now (refused (Err Unsupported)))) }
{
    Ok(RecordedCall::DateFile(String::from_str(alloc, path)?))
}

/// Records that all users were permitted to read a file, or were not.
fn permit_step(
    alloc: Global,
    path: &str,
    given: Result<(), ErrorKind>,
) -> Result<RecordedCall, AllocError>
    ensures { IfOk result (IsStepOf (permitting path.now (refused given))) }
{
    Ok(RecordedCall::Permit(String::from_str(alloc, path)?, given))
}

/// Records which file is at a path.
fn find_node_step(
    alloc: Global,
    path: &str,
    node: Option<(u64, u64)>,
) -> Result<RecordedCall, AllocError>
    ensures { IfOk result (IsStepOf (finding_node path.now (Ok node))) }
{
    Ok(RecordedCall::FindNode(String::from_str(alloc, path)?, node))
}

impl Host for Recorder {
    ghost use Rattle.mon_host.specs.Recorded.{recorded};

    ghost log = { λ r. recorded r.is_lost r.steps.items };

    fn arguments(&mut self) -> Result<Vec<String>, Reason> {
        let given = or_kind(copies(self.alloc, self.given.words.as_slice()));
        self.record(arguments_step(self.alloc, &given));
        refused(given)
    }

    fn is_at_terminal(&mut self) -> bool {
        self.record(Ok(RecordedCall::AtTerminal(false)));
        false
    }

    fn prints_to_terminal(&mut self) -> bool {
        self.record(Ok(RecordedCall::OutputAtTerminal(false)));
        false
    }

    fn print(&mut self, octets: &[u8]) -> Result<(), Reason> {
        let given = self.given.output;
        self.record(print_step(self.alloc, octets, given));
        refused(given)
    }

    fn note<D: Display + Drop>(&mut self, level: Level, text: D) {
        self.record(note_step(self.alloc, level, text));
    }

    fn show_levels(&mut self) {
        self.record(Ok(RecordedCall::ShowLevels));
    }

    fn read_input(&mut self) -> Result<Vec<u8>, Reason> {
        let given = match &self.given.input {
            Ok(octets) => or_kind(Vec::from_slice(self.alloc, octets)),
            Err(kind) => Err(*kind),
        };
        self.record(input_step(self.alloc, &given));
        refused(given)
    }

    fn read_file(&mut self, path: &str) -> Result<Vec<u8>, Reason> {
        let given = self.look_up(path);
        self.record(file_step(self.alloc, path, &given));
        refused(given)
    }

    fn read_part(&mut self, path: &str, part: Part) -> Result<Vec<u8>, Reason> {
        let given = self.look_up_part(path, part);
        self.record(part_step(self.alloc, path, part, &given));
        refused(given)
    }

    fn write_file(&mut self, path: &str, octets: &[u8]) -> Result<(), Reason> {
        let given = or_kind(self.put(path, octets));
        self.record(write_step(self.alloc, path, octets, given));
        refused(given)
    }

    fn rename(&mut self, path: &str, other: &str) -> Result<(), Reason> {
        let given = self.put_at(path, other);
        self.record(rename_step(self.alloc, path, other, given));
        refused(given)
    }

    fn is_there(&mut self, path: &str) -> Result<bool, Reason> {
        let is = self.has(path);
        self.record(find_step(self.alloc, path, is));
        Ok(is)
    }

    fn changed(&mut self, path: &str) -> Result<SystemTime, Reason> {
        self.record(date_file_step(self.alloc, path));
        refused(Err(ErrorKind::Unsupported))
    }

    fn permit_reading(&mut self, path: &str) -> Result<(), Reason> {
        let given = if self.has(path) {
            Ok(())
        } else {
            Err(ErrorKind::NotFound)
        };
        self.record(permit_step(self.alloc, path, given));
        refused(given)
    }

    fn node(&mut self, path: &str) -> Result<Option<(u64, u64)>, Reason> {
        let node = self.has(path).then_some((0, 0));
        self.record(find_node_step(self.alloc, path, node));
        Ok(node)
    }

    fn time(&mut self) -> Result<Instant, Reason> {
        self.record(Ok(RecordedCall::Time));
        refused(Err(ErrorKind::Unsupported))
    }

    fn date(&mut self) -> Result<SystemTime, Reason> {
        self.record(Ok(RecordedCall::Date));
        refused(Err(ErrorKind::Unsupported))
    }
}
