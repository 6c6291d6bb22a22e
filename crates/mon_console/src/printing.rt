//! How reports are printed: in which format, and names by which modules.

ghost use Rattle.std.specs.Prelude.{◌≡◌, ◌↔◌, [], IfOk, IsTrue, None, is_some, option_map, string_bytes};
ghost use Rattle.mon_board.specs.Board.{window_of};
ghost use Rattle.mon_console.specs.Notices.{alarm_notice, device_notice};
ghost use Rattle.mon_console.specs.Printing.{IsPrinting, aged, numbered, shown_names, with_labels};
ghost use Rattle.mon_console.specs.Shown.{shown_by};
ghost use Rattle.mon_host.specs.Log.{GoesOnBy};
ghost use Rattle.mon_formats.specs.Changes.{change_line, instance_text};
ghost use Rattle.mon_board.specs.Instance.{instances_of};
ghost use Rattle.mon_formats.specs.Formats.{formatted, report_in};
ghost use Rattle.mon_formats.specs.Series.{AreSeries};
ghost use Rattle.mon_formats.specs.declared.format.Format.TheVariants.{Text};

use crate::failure::Failure;
use crate::naming::{KnownNames, add_others};
use crate::seen::{DeviceSeen, Seen};
use mon_alarms::AlarmChange;
use mon_board::{Board, Instance, Watched};
use mon_cli::Printed;
use mon_formats::{
    Extras, Figures, Format, InstanceLabels, Presentation, SeriesLabels, Sort, alarm_line,
    format_report, instance_text,
};
use mon_host::Host;
use mon_notify::{Scene, alarm_message, device_message};
use mon_report::{Entry, entries_of};
use mon_smi::{InNumbers, Names};
use std::alloc::{AllocError, Global};

/// How reports are printed.
pub struct Printing {
    pub(crate) format: Format,
    /// `true` if the arguments name the format.
    pub(crate) chosen: bool,
    pub(crate) names: Option<Names>,
    /// The labels of each instance, in their order.
    labels: Vec<InstanceLabels>,
    presentation: Presentation,
}

// By hand: where one is let go, a proof has one call and not a drop of each field.
impl Drop for Printing {
    fn drop(self) {
        let Printing {
            format: _,
            chosen: _,
            names: _,
            labels: _,
            presentation: _,
        } = self;
    }
}

impl Printing {
    /// Reads what the arguments ask for. These names are known, of the modules in these files, and
    /// those of the modules that the arguments give.
    pub fn of<H: Host>(
        alloc: Global,
        host: &mut H,
        printed: Printed<'_, '_>,
        known: KnownNames,
        files: &[String],
    ) -> Result<Self, Failure>
        ensures done { GoesOnBy (λ log. IsPrinting printed.entry known.names files.now log result)
            (H.log host.old) (H.log host.new) }
        ensures format { IfOk result (λ printing. printing.format ≡ printed.entry.format) }
        ensures shown { IfOk result (λ printing.
            is_some printing.names ≡ printed.entry.named.shown) }
        ensures labels { IfOk result (λ printing. printing.labels.items ≡ []) }
    {
        let known = add_others(alloc, host, known, printed.named.modules, files)?;
        Ok(Printing {
            format: printed.format,
            chosen: printed.chosen,
            names: names_if(printed.named.shown, known),
            labels: Vec::new(alloc),
            presentation: Presentation {
                label: None,
                file_age: None,
                sort: printed.sort.unwrap_or(Sort::Name),
                station: None,
            },
        })
    }

    /// How reports are printed with these labels of the instances, and with that of the station.
    pub fn with_labels(self, labels: Vec<InstanceLabels>, label: Option<String>) -> Self
        ensures { result ≡ with_labels labels label self }
    {
        let Printing {
            format,
            chosen,
            names,
            labels: _,
            mut presentation,
        } = self;
        presentation.label = label;
        Printing {
            format,
            chosen,
            names,
            labels,
            presentation,
        }
    }

    /// How the report of a file is printed whose last change is this old in seconds, if that is
    /// known.
    pub fn with_file_age(self, file_age: Option<u64>) -> Self
        ensures { result ≡ aged file_age self }
    {
        let mut printing = self;
        printing.presentation.file_age = file_age;
        printing
    }

    /// How reports are printed in which each series of an instance has this number of a station as
    /// its label `station` in Prometheus' text, if there is one.
    pub(crate) fn with_station(self, station: Option<u32>) -> Self
        ensures { result ≡ numbered station self }
    {
        let mut printing = self;
        printing.presentation.station = station;
        printing
    }

    /// Returns `true` if the format is lines of text.
    pub fn is_text(&self) -> bool
        ensures { IsTrue result ↔ (self.now.format ≡ Text) }
    {
        self.format == Format::Text
    }

    /// The report of these instances, and for Prometheus of what the station says of itself.
    pub fn text(
        &self,
        alloc: Global,
        entries: &[Entry],
        station: Option<&Figures>,
    ) -> Result<Vec<u8>, AllocError>
        ensures { IfOk result (λ text. text.items
            ≡ formatted self.now.format (shown_by self.now.names) entries.now
            (option_map (λ f. f.now) station.entry) self.now.labels.items
            self.now.presentation) }
    {
        self.text_in(Vec::new(alloc), self.format, entries, station)
    }

    /// The report of these instances in this format, and for Prometheus of what the station says of
    /// itself. The buffer's octets are dropped, and its capacity is used again.
    pub(crate) fn text_in(
        &self,
        buffer: Vec<u8>,
        format: Format,
        entries: &[Entry],
        station: Option<&Figures>,
    ) -> Result<Vec<u8>, AllocError>
        ensures { IfOk result (λ text. text.items
            ≡ formatted format (shown_by self.now.names) entries.now
            (option_map (λ f. f.now) station.entry) self.now.labels.items
            self.now.presentation) }
    {
        let extras = self.extras(station);
        match &self.names {
            None => format_report(buffer, format, &InNumbers, entries, extras),
            Some(names) => {
                let labels = names.labels(*buffer.allocator())?;
                format_report(buffer, format, &labels, entries, extras)
            }
        }
    }

    /// Returns what a report has besides the windows of its instances.
    pub(crate) fn extras<'a>(&'a self, station: Option<&'a Figures>) -> Extras<'a>
        ensures labels { result.labels.now ≡ self.now.labels.items }
        ensures presentation { result.presentation.now ≡ self.now.presentation }
        ensures station { option_map (λ f. f.now) result.station
            ≡ option_map (λ f. f.now) station.entry }
    {
        Extras {
            station,
            labels: self.labels.as_slice(),
            presentation: &self.presentation,
        }
    }

    /// Makes the labels of the series of these instances.
    pub(crate) fn series_of(
        &self,
        alloc: Global,
        watched: &[Watched],
    ) -> Result<SeriesLabels, AllocError>
        ensures instances { IfOk result (λ s. s.instances ≡ instances_of watched.now) }
        ensures labels { IfOk result (AreSeries self.now.presentation.station
            (shown_by self.now.names) self.now.labels.items) }
    {
        let given = self.labels.as_slice();
        let station = self.presentation.station;
        match &self.names {
            None => SeriesLabels::new(alloc, &InNumbers, watched, given, station),
            Some(names) => {
                SeriesLabels::new(alloc, &names.labels(alloc)?, watched, given, station)
            }
        }
    }

    /// Returns the line of an alarm of a board that changed, without its end.
    pub(crate) fn alarm_line(
        &self,
        alloc: Global,
        board: &Board,
        change: &AlarmChange,
    ) -> Result<String, AllocError>
        ensures { IfOk result (λ line. string_bytes line
            ≡ change_line (shown_by self.now.names) board.now self.now.labels.items change.now) }
    {
        let labels = self.labels.as_slice();
        match &self.names {
            None => alarm_line(alloc, &InNumbers, board, labels, change),
            Some(names) => alarm_line(alloc, &names.labels(alloc)?, board, labels, change),
        }
    }

    /// Returns the notice of an alarm of a board that changed.
    pub(crate) fn alarm_message(
        &self,
        alloc: Global,
        board: &Board,
        seen: Seen,
        change: &AlarmChange,
    ) -> Result<Vec<u8>, AllocError>
        ensures { IfOk result (λ t. t.items ≡ alarm_notice self.now board.now seen change.now) }
    {
        let line = self.alarm_line(alloc, board, change)?;
        let scene = self.scene(board, seen);
        match &self.names {
            None => alarm_message(alloc, &InNumbers, scene, change, line.as_str()),
            Some(names) => {
                alarm_message(alloc, &names.labels(alloc)?, scene, change, line.as_str())
            }
        }
    }

    /// Returns the notice that a device was seen down or up, with this line for people.
    pub(crate) fn device_message(
        &self,
        alloc: Global,
        board: &Board,
        seen: Seen,
        device: DeviceSeen,
        summary: &str,
    ) -> Result<Vec<u8>, AllocError>
        ensures { IfOk result (λ t. t.items ≡ device_notice self.now seen device summary.now) }
    {
        let scene = self.scene(board, seen);
        device_message(alloc, scene, device.target, device.is_down, summary)
    }

    /// Returns what all notices of a station have in common that are seen at one time.
    fn scene<'a>(&'a self, board: &'a Board, seen: Seen) -> Scene<'a>
        ensures board { result.board.now ≡ board.now }
        ensures labels { result.labels.now ≡ self.now.labels.items }
        ensures seen { (result.station ≡ seen.station) × (result.date ≡ seen.date) }
    {
        Scene {
            board,
            labels: self.labels.as_slice(),
            station: seen.station,
            date: seen.date,
        }
    }

    /// Returns an instance's engine id and its name.
    pub(crate) fn instance_text(
        &self,
        alloc: Global,
        instance: &Instance,
    ) -> Result<String, AllocError>
        ensures { IfOk result (λ text.
            string_bytes text ≡ instance_text (shown_by self.now.names) instance.now) }
    {
        match &self.names {
            None => instance_text(alloc, &InNumbers, instance),
            Some(names) => instance_text(alloc, &names.labels(alloc)?, instance),
        }
    }

    /// The report of a board.
    pub fn report(
        &self,
        alloc: Global,
        board: &Board,
        station: Option<&Figures>,
    ) -> Result<Vec<u8>, AllocError>
        ensures { IfOk result (λ text. text.items
            ≡ report_in self.now.format (shown_by self.now.names) board.now.watch
            (window_of board.now) (option_map (λ f. f.now) station.entry)
            self.now.labels.items self.now.presentation) }
    {
        let entries = entries_of(alloc, board)?;
        self.text(alloc, entries.as_slice(), station)
    }
}

/// Returns the names if they are shown.
fn names_if(shown: bool, known: KnownNames) -> Option<Names>
    ensures { result ≡ shown_names shown known.names }
{
    if shown {
        Some(known.into_names())
    } else {
        None
    }
}
