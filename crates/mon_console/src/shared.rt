//! How reports are printed, by several owners: by what prints them and what shows them over HTTP.

ghost use Rattle.std.specs.Prelude.{◌≡◌, ◌↔◌, IfOk, IsTrue, None, option_map, string_bytes};
ghost use Rattle.mon_console.specs.Notices.{alarm_notice, device_notice};
ghost use Rattle.mon_console.specs.Printing.{IsFitted};
ghost use Rattle.mon_console.specs.Shown.{shown_by};
ghost use Rattle.mon_formats.specs.Changes.{change_line, instance_text};
ghost use Rattle.mon_formats.specs.Formats.{formatted};
ghost use Rattle.mon_formats.specs.declared.format.Format.TheVariants.{Text};
ghost use Rattle.mon_host.specs.Log.{GoesOnBy};

use crate::printing::Printing;
use crate::seen::{DeviceSeen, Seen};
use mon_alarms::AlarmChange;
use mon_board::{Board, Instance, Watched};
use mon_formats::{Figures, Format, SeriesLabels};
use mon_host::Host;
use mon_report::Entry;
use std::alloc::{AllocError, Global};
use std::marker::Model;
use std::rc::Rc;

/// How reports are printed. Owners share the names and labels; each has a format of its own.
/// Contracts see a [`Printing`].
#[derive(Drop)]
pub struct SharedPrinting {
    shared: Rc<Printing>,
    // The labels of the series of some instances, by the names and labels that are shared.
    series: Rc<SeriesLabels>,
    format: Format,
}

impl Model for SharedPrinting {
    ghost use Rattle.mon_console.specs.Shown.{shown_by};
    ghost use Rattle.mon_console.specs.declared.printing.Printing.{Printing};
    ghost use Rattle.mon_formats.specs.Series.{AreSeries};

    ghost Value = { Printing };

    ghost view = { λ s. record s.shared.value { format = s.format } };

    ghost invariant = { λ s. AreSeries s.shared.value.presentation.station
        (shown_by s.shared.value.names) s.shared.value.labels.items s.series.value };
}

impl SharedPrinting {
    /// Returns its first owner. The labels of the series of these instances are made now, once for
    /// all texts that Prometheus reads.
    ///
    /// # Errors
    /// `AllocError` if there is no memory for it.
    pub fn new(alloc: Global, printing: Printing, instances: &[Watched]) -> Result<Self, AllocError>
        ensures { IfOk result (λ shared. shared ≡ printing) }
    {
        let format = printing.format;
        let series = printing.series_of(alloc, instances)?;
        Ok(SharedPrinting {
            shared: Rc::new(alloc, printing)?,
            series: Rc::new(alloc, series)?,
            format,
        })
    }

    /// Returns another owner of the same.
    ///
    /// # Errors
    /// `AllocError` if there are too many.
    pub fn share(&self) -> Result<Self, AllocError>
        ensures { IfOk result (λ shared. shared ≡ self.now) }
    {
        Ok(SharedPrinting {
            shared: self.shared.clone()?,
            series: self.series.clone()?,
            format: self.format,
        })
    }

    /// Makes this owner's reports tables from now on, if the arguments name no format and standard
    /// output is a terminal.
    pub fn fit_output<H: Host>(&mut self, host: &mut H)
        ensures { GoesOnBy (IsFitted self.old self.new) (H.log host.old) (H.log host.new) }
    {
        if self.shared.chosen {
            return;
        }
        if host.prints_to_terminal() {
            self.format = Format::Columns;
        }
    }

    /// Returns `true` if the format is lines of text with names in numbers.
    pub fn is_plain(&self) -> bool
        ensures { IsTrue result ↔ ((self.now.format ≡ Text) × (self.now.names ≡ None)) }
    {
        self.format == Format::Text && self.shared.names.is_none()
    }

    /// The report of these instances, and for Prometheus of what the station says of itself.
    pub fn text(
        &self,
        alloc: Global,
        entries: &[Entry],
        station: Option<&Figures>,
    ) -> Result<Vec<u8>, AllocError>
        ensures { IfOk result (λ text. text.items
            ≡ formatted self.now.format (shown_by self.now.names) entries.now
            (option_map (λ f. f.now) station.entry) self.now.labels.items
            self.now.presentation) }
    {
        self.text_in(Vec::new(alloc), self.format, entries, station)
    }

    /// The report of these instances in this format, and for Prometheus of what the station says of
    /// itself. The buffer's octets are dropped, and its capacity is used again.
    pub fn text_in(
        &self,
        buffer: Vec<u8>,
        format: Format,
        entries: &[Entry],
        station: Option<&Figures>,
    ) -> Result<Vec<u8>, AllocError>
        ensures { IfOk result (λ text. text.items
            ≡ formatted format (shown_by self.now.names) entries.now
            (option_map (λ f. f.now) station.entry) self.now.labels.items
            self.now.presentation) }
    {
        if self.series.fit(format, entries) {
            let extras = self.shared.extras(station);
            return self.series.report(buffer, format, entries, extras);
        }
        self.shared.text_in(buffer, format, entries, station)
    }

    /// Returns the line of an alarm of a board that changed, without its end.
    pub fn alarm_line(
        &self,
        alloc: Global,
        board: &Board,
        change: &AlarmChange,
    ) -> Result<String, AllocError>
        ensures { IfOk result (λ line. string_bytes line
            ≡ change_line (shown_by self.now.names) board.now self.now.labels.items change.now) }
    {
        self.shared.alarm_line(alloc, board, change)
    }

    /// Returns the notice of an alarm of a board that changed, for a receiver of Alertmanager's
    /// webhooks: the text of a JSON object (RFC 8259). Its summary is the line of the alarm.
    ///
    /// # Errors
    /// `AllocError` if there is no memory for it.
    pub fn alarm_message(
        &self,
        alloc: Global,
        board: &Board,
        seen: Seen,
        change: &AlarmChange,
    ) -> Result<Vec<u8>, AllocError>
        ensures { IfOk result (λ t. t.items ≡ alarm_notice self.now board.now seen change.now) }
    {
        self.shared.alarm_message(alloc, board, seen, change)
    }

    /// Returns the notice that a device was seen down or up, with this line for people, for the
    /// same receivers.
    ///
    /// # Errors
    /// `AllocError` if there is no memory for it.
    pub fn device_message(
        &self,
        alloc: Global,
        board: &Board,
        seen: Seen,
        device: DeviceSeen,
        summary: &str,
    ) -> Result<Vec<u8>, AllocError>
        ensures { IfOk result (λ t. t.items ≡ device_notice self.now seen device summary.now) }
    {
        self.shared
            .device_message(alloc, board, seen, device, summary)
    }

    /// Returns an instance's engine id and its name.
    pub fn instance_text(&self, alloc: Global, instance: &Instance) -> Result<String, AllocError>
        ensures { IfOk result (λ text.
            string_bytes text ≡ instance_text (shown_by self.now.names) instance.now) }
    {
        self.shared.instance_text(alloc, instance)
    }
}
