//! What a station shows over HTTP: what its texts are built from, as it was at one time, and the
//! texts that were asked for since.

ghost use Rattle.std.specs.Prelude.{◌≡◌, IfOk, OnOk, false, true};
ghost use Rattle.mon_station_commands.specs.Snapshot.{AreBlank, AreRight, IsRight, draft_for, report_of, texts_of};

use mon_alarms::AlarmState;
use mon_board::Board;
use mon_console::SharedPrinting;
use mon_formats::{Figures, Format};
use mon_report::announced_entries;
use mon_web::{Content, Text};
use std::alloc::{AllocError, Global};
use std::mem;

/// What texts are built from: a station's windows, and what it says of itself, at one time.
pub(crate) struct Source {
    pub(crate) board: Board,
    /// What was announced of the alarms, in the order of the rules.
    pub(crate) states: Vec<AlarmState>,
    pub(crate) figures: Figures,
    pub(crate) printing: SharedPrinting,
}

// By hand: where one is let go, a proof has one call and not a drop of each field.
impl Drop for Source {
    fn drop(self) {
        let Source {
            board: _,
            states: _,
            figures: _,
            printing: _,
        } = self;
    }
}

impl Source {
    /// Returns its windows, as memory for others.
    fn into_board(self) -> Board {
        let Source {
            board,
            states: _,
            figures: _,
            printing: _,
        } = self;
        board
    }

    /// Makes the report in this format, in the memory of a buffer.
    fn report_in(&self, buffer: Vec<u8>, format: Format) -> Result<Vec<u8>, AllocError>
        ensures { IfOk result (λ text. text.items ≡ report_of format self.now) }
    {
        let alloc = *buffer.allocator();
        let entries = announced_entries(alloc, &self.board, self.states.as_slice())?;
        self.printing
            .text_in(buffer, format, entries.as_slice(), Some(&self.figures))
    }
}

/// A text, which is made when it is first asked for.
#[derive(Drop)]
pub(crate) struct Draft {
    text: Vec<u8>,
    is_made: bool,
}

impl Draft {
    /// Returns one that is not made, in the memory of a buffer.
    fn blank(buffer: Vec<u8>) -> Self
        ensures { result.is_made ≡ false }
    {
        Draft {
            text: buffer,
            is_made: false,
        }
    }

    /// Makes it of the source, if it is not made.
    fn make(&mut self, source: &Source, format: Format) -> Result<(), AllocError>
        requires { IsRight (report_of format source.now) self.old }
        ensures right { IsRight (report_of format source.now) self.new }
        ensures made { OnOk result (self.new.is_made ≡ true) }
    {
        if self.is_made {
            return Ok(());
        }
        let empty = Vec::new(*self.text.allocator());
        let buffer = mem::replace(&mut self.text, empty);
        self.text = source.report_in(buffer, format)?;
        self.is_made = true;
        Ok(())
    }
}

/// The texts of the three routes, of which the figures have two.
pub(crate) struct Drafts {
    metrics: Draft,
    open_metrics: Draft,
    report: Draft,
    page: Draft,
}

// By hand: where one is let go, a proof has one call and not a drop of each field.
impl Drop for Drafts {
    fn drop(self) {
        let Drafts {
            metrics: _,
            open_metrics: _,
            report: _,
            page: _,
        } = self;
    }
}

impl Drafts {
    /// Returns texts that are not made.
    pub(crate) fn new(alloc: Global) -> Self
        ensures { AreBlank result }
    {
        Drafts {
            metrics: Draft::blank(Vec::new(alloc)),
            open_metrics: Draft::blank(Vec::new(alloc)),
            report: Draft::blank(Vec::new(alloc)),
            page: Draft::blank(Vec::new(alloc)),
        }
    }

    /// Returns texts that are not made, in the memory of these.
    fn cleared(self) -> Self
        ensures { AreBlank result }
    {
        let Drafts {
            metrics,
            open_metrics,
            report,
            page,
        } = self;
        Drafts {
            metrics: Draft::blank(metrics.text),
            open_metrics: Draft::blank(open_metrics.text),
            report: Draft::blank(report.text),
            page: Draft::blank(page.text),
        }
    }
}

/// What a station shows, as it was at one time.
pub(crate) struct Snapshot {
    source: Source,
    drafts: Drafts,
    ghost right: { AreRight (texts_of source) drafts },
}

// By hand: where one is let go, a proof has one call and not a drop of each field.
impl Drop for Snapshot {
    fn drop(self) {
        let Snapshot {
            source: _,
            drafts: _,
        } = self;
    }
}

impl Snapshot {
    /// Shows what can be made of this source. No text is made yet.
    pub(crate) fn new(source: Source, drafts: Drafts) -> Self
        requires { AreBlank drafts }
        ensures { result.source ≡ source }
    {
        Snapshot { source, drafts }
    }

    /// Returns its texts and its windows, as memory for others.
    pub(crate) fn into_parts(self) -> (Drafts, Board)
        ensures { AreBlank result.0 }
    {
        let Snapshot { source, drafts } = self;
        (drafts.cleared(), source.into_board())
    }
}

impl Content for Snapshot {
    ghost use Rattle.std.specs.Prelude.{◌≡◌, true};
    ghost use Rattle.mon_station_commands.specs.Snapshot.{draft_for, texts_of};

    ghost says = { λ s. texts_of s.source };

    ghost made = { λ s text. (draft_for text s.drafts).is_made ≡ true };

    fn make(&mut self, text: Text) -> Result<(), AllocError> {
        match text {
            Text::Metrics => self.drafts.metrics.make(&self.source, Format::Prometheus),
            Text::OpenMetrics => self
                .drafts
                .open_metrics
                .make(&self.source, Format::OpenMetrics),
            Text::Report => self.drafts.report.make(&self.source, Format::Json),
            Text::Page => self.drafts.page.make(&self.source, Format::Html),
        }
    }

    fn text(&self, text: Text) -> &[u8] {
        match text {
            Text::Metrics => self.drafts.metrics.text.as_slice(),
            Text::OpenMetrics => self.drafts.open_metrics.text.as_slice(),
            Text::Report => self.drafts.report.text.as_slice(),
            Text::Page => self.drafts.page.text.as_slice(),
        }
    }
}
