//! What a running station shows over HTTP.

ghost use Rattle.std.specs.Prelude.{◌≡◌, IfOk, option_map};
ghost use Rattle.mon_station.specs.State.{state_of};
ghost use Rattle.mon_station_commands.specs.Showing.{AreTextsOf, IsShown};
ghost use Rattle.mon_station_commands.specs.Snapshot.{AreBlank, texts_of};
ghost use Rattle.mon_web.specs.Pages.{with_round};

use crate::copying::copy_of;
use crate::figures::make_figures;
use crate::live::Live;
use crate::snapshot::{Drafts, Snapshot, Source};
use mon_board::Board;
use mon_rounds::{Receiver, Span};
use mon_station::Outbox;
use mon_web_receiver::Shows;
use std::alloc::{AllocError, Global};

/// Shows what is known after a round, or after the time between two in which something came. If
/// there is no memory for that, nothing is shown until there is.
pub(crate) fn show_span<S: Shows<Snapshot> + Drop, O: Outbox + Drop>(
    alloc: Global,
    live: &mut Live<S, O>,
    number: u32,
    span: Span,
)
    // After a round the pages know which one ended when, and show what is known after it.
    ensures shown { span ≡ Span.Round → IsShown (AreTextsOf (state_of live.old.station.life)
        live.old.course live.old.freshness live.old.transport.peers.items
        live.old.transport.engines.items live.old.ended live.old.kept.round_at live.old.reports)
        (option_map (with_round live.old.ended number) (S.shown live.old.transport.rounds.receiver)) (S.shown live.new.transport.rounds.receiver) }
    ensures courier { live.new.courier ≡ live.old.courier }
    ensures printing { live.new.reports.printing ≡ live.old.reports.printing }
    ensures paths { live.new.reports.paths ≡ live.old.reports.paths }
    ensures kept { live.new.kept ≡ live.old.kept }
    ensures round { live.new.transport.rounds.round ≡ live.old.transport.rounds.round }
    ensures ran { live.new.run ≡ live.old.run }
    ensures station { live.new.station ≡ live.old.station }
{
    if span == Span::Round {
        let ended = live.ended;
        live.transport
            .rounds
            .receiver_mut()
            .note_round(ended, number);
    } else if live.run.answers.is_empty() {
        return;
    }
    show(alloc, live);
}

/// Shows what is known now. A text of it is made when it is first asked for, in the memory of what
/// was shown before.
pub(crate) fn show<S: Shows<Snapshot> + Drop, O: Outbox + Drop>(
    alloc: Global,
    live: &mut Live<S, O>,
)
    ensures shown { IsShown (AreTextsOf (state_of live.old.station.life) live.old.course
        live.old.freshness live.old.transport.peers.items live.old.transport.engines.items
        live.old.ended live.old.kept.round_at live.old.reports)
        (S.shown live.old.transport.rounds.receiver) (S.shown live.new.transport.rounds.receiver) }
    ensures courier { live.new.courier ≡ live.old.courier }
    ensures printing { live.new.reports.printing ≡ live.old.reports.printing }
    ensures paths { live.new.reports.paths ≡ live.old.reports.paths }
    ensures kept { live.new.kept ≡ live.old.kept }
    ensures round { live.new.transport.rounds.round ≡ live.old.transport.rounds.round }
    ensures ran { live.new.run ≡ live.old.run }
    ensures station { live.new.station ≡ live.old.station }
{
    if live.transport.rounds.receiver().is_shown() {
        let before = live.transport.rounds.receiver_mut().take_content();
        let after = snapshot_of(alloc, live, before).ok();
        live.transport.rounds.receiver_mut().show(after);
    }
}

/// Returns what is shown now, in the memory of what was shown before: what texts are built from, as
/// it is now.
fn snapshot_of<S: Receiver + Drop, O: Outbox + Drop>(
    alloc: Global,
    live: &Live<S, O>,
    before: Option<Snapshot>,
) -> Result<Snapshot, AllocError>
    // Its texts are those of the board, of what was announced of its alarms and of what the station
    // says of itself, as they are now.
    ensures { IfOk result (λ snapshot. AreTextsOf (state_of live.now.station.life) live.now.course
        live.now.freshness live.now.transport.peers.items live.now.transport.engines.items
        live.now.ended live.now.kept.round_at live.now.reports (texts_of snapshot.source)) }
{
    let (drafts, memory) = memory_of(alloc, before);
    let figures = make_figures(alloc, live)?;
    let states = live.course.announced(alloc)?;
    let board = copy_of(alloc, live.station.board(), memory)?;
    let printing = live.reports.printing.share()?;
    let source = Source {
        board,
        states,
        figures,
        printing,
    };
    Ok(Snapshot::new(source, drafts))
}

/// Returns the memory for texts, and that for windows: those of what was shown before, if anything
/// was.
fn memory_of(alloc: Global, before: Option<Snapshot>) -> (Drafts, Option<Board>)
    ensures { AreBlank result.0 }
{
    match before {
        Some(before) => {
            let (drafts, board) = before.into_parts();
            (drafts, Some(board))
        }
        None => (Drafts::new(alloc), None),
    }
}
