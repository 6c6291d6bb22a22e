ghost use Rattle.std.specs.Prelude.{◌≡◌, ◌<◌, ◌==◌, ◌||◌, ◌&&◌, ℕ, IfSome, Some, length};
ghost use Rattle.std.specs.FinSet as set;
ghost use Rattle.mon_board.specs.Board.{is_marked, window_of};
ghost use Rattle.mon_exchange.specs.Peers.{IsWatchedAs, is_claimed, marks_noted};

use crate::claim::Claim;
use crate::noted::Noted;
use mon_board::Board;
use mon_sample::Sample;

/// The number of the claim's instance in the board's watch.
pub(crate) fn number_of(board: &Board, claim: &Claim) -> Option<u16>
    ensures found { IfSome result (λ i. IsWatchedAs board.now.watch claim.now.engine claim.now.name
        i) }
    ensures within { IfSome result (λ i. i < length board.now.watch.instances) }
    ensures only { (i : ℕ) → IsWatchedAs board.now.watch claim.now.engine claim.now.name i
        → result ≡ Some i }
{
    board.find(claim.engine.as_slice(), &claim.name)
}

/// Marks what was claimed for the peer in the slot, by what the claim was noted as.
pub(crate) fn mark_noted(
    board: &mut Board,
    noted: Noted,
    slot: u8,
    instance: u16,
    samples: &[Sample],
)
    requires slot { slot < 15 }
    requires instance { instance < length board.old.watch.instances }
    ensures watch { board.new.watch ≡ board.old.watch }
    ensures windows { board.new.windows ≡ board.old.windows }
    ensures marks { (k i s : ℕ) → is_marked board.new k i s ≡ marks_noted noted slot instance
        samples.now (window_of board.old) (is_marked board.old) k i s }
{
    match noted {
        Noted::NewIncarnation => {
            board.unmark_all(slot);
            mark_all(board, slot, instance, samples);
        }
        Noted::Counted => mark_all(board, slot, instance, samples),
        Noted::OlderIncarnation => {}
    }
}

/// Marks the samples that are in the instance's window for the slot.
fn mark_all(board: &mut Board, slot: u8, instance: u16, samples: &[Sample])
    requires slot { slot < 15 }
    requires instance { instance < length board.old.watch.instances }
    ensures watch { board.new.watch ≡ board.old.watch }
    ensures windows { board.new.windows ≡ board.old.windows }
    ensures marks { (k i s : ℕ) → is_marked board.new k i s ≡
        (is_marked board.old k i s || ((k == slot) && is_claimed instance samples.now
        (window_of board.old) i s)) }
{
    for sample in samples {
        board.mark(slot, instance, sample);
    }
}
