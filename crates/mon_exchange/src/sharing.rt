ghost use Rattle.std.specs.Prelude.{◌≡◌, ◌≤◌, ◌<◌, ◌++◌, ℕ, All, IfOk, OnOk, drop, length, map, take};
ghost use Rattle.std.specs.List.Sorted.{IsStrictlySortedBy};
ghost use Rattle.std.specs.Ordering.{nat_cmp};
ghost use Rattle.mon_board.specs.Board.{is_marked, window_of};
ghost use Rattle.mon_board.specs.Owed.{owed_in};
ghost use Rattle.mon_exchange.specs.Portions as specs;
ghost use Rattle.mon_exchange.specs.Portions.{IsPortion, offered_portions, pieces, portion, portions_from};
ghost use Rattle.mon_window.specs.Top.{rising};

use mon_board::Board;
use mon_fields::SampleList;
use mon_sample::Sample;
use std::alloc::{AllocError, Global};

/// How many samples a claim has at most.
const MAX_SAMPLES: usize = 40;

/// Samples of one instance, as many as one offer carries.
#[derive(Drop)]
pub struct Portion {
    /// The instance's number in the watch.
    pub instance: u16,
    /// At most 40 samples, each above the one before it.
    pub samples: SampleList,
}

/// Returns what is offered to the peer in the slot, in the order in which it is sent: of each
/// instance what is owed, the oldest sample first, at most 40 a portion; where nothing is owed, one
/// portion without samples of the first instance.
pub fn portions(alloc: Global, board: &Board, slot: u8) -> Result<Vec<Portion>, AllocError>
    requires { slot < 15 }
    ensures portions { IfOk result (λ p. p.items ≡ offered_portions
        (owed_in (window_of board.now) (is_marked board.now slot))
        (length board.now.watch.instances)) }
    ensures each { IfOk result (λ p. All (IsPortion (length board.now.watch.instances)) p.items) }
{
    let mut portions = owed_portions(alloc, board, slot)?;
    if !portions.is_empty() {
        return Ok(portions);
    }
    let samples = SampleList::new(Vec::new(alloc));
    portions.push(Portion {
        instance: 0,
        samples,
    })?;
    Ok(portions)
}

/// What is owed to the peer in the slot; none where that is nothing.
fn owed_portions(alloc: Global, board: &Board, slot: u8) -> Result<Vec<Portion>, AllocError>
    requires { slot < 15 }
    ensures portions { IfOk result (λ p. p.items ≡ portions_from
        (owed_in (window_of board.now) (is_marked board.now slot)) 0
        (length board.now.watch.instances)) }
    ensures each { IfOk result (λ p. All (IsPortion (length board.now.watch.instances)) p.items) }
    ensures some { IfOk result (λ p. 0 < length board.now.watch.instances) }
{
    let mut portions = Vec::new(alloc);
    let many = board.watch().instances().len();
    for place in 0..many {
        let instance = place as u16;
        let owed = owed_of(alloc, board, slot, instance)?;
        push_pieces(alloc, &mut portions, instance, owed.as_slice())?;
    }
    Ok(portions)
}

/// What is owed to the peer in the slot of an instance, the oldest first.
fn owed_of(alloc: Global, board: &Board, slot: u8, instance: u16) -> Result<Vec<Sample>, AllocError>
    requires slot { slot < 15 }
    requires instance { instance < length board.now.watch.instances }
    ensures owed { IfOk result (λ owed. owed.items ≡ rising (owed_in (window_of board.now)
        (is_marked board.now slot) instance)) }
    ensures rising { IfOk result (λ owed. IsStrictlySortedBy nat_cmp owed.items) }
{
    mon_window::laws::rising_list();
    let mut owed = Vec::new(alloc);
    let mut after = None;
    while let Some(sample) = board.owed(slot, instance, after) {
        owed.push(sample)?;
        after = Some(sample);
    }
    Ok(owed)
}

/// Appends the samples of an instance, a piece a portion.
fn push_pieces(
    alloc: Global,
    portions: &mut Vec<Portion>,
    instance: u16,
    samples: &[Sample],
) -> Result<(), AllocError>
    requires { IsStrictlySortedBy nat_cmp samples.now }
    ensures portions { OnOk result (portions.new.items ≡ portions.old.items
        ++ map (portion instance) (pieces samples.now)) }
    ensures each { (n : ℕ) → instance < n → All (IsPortion n) portions.old.items
        → OnOk result (All (IsPortion n) portions.new.items) }
{
    let mut rest = samples;
    while !rest.is_empty() {
        let (piece, more) = split_piece(rest);
        let samples = SampleList::new(Vec::from_slice(alloc, piece)?);
        portions.push(Portion { instance, samples })?;
        rest = more;
    }
    Ok(())
}

/// The first piece of the samples, at most 40, and the others.
#[tactic(auto, using(crate::proofs::Pieces::first_piece, crate::proofs::Pieces::other_pieces))]
fn split_piece(samples: &[Sample]) -> (&[Sample], &[Sample])
    ensures piece { result.0.now ≡ take 40 samples.now }
    ensures others { result.1.now ≡ drop 40 samples.now }
{
    samples.split_at(samples.len().min(MAX_SAMPLES))
}

/// The serial of the offer that follows one of this serial: serials count from 1, and after
/// 4294967295 comes 1.
pub fn serial_after(serial: u32) -> u32
    ensures serial { result ≡ specs.serial_after serial }
    ensures positive { 1 ≤ result }
{
    if serial == u32::MAX { 1 } else { serial + 1 }
}
