//! Opening a station.

ghost use Rattle.std.specs.Prelude.{◌≡◌, ◌≤◌, ◌∷◌, List, Option, Some, false, option_map, IfErr, IfOk};
ghost use Rattle.mon_disk.specs.Disk.{Leaves, LeavesSince};
ghost use Rattle.mon_disk.specs.Keeper.{FindsBody, found_body};
ghost use Rattle.mon_saved.specs.Restored.{IsUnmarked};
ghost use Rattle.mon_station.specs.Opened.{setting_in};
ghost use Rattle.mon_station.specs.Saved.{IsBegun, IsFaultOfBody, IsRestoredFrom};
ghost use Rattle.mon_station.specs.State.{state_of};

use crate::fault::StationFault;
use crate::life::Life;
use crate::station::Station;
use mon_board::{Board, Watch};
use mon_config::Core;
use mon_disk::{Disk, Keeper};
use mon_exchange::Peers;
use mon_poller::Poller;
use mon_saved::{KeptImage, read_image};
use std::alloc::Global;

impl<D: Disk + Drop> Station<D> {
    ghost use Rattle.mon_disk.specs.Kept.{device_of, is_spoiled, last_body, last_generation};
    ghost use Rattle.mon_station.specs.Saved.{FindsRunning, FindsState, IsBeginning, IsCausedBy, IsFaultOfFile, IsFirstSaveFault, IsForItsBody, IsOpeningFault, IsSavedAs};
    ghost use Rattle.mon_board.specs.Instance.{instances_of};
    ghost use Rattle.mon_station.specs.Lived.{IsLived, IsOrigin, saved_states};
    ghost use Rattle.mon_station.specs.State.{State, setting_of};
    ghost use Rattle.mon_station.specs.Stops.{Happens, Opened, RunningLife, Unopened};
    ghost use Rattle.mon_station.specs.Taken.{Entry, Origin, Restart};

    /// Begins a life from what the disk holds: its windows, and the next incarnation, which is
    /// saved before the station is handed out.
    ///
    /// # Errors
    /// With the disk: `OutOfMemory`, a fault of the keeper, `Image` where the body that was found
    /// is no image of the watch's instances, and `NoMoreIncarnations`. The file may have been laid
    /// out, and it may hold the next incarnation.
    pub fn open(alloc: Global, core: Core, disk: D) -> Result<Self, (StationFault, D)>
        ensures setting { IfOk result (λ s. setting_of (state_of s.life) ≡ setting_in core) }
        // The life begins from the body that is found in what a read gives.
        ensures opened { D.is_honest disk → IfOk result (λ s. IsBegun (setting_in core)
            (found_body (D.seen disk)) (state_of s.life)) }
        // From then on a crash leaves a file in which an opening finds these windows and this
        // incarnation.
        ensures kept { D.is_honest disk → IfOk result (λ s. Leaves
            (D.may_leave (device_of s.keeper)) (FindsState (state_of s.life))) }
        // The keeper knows it as the last save.
        ensures last { D.is_honest disk → IfOk result (λ s. IsSavedAs (state_of s.life)
            (last_body s.keeper)) }
        // A lived history goes on, from where the body that is found was written.
        ensures lived { D.is_honest disk → IfOk result (λ s. (past : List (Entry × State))
            (origin : Origin) → IsLived past
            → IsOrigin (saved_states past) (found_body (D.seen disk))
            (instances_of core.watch.instances) origin → IsLived
            ((Restart origin (setting_in core), state_of s.life) ∷ past)) }
        // It is a step of the law of stops.
        ensures happens { D.is_honest disk → (life : Option RunningLife)
            → IfOk result (λ s. Happens D.Disk (Opened (setting_in core) (state_of s.life)) life
            disk (device_of s.keeper)) }
        ensures happens_err { D.is_honest disk → (life : Option RunningLife)
            → IfErr result (λ e. Happens D.Disk (Unopened (setting_in core)) life disk e.1) }
        // In the middle of it a crash leaves what was there, or the raised incarnation; and no
        // older one later.
        ensures beginning { D.is_honest disk → IfOk result (λ s. IsBeginning (setting_in core)
            D.Disk disk (device_of s.keeper)) }
        ensures beginning_err { D.is_honest disk → IfErr result
            (λ e. IsBeginning (setting_in core) D.Disk disk e.1) }
        // Each fault is one of an opening and has its cause.
        ensures fault { IfErr result (λ e. IsOpeningFault e.0) }
        ensures fault_of { D.is_honest disk → IfErr result (λ e. IsFaultOfFile core.watch
            (D.seen disk) e.0) }
        // Where it was refused for the body that was found, a crash leaves files in which that body
        // is found.
        ensures found_still { D.is_honest disk → IfErr result
            (λ e. IsForItsBody e.0 → Leaves (D.may_leave e.1)
            (FindsBody (found_body (D.seen disk)))) }
        ensures honest { IfOk result (λ s. D.is_honest disk → D.is_honest (device_of s.keeper)) }
        ensures honest_err { IfErr result (λ e. D.is_honest disk → D.is_honest e.1) }
        ensures count { IfOk result (λ s. D.faults disk ≤ D.faults (device_of s.keeper)) }
        ensures cause { IfErr result (λ e. IsCausedBy (D.faults disk) (D.faults e.1) e.0) }
        ensures fresh { IfOk result (λ s. is_spoiled s.keeper ≡ false) }
    {
        match Keeper::open(alloc, disk) {
            Ok((keeper, body)) => match begin(alloc, core, body) {
                Ok(life) => Self::settle(alloc, life, keeper),
                Err(fault) => Err((fault, keeper.into_disk())),
            },
            Err(error) => Err((StationFault::from(error.fault), error.disk)),
        }
    }

    /// A station of this life, which is saved first.
    fn settle(alloc: Global, life: Life, keeper: Keeper<D>) -> Result<Self, (StationFault, D)>
        requires fresh { is_spoiled keeper ≡ false }
        requires kept { D.is_honest (device_of keeper) → Leaves (D.may_leave (device_of keeper))
            (FindsBody (last_body keeper)) }
        ensures life { IfOk result (λ s. s.life ≡ life) }
        ensures kept { D.is_honest (device_of keeper) → IfOk result
            (λ s. Leaves (D.may_leave (device_of s.keeper)) (FindsState (state_of life))) }
        ensures last { D.is_honest (device_of keeper) → IfOk result
            (λ s. IsSavedAs (state_of life) (last_body s.keeper)) }
        ensures any_moment { D.is_honest (device_of keeper) → IfOk result
            (λ s. LeavesSince D.moment D.left_since (device_of keeper) (device_of s.keeper)
            (FindsRunning (D.may_leave (device_of keeper)) (state_of life))) }
        ensures any_moment_err { D.is_honest (device_of keeper)
            → IfErr result (λ e. LeavesSince D.moment D.left_since (device_of keeper) e.1
            (FindsRunning (D.may_leave (device_of keeper)) (state_of life))) }
        ensures fault { IfErr result (λ e. IsFirstSaveFault (last_generation keeper) e.0) }
        ensures honest { IfOk result (λ s. D.is_honest (device_of keeper)
            → D.is_honest (device_of s.keeper)) }
        ensures honest_err { IfErr result (λ e. D.is_honest (device_of keeper) → D.is_honest e.1) }
        ensures count { IfOk result (λ s. D.faults (device_of keeper)
            ≤ D.faults (device_of s.keeper)) }
        ensures cause { IfErr result (λ e. IsCausedBy (D.faults (device_of keeper)) (D.faults e.1)
            e.0) }
        ensures fresh { IfOk result (λ s. is_spoiled s.keeper ≡ false) }
    {
        let image = KeptImage::new(alloc);
        let mut station = Station {
            life,
            keeper,
            image,
        };
        match station.save(alloc) {
            Ok(_) => Ok(station),
            Err(fault) => Err((fault, station.keeper.into_disk())),
        }
    }
}

/// The life that begins from the body that was found.
fn begin(alloc: Global, core: Core, body: Option<Vec<u8>>) -> Result<Life, StationFault>
    ensures begun { IfOk result (λ l. IsBegun (setting_in core) (option_map (λ v. v.items) body)
        (state_of l)) }
    ensures fault { IfErr result (IsFaultOfBody core.watch (option_map (λ v. v.items) body)) }
{
    let parts = core.into_parts();
    let (board, incarnation) = restore(alloc, parts.watch, body)?;
    let poller = Poller::new(alloc, parts.targets)?;
    let peers = Peers::new(alloc, parts.station, parts.peers.as_slice())?;
    Ok(Life {
        board,
        poller,
        peers,
        incarnation,
        serial: 1,
    })
}

/// The board that a life begins with, and its incarnation.
fn restore(alloc: Global, watch: Watch, body: Option<Vec<u8>>) -> Result<(Board, u32), StationFault>
    ensures restored { IfOk result (λ r. IsRestoredFrom watch (option_map (λ v. v.items) body) r.0
        r.1) }
    ensures watch { IfOk result (λ r. r.0.watch ≡ watch) }
    ensures unmarked { IfOk result (λ r. IsUnmarked r.0) }
    ensures positive { IfOk result (λ r. 1 ≤ r.1) }
    ensures fault { IfErr result (IsFaultOfBody watch (option_map (λ v. v.items) body)) }
{
    match body {
        Some(octets) => restore_image(alloc, &watch, octets.as_slice()),
        None => Ok((Board::new(alloc, watch)?, 1)),
    }
}

/// The board of an image, and the incarnation after its own.
fn restore_image(alloc: Global, watch: &Watch, octets: &[u8]) -> Result<(Board, u32), StationFault>
    ensures restored { IfOk result (λ r. IsRestoredFrom watch.now (Some octets.now) r.0 r.1) }
    ensures positive { IfOk result (λ r. 1 ≤ r.1) }
    ensures fault { IfErr result (IsFaultOfBody watch.now (Some octets.now)) }
{
    match read_image(alloc, watch, octets) {
        Ok((board, found)) => {
            if found == u32::MAX {
                return Err(StationFault::NoMoreIncarnations);
            }
            Ok((board, found + 1))
        }
        Err(fault) => Err(StationFault::from(fault)),
    }
}
