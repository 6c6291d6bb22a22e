//! How many objects a target has at most.

ghost use Rattle.std.specs.Prelude.{◌≡◌, ◌≤◌, Err, IfErr, Ok, OnOk, length};
ghost use Rattle.mon_survey.specs.Meant.{few_targets};
ghost use Rattle.mon_survey.specs.Size.{half_of, objects_in, targets_for};

use crate::counter::Planned;
use crate::fault::SurveyFault;
use mon_poller::Target;

/// The maximum number of targets of a station.
const MAX_TARGETS: usize = 64;

/// How many objects a target of settings has at most. A poll asks for all of them at once.
#[derive(Clone, Copy, Debug, PartialEq, Eq)]
pub enum TargetSize {
    Sixteen,
    Eight,
    Four,
    Two,
    One,
}

impl TargetSize {
    /// Returns the number of objects.
    pub fn objects(self) -> usize
        ensures number { result ≡ objects_in self }
        ensures some { 1 ≤ result }
        ensures few { result ≤ 16 }
    {
        match self {
            TargetSize::Sixteen => 16,
            TargetSize::Eight => 8,
            TargetSize::Four => 4,
            TargetSize::Two => 2,
            TargetSize::One => 1,
        }
    }

    /// Returns the size of half as many objects. `None` after that of one object.
    pub fn half(self) -> Option<Self>
        ensures { result ≡ half_of self }
    {
        match self {
            TargetSize::Sixteen => Some(TargetSize::Eight),
            TargetSize::Eight => Some(TargetSize::Four),
            TargetSize::Four => Some(TargetSize::Two),
            TargetSize::Two => Some(TargetSize::One),
            TargetSize::One => None,
        }
    }
}

/// Returns how many targets some counters are: as few as the size allows.
pub(crate) fn targets_for(size: TargetSize, planned: &[Planned]) -> usize
    requires { length planned.now ≤ 256 }
    ensures number { result ≡ targets_for size planned.now }
    ensures few { result ≤ 256 }
{
    let count = planned.len();
    match size {
        TargetSize::Sixteen => (count + 15) / 16,
        TargetSize::Eight => (count + 7) / 8,
        TargetSize::Four => (count + 3) / 4,
        TargetSize::Two => (count + 1) / 2,
        TargetSize::One => count,
    }
}

/// Requires that there are at most 64 targets with those of some counters after these.
///
/// # Errors
/// `TooManyTargets` with the number of targets in all.
pub(crate) fn require_few_targets(
    size: TargetSize,
    before: &[Target],
    planned: &[Planned],
) -> Result<(), SurveyFault>
    requires { length planned.now ≤ 256 }
    ensures room { OnOk result (few_targets size (length before.now) planned.now ≡ Ok planned.now) }
    ensures fault { IfErr result (λ e. few_targets size (length before.now) planned.now ≡ Err e) }
{
    let targets = before.len() + targets_for(size, planned);
    if targets > MAX_TARGETS {
        return Err(SurveyFault::TooManyTargets(targets));
    }
    Ok(())
}
