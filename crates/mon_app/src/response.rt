//! A response, lent from the message that it came in.

ghost use Rattle.std.specs.Prelude.{◌≡◌};

use mon_pdu::Binding;
use mon_poller::Stamp;
use mon_sample::Sample;

/// A response of an agent: its stamp, and the variable bindings after it.
#[derive(Drop)]
pub(crate) struct Response<'a> {
    pub(crate) stamp: Stamp<'a>,
    pub(crate) bindings: &'a [Binding],
}

impl Response<'_> {
    ghost use Rattle.std.specs.Prelude.{option_map};
    ghost use Rattle.mon_app.specs.Reading.{offer_in};
    ghost use Rattle.mon_app.specs.Response.{stamp_in, offered_by};

    /// Returns the sample that a variable binding of the response brings, if its value is of a
    /// sampled kind.
    pub(crate) fn sample(&self, binding: &Binding) -> Option<Sample>
        ensures { option_map (λ s. offered_by self.now binding.now.name s) result
            ≡ offer_in (stamp_in self.now) binding.now }
    {
        self.stamp.sample(&binding.value, Some(0))
    }
}
