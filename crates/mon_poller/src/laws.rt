//! Laws of the definitions. Each is a function that does nothing.

ghost use Rattle.std.specs.Prelude.{◌≡◌, ◌<◌, ℕ, List, All, Option, Ok};
ghost use Rattle.mon_pdu.specs.declared.message.Message.{Message};
ghost use Rattle.mon_udp.specs.declared.addr.Addr.{Addr};
ghost use Rattle.mon_poller.specs.declared.poller.Offered.{Offered};
ghost use Rattle.mon_poller.specs.declared.target.Target.{Target};
ghost use Rattle.mon_poller.specs.Polls.{Open};
ghost use Rattle.mon_poller.specs.Verdict.{ReadsAs, response_verdict};

/// What is offered is of instances that the targets ask for: where all their numbers are below n,
/// so is each that is offered.
pub fn offered()
    ensures { (n : ℕ) (targets : List Target) (polls : Open) (from : Addr) (read : Option Message)
        (offered : Offered)
        → All (λ t. All (λ o. o.instance < n) t.objects) targets
        → response_verdict targets polls from read ≡ Ok offered
        → All (λ pair. pair.0 < n) offered.pairs }
{}

/// A datagram reads in one way.
pub fn one_reading()
    ensures { (octets : List ℕ) (a b : Option Message) → ReadsAs octets a → ReadsAs octets b
        → a ≡ b }
{
    mon_pdu::laws::again();
}
