//! The metrics of the instances.

ghost use Rattle.std.specs.Prelude.{◌≡◌};
ghost use Rattle.mon_formats.specs.Prometheus.{name_of, help_of, type_of};

use crate::prometheus::text::Kind;

/// A metric that has lines for each instance.
#[derive(Clone, Copy, Debug, PartialEq, Eq)]
pub(crate) enum Metric {
    /// The newest value of a counter.
    Counted,
    /// The newest value of what is no counter.
    Number,
    /// How many samples the window holds.
    Samples,
    /// What a counter counted a second.
    Rate,
    /// Says whether a rule's alarm is raised.
    Alarm,
    /// The speed of an interface.
    Speed,
}

impl Metric {
    /// The name, as Prometheus has it.
    pub(crate) fn name(self) -> &'static str
        ensures { result.now ≡ name_of self }
    {
        match self {
            Metric::Counted => "snmpmon_counted_total",
            Metric::Number => "snmpmon_number",
            Metric::Samples => "snmpmon_samples",
            Metric::Rate => "snmpmon_rate",
            Metric::Alarm => "snmpmon_alarm",
            Metric::Speed => "snmpmon_interface_speed_bits",
        }
    }

    /// What it is, and what to do with it.
    pub(crate) fn help(self) -> &'static str
        ensures { result.now ≡ help_of self }
    {
        match self {
            Metric::Counted =>
                "Newest value of a counter. Take rate() of it for other spans than the window of snmpmon_rate.",
            Metric::Number =>
                "Newest value of what may fall: an integer, a gauge or a time. Compare it as it is, without rate().",
            Metric::Samples =>
                "Samples that the window of an instance holds. A rate needs at least two.",
            Metric::Rate =>
                "What a counter counted a second over its window. Multiply a rate of octets by 8 for bits a second.",
            Metric::Alarm =>
                "1 where the alarm of a rule is raised: alert on it. Thresholds are in thousandths.",
            Metric::Speed =>
                "Speed of an interface in bits a second. Divide 8 * snmpmon_rate of octets by it for the part in use.",
        }
    }

    /// Its type.
    pub(crate) fn kind(self) -> Kind
        ensures { result ≡ type_of self }
    {
        match self {
            Metric::Counted => Kind::Counter,
            Metric::Number | Metric::Samples | Metric::Rate | Metric::Alarm | Metric::Speed =>
                Kind::Gauge,
        }
    }
}
