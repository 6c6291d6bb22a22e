ghost use Rattle.std.specs.Prelude.{◌≡◌, ◌<◌, ◌^◌, ◌*◌, ◌↔◌, IfSome, IsSome};
ghost use Rattle.mon_mib.specs.Moment.{IsMoment, up_time, engine_time};

use std::marker::Model;

/// A time in the life of an agent: hundredths of a second since its start, below 214748364800, so
/// that the whole seconds are a snmpEngineTime (RFC 3411 section 5). Contracts see the number.
#[derive(Clone, Copy, Debug, PartialEq, Eq)]
pub struct Moment {
    hundredths: u64,
}

impl Model for Moment {
    ghost use Rattle.std.specs.Prelude.{ℕ};
    ghost use Rattle.mon_mib.specs.Moment.{IsMoment};

    ghost Value = { ℕ };

    ghost view = { λ m. m.hundredths };

    ghost invariant = { λ m. IsMoment m.hundredths };

    ghost inverse = { λ n. record { hundredths = n } };
}

impl Moment {
    /// The first number of hundredths of a second that is too great: 2^31 seconds.
    const END: u64 = 214_748_364_800;

    /// Returns the time this many hundredths of a second after the start, or `None` if they are
    /// 2^31 seconds or more.
    pub fn new(hundredths: u64) -> Option<Moment>
        ensures value { IfSome result (λ moment. moment ≡ hundredths) }
        ensures exact { IsSome result ↔ IsMoment hundredths }
    {
        if hundredths < Self::END {
            Some(Moment { hundredths })
        } else {
            None
        }
    }

    /// Hundredths of a second since the start.
    pub fn hundredths(self) -> u64
        ensures value { result ≡ self }
        ensures range { IsMoment self }
    {
        self.hundredths
    }

    /// sysUpTime: the hundredths of a second modulo 2^32 (RFC 3418 section 2).
    pub fn sys_up_time(self) -> u32
        ensures { result ≡ up_time self }
    {
        (self.hundredths % (1 << 32)) as u32
    }

    /// snmpEngineTime: whole seconds since the start, below 2^31 (RFC 3411 section 5).
    pub fn engine_time(self) -> u32
        ensures value { result ≡ engine_time self }
        ensures range { result < 2 ^ 31 }
    {
        (self.hundredths / 100) as u32
    }
}
