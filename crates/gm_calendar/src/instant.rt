// Instants, seen as their milliseconds since 1970-01-01T00:00:00Z.
ghost use Rattle.std.specs.Prelude.{◌≡◌, SomeIff};
ghost use Rattle.gm_calendar.specs.Instant.{IsInstant, instant_at};

use std::marker::Model;

/// The first millisecond of the year 0000.
pub const FIRST_MS: i64 = -62_167_219_200_000;

/// The last millisecond of the year 9999.
pub const LAST_MS: i64 = 253_402_300_799_999;

/// An instant of the years 0000 to 9999, in milliseconds since 1970-01-01T00:00:00Z.
#[derive(Clone, Copy, Debug, PartialEq, Eq, PartialOrd, Ord)]
pub struct Instant {
    pub ms: i64,
}

impl Model for Instant {
    ghost use Rattle.std.specs.Prelude.{ℤ};
    ghost use Rattle.gm_calendar.specs.Instant.{IsInstant};

    ghost Value = { ℤ };

    ghost view = { λ at. at.ms };

    ghost inverse = { λ ms. record { ms = ms } };

    ghost invariant = { λ at. IsInstant at.ms };
}

impl Instant {
    /// The instant that many milliseconds after 1970-01-01T00:00:00Z, and None outside the years
    /// 0000 to 9999.
    pub fn of(ms: i64) -> Option<Instant>
        ensures within { SomeIff result (IsInstant ms) ms }
        ensures value { result ≡ instant_at ms }
    {
        if ms < FIRST_MS || ms > LAST_MS {
            return None;
        }
        Some(Instant { ms })
    }

    /// The milliseconds since 1970-01-01T00:00:00Z.
    pub fn ms(self) -> i64
        ensures value { result ≡ self }
        ensures range { IsInstant self }
    {
        self.ms
    }
}
