//! The settings K of the worked cases, those that the cases get from K, and settings with four kinds of train.
#![tactic(auto)]

ghost use Rattle.std.specs.Prelude.{◌≡◌};
ghost use Rattle.worked.specs.Worked.{like, K, mixed};

use settings::{Settings, Times};

// K with another earliest, rise rate, ahead or behind margin; every kind has the times of kind 1.
pub fn settings_like(earliest: u32, rise: u32, ahead: u32, behind: u32) -> Settings
    ensures { result ≡ like earliest rise ahead behind }
{
    let times = Times {
        earliest: earliest,
        latest: 4,
    };
    Settings {
        loaded: times,
        fall: 2880,
        rise: rise,
        worthwhile: 0,
        ahead: ahead,
        behind: behind,
        empty: times,
        engine: times,
        railcar: times,
    }
}

// K itself.
pub fn settings_k() -> Settings
    ensures { result ≡ K }
{
    settings_like(3, 5760, 3, 1)
}

// Four kinds with times of their own, those of kind 4 given: with 5 and 11 they are taken.
pub fn settings_mixed(railcar: Times) -> Settings
    ensures { result ≡ mixed railcar }
{
    Settings {
        loaded: Times {
            earliest: 6,
            latest: 9,
        },
        fall: 2880,
        rise: 5760,
        worthwhile: 0,
        ahead: 8,
        behind: 1,
        empty: Times {
            earliest: 3,
            latest: 4,
        },
        engine: Times {
            earliest: 4,
            latest: 6,
        },
        railcar: railcar,
    }
}
