//! The numbers of a drill.

ghost use Rattle.std.specs.Prelude.{◌≡◌, ◌<◌, ◌^◌};
ghost use Rattle.dp_drill.specs.Schedule.{drill_number, next};

/// The generator's state after this one.
#[tactic(auto, unfolding(crate::specs::Schedule::next))]
pub(crate) fn next(x: u64) -> u64
    ensures { result ≡ next x }
{
    x.wrapping_mul(6_364_136_223_846_793_005)
        .wrapping_add(1_442_695_040_888_963_407)
}

/// The number that it gives there, of 31 bits.
#[tactic(auto, unfolding(crate::specs::Schedule::drill_number))]
pub(crate) fn drill_number(x: u64) -> u64
    ensures value { result ≡ drill_number x }
    ensures small { result < 2 ^ 31 }
{
    x >> 33
}
