//! A counter of steps.

ghost use Rattle.std.specs.Prelude.{◌≡◌, ◌<◌};

use dp_steps::Steps;
use std::marker::Brand;
use std::sync::ledger::{Blank, Ledger};

/// Takes a counter at three.
fn is_three<L: Ledger>(_steps: &Steps<L>)
    requires { _steps.now ≡ 3 }
{}

/// Counts to three over a ledger.
fn count_to_three<L: Ledger>(blank: Blank)
    requires name { blank.name ≡ L.name }
    requires parts { blank.parts ≡ L.parts }
    requires some { 0 < blank.parts }
{
    let mut steps = Steps::<L>::new(blank);
    steps.tick();
    steps.tick();
    steps.tick();
    is_three(&steps);
}

#[test]
fn a_counter_counts(_rt: HostRuntime) {
    count_to_three::<Brand>(Blank::new(1));
}
