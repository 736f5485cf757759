// A counter of a ledger of one part.
ghost use Rattle.std.specs.Prelude.{◌≡◌, ◌<◌};

use kr_base::Steps;
use std::marker::Brand;
use std::sync::ledger::{Blank, Ledger};

fn two<L: Ledger>(blank: Blank)
    requires ledger { blank.name ≡ L.name }
    requires parts { blank.parts ≡ L.parts }
    requires some { 0 < L.parts }
{
    let mut steps = Steps::<L>::start(blank);
    steps.tick();
    steps.tick();
}

#[test]
fn ticks() {
    two::<Brand>(Blank::new(1));
}
