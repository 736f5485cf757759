// A worker's place at a shared board.
ghost use Rattle.std.specs.Prelude.{◌≡◌, ◌<◌};

use crate::Crew;
use std::sync::ledger::Share;

/// A worker's seat. Its share counts the calls that it logged.
#[derive(Drop)]
pub struct Seat<N: Crew> {
    pub number: u32,
    pub calls: Share<N>,
    pub ghost one_part: { calls.parts ≡ 1 },
    pub ghost below: { number < N.workers },
}
