// How far one worker serves a call.

use kr_args::forms::Search;

/// How far one worker serves a call.
#[derive(Drop)]
pub enum Alone {
    /// It ended with this status.
    Ended(u8),
    /// Several workers, or a log of their steps, are asked for: nothing was read or written.
    Shared(Search),
}
