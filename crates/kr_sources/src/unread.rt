// Why a source gives no tree or program.

use kr_base::{NoMemory, RefusalAt};

/// A source was refused, or memory was.
#[derive(Clone, Copy, Debug)]
pub enum Unread {
    Refused,
    NoMemory(NoMemory),
}

impl From<NoMemory> for Unread {
    fn from(why: NoMemory) -> Unread {
        Unread::NoMemory(why)
    }
}

impl<R: Copy> From<RefusalAt<R>> for Unread {
    fn from(refusal: RefusalAt<R>) -> Unread {
        match refusal {
            RefusalAt::Broken { .. } => Unread::Refused,
            RefusalAt::NoMemory(why) => Unread::NoMemory(why),
        }
    }
}
