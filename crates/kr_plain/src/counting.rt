// Candidates counted through, as the numbers of a counter.
ghost use Rattle.std.specs.Prelude.{◌≡◌};
ghost use Rattle.kr_mean.specs.Space.{IsVector};
ghost use Rattle.kr_plain.specs.Plain.{Follows};

use kr_step::Candidate;

/// Goes to the next candidate: the last slot that can take a greater index takes the next one, and those after it go back to 0.
/// False where there is none.
pub(crate) fn count_on<C: Candidate>(candidates: &mut C) -> bool
    requires { IsVector (C.space candidates.old) (C.vector candidates.old) }
    ensures space { C.space candidates.new ≡ C.space candidates.old }
    ensures order { C.order candidates.new ≡ C.order candidates.old }
    ensures ending { C.ending candidates.new ≡ C.ending candidates.old }
    ensures follows { Follows (C.space candidates.old) (C.vector candidates.old) result (C.vector candidates.new) }
{
    let mut slot = candidates.slots();
    while slot > 0 {
        slot -= 1;
        let size = candidates.size(slot);
        let index = candidates.index(slot);
        if index + 1 < size {
            candidates.set(slot, index + 1);
            return true;
        }
        candidates.set(slot, 0);
    }
    false
}
