// The next candidate after one that was found.
ghost use Rattle.std.specs.Prelude.{◌≡◌, ◌<◌, ◌-◌, List, ℕ, false, true, [], ◌∷◌, ◌++◌, length, slice_set, vec_len, vec_capacity};
ghost use Rattle.kr_step.specs.Steps.{IsStuck, Advanced};
ghost use Rattle.kr_step.specs.Turns.{Turned};
ghost use Rattle.kr_step.specs.Keeps.{Follows};
ghost use Rattle.kr_step.specs.Limits.{IsOpen, IsStep, Opens};
ghost use Rattle.kr_iso.specs.Choices.{AllowedPath, PathIn};

use crate::Candidate;
use kr_iso::{next_choice, reach};

/// Raises the index of the slot after a path, if there is a choice for it: then it joins the path. Otherwise it's set back to
/// 0.
#[inline(always)]
fn raise<C: Candidate>(
    candidates: &mut C,
    path: &mut Vec<(u32, u32)>,
    slot: u32,
    index: u32,
) -> bool
    requires stuck { (c : List ℕ) × IsStuck (C.space candidates.old) (C.order candidates.old) c (C.vector candidates.old) (path.old.items ++ (slot, index) ∷ []) }
    requires room { vec_len path.old < vec_capacity path.old }
    ensures space { C.space candidates.new ≡ C.space candidates.old }
    ensures order { C.order candidates.new ≡ C.order candidates.old }
    ensures ending { C.ending candidates.new ≡ C.ending candidates.old }
    ensures turned { (c : List ℕ) → IsStuck (C.space candidates.old) (C.order candidates.old) c (C.vector candidates.old) (path.old.items ++ (slot, index) ∷ []) →
        Turned (C.space candidates.old) (C.order candidates.old) c result (C.vector candidates.new) path.new.items }
    ensures kept { result ≡ false → path.new ≡ path.old }
    ensures front { result ≡ true → Follows path.old.items path.new.items }
{
    candidates.laws();
    let size = candidates.size(slot);
    prove!(index < size);
    match next_choice(&*candidates, path.as_slice(), slot, index + 1) {
        Some(next) => {
            candidates.set(slot, next);
            path.push((slot, next)).unwrap();
            return true;
        }
        None => {
            candidates.set(slot, 0);
            return false;
        }
    }
}

/// Goes back to the last index of the path that can be raised, raises it, and sets those after it to 0. False where there is
/// none. It takes no memory.
#[inline(always)]
fn go_back<C: Candidate>(candidates: &mut C, path: &mut Vec<(u32, u32)>) -> bool
    requires { (c : List ℕ) × IsStuck (C.space candidates.old) (C.order candidates.old) c (C.vector candidates.old) path.old.items }
    ensures space { C.space candidates.new ≡ C.space candidates.old }
    ensures order { C.order candidates.new ≡ C.order candidates.old }
    ensures ending { C.ending candidates.new ≡ C.ending candidates.old }
    ensures advanced { (c : List ℕ) → IsStuck (C.space candidates.old) (C.order candidates.old) c (C.vector candidates.old) path.old.items →
        Advanced (C.space candidates.old) (C.order candidates.old) c result (C.vector candidates.new) path.new.items }
    ensures front { result ≡ true → Follows path.old.items path.new.items }
{
    candidates.laws();
    while let Some((slot, index)) = path.pop() {
        if raise(candidates, path, slot, index) {
            return true;
        }
    }
    false
}

/// Up to which index all after one are known to be allowed after a path: up to a limit where the index is below it; otherwise it
/// is looked for.
#[inline(always)]
fn limit_above<C: Candidate>(
    candidates: &C,
    path: &[(u32, u32)],
    slot: u32,
    index: u32,
    limit: u32,
) -> u32
    requires path { PathIn (C.space candidates.now) path.now }
    requires allowed { AllowedPath (C.space candidates.now) [] path.now }
    requires slot { slot < (C.space candidates.now).slots }
    requires known { IsOpen (C.space candidates.now) path.now slot index limit }
    ensures { IsOpen (C.space candidates.now) path.now slot index result }
{
    if index < limit {
        return limit;
    }
    reach(candidates, path, slot, index)
}

/// The last slot of a path with the index after its own, where that is known to be allowed: up to a limit, which is looked for
/// where the index isn't below it.
#[inline(always)]
fn next_step<C: Candidate>(
    candidates: &C,
    path: &[(u32, u32)],
    limit: &mut u32,
) -> Option<(u32, u32)>
    requires path { PathIn (C.space candidates.now) path.now }
    requires allowed { AllowedPath (C.space candidates.now) [] path.now }
    requires opens { Opens (C.space candidates.now) path.now limit.old }
    ensures opens { Opens (C.space candidates.now) path.now limit.new }
    ensures next { IsStep path.now limit.new result }
{
    let count = path.len();
    if count == 0 {
        return None;
    }
    let last = count - 1;
    let (slot, index) = path[last];
    *limit = limit_above(candidates, &path[..last], slot, index, *limit);
    if index < *limit {
        Some((slot, index + 1))
    } else {
        None
    }
}

/// Replaces the last step of a path.
#[inline(always)]
fn replace_last(path: &mut Vec<(u32, u32)>, step: (u32, u32))
    requires { 0 < length path.old.items }
    ensures { path.new.items ≡ slice_set path.old.items (length path.old.items - 1) step }
{
    let steps = path.as_mut_slice();
    let last = steps.len() - 1;
    steps[last] = step;
}

/// Raises the last index of a path in place, where the next one is known to be allowed.
#[inline(always)]
fn step_on<C: Candidate>(candidates: &mut C, path: &mut Vec<(u32, u32)>, limit: &mut u32) -> bool
    requires stuck { (c : List ℕ) × IsStuck (C.space candidates.old) (C.order candidates.old) c (C.vector candidates.old) path.old.items }
    requires opens { Opens (C.space candidates.old) path.old.items limit.old }
    ensures space { C.space candidates.new ≡ C.space candidates.old }
    ensures order { C.order candidates.new ≡ C.order candidates.old }
    ensures ending { C.ending candidates.new ≡ C.ending candidates.old }
    ensures opens { Opens (C.space candidates.old) path.new.items limit.new }
    ensures stepped { (c : List ℕ) → IsStuck (C.space candidates.old) (C.order candidates.old) c (C.vector candidates.old) path.old.items →
        Turned (C.space candidates.old) (C.order candidates.old) c result (C.vector candidates.new) path.new.items }
    ensures kept { result ≡ false → path.new ≡ path.old }
    ensures front { result ≡ true → Follows path.old.items path.new.items }
{
    candidates.laws();
    match next_step(&*candidates, path.as_slice(), limit) {
        None => false,
        Some((slot, index)) => {
            candidates.set(slot, index);
            replace_last(path, (slot, index));
            true
        }
    }
}

/// Goes to the next candidate above the cut: raises the last index of the path that can be raised, and sets those after it back
/// to 0. All indices of the last slot of the path up to a limit are known to be allowed. False where there is none. It takes no
/// memory.
#[inline(always)]
pub(crate) fn advance<C: Candidate>(
    candidates: &mut C,
    path: &mut Vec<(u32, u32)>,
    limit: &mut u32,
) -> bool
    requires stuck { (c : List ℕ) × IsStuck (C.space candidates.old) (C.order candidates.old) c (C.vector candidates.old) path.old.items }
    requires opens { Opens (C.space candidates.old) path.old.items limit.old }
    ensures space { C.space candidates.new ≡ C.space candidates.old }
    ensures order { C.order candidates.new ≡ C.order candidates.old }
    ensures ending { C.ending candidates.new ≡ C.ending candidates.old }
    ensures opens { Opens (C.space candidates.old) path.new.items limit.new }
    ensures advanced { (c : List ℕ) → IsStuck (C.space candidates.old) (C.order candidates.old) c (C.vector candidates.old) path.old.items →
        Advanced (C.space candidates.old) (C.order candidates.old) c result (C.vector candidates.new) path.new.items }
    ensures front { result ≡ true → Follows path.old.items path.new.items }
{
    if step_on(candidates, path, limit) {
        return true;
    }
    *limit = 0;
    go_back(candidates, path)
}
