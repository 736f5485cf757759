// The frames that wait, the innermost one on top.
ghost use Rattle.std.specs.Prelude.{◌≡◌, ◌==◌, ◌≤◌, ◌∷◌, [], drop, length, take, IfOk, OnOk, MatchOption};
ghost use Rattle.kr_run_frames.specs.Copies.{GoOnAlike};
ghost use Rattle.kr_run_frames.specs.Frame as frames;
ghost use Rattle.kr_run_frames.specs.Kept.{HasNoList, IsOnTop, frame_of, locals_from, locals_on, values_from, values_on};

use crate::room::{behind, extend, lay, replace, replace_front};
use crate::{Goal, Up, Waiting};
use kr_base::NoMemory;
use kr_code::Nodes;
use kr_run_state::Local;
use kr_value::Value;
use std::alloc::Global;
use std::marker::Model;

/// The frames for which a stack always keeps room.
const ROOM: usize = 1 << 16;

/// A stack of frames. Contracts see the list of them, the top one first. After those there is room for others, and the values
/// and the locals of all of them lie one after another.
#[derive(Drop)]
pub struct Stack {
    frames: Vec<Waiting>,
    top: usize,
    values: Vec<Value>,
    locals: Vec<Local>,
}

impl Model for Stack {
    ghost use Rattle.std.specs.Prelude.{List, ◌≤◌, length, reverse, take};
    ghost use Rattle.kr_run_frames.specs.Frame.{Frame};
    ghost use Rattle.kr_run_frames.specs.Kept.{unpacked};

    ghost Value = { List Frame };

    ghost view = { λ s. unpacked (reverse (take s.top s.frames.items)) s.values.items s.locals.items };

    ghost invariant = { λ s. s.top ≤ length s.frames.items };
}

/// Where the values of a frame begin, among so many.
fn values_start(frame: &Waiting, count: usize) -> usize
    ensures { result ≡ values_from frame.now count }
{
    match frame {
        Waiting::Arguments(_, _, start) => *start as usize,
        Waiting::UpArguments(_, _, start) => *start as usize,
        Waiting::Construct(_, _, start) => *start as usize,
        _ => count,
    }
}

/// Where the locals of a frame begin, among so many.
fn locals_start(frame: &Waiting, count: usize) -> usize
    ensures { result ≡ locals_from frame.now count }
{
    match frame {
        Waiting::Leave(_, _, start) => *start as usize,
        Waiting::Back(_, start) => *start as usize,
        _ => count,
    }
}

/// The lists of a frame that goes end.
#[inline(always)]
fn cut(frame: &Waiting, values: &mut Vec<Value>, locals: &mut Vec<Local>)
    ensures values { values.new.items ≡ take (values_from frame.now (length values.old.items)) values.old.items }
    ensures locals { locals.new.items ≡ take (locals_from frame.now (length locals.old.items)) locals.old.items }
{
    match frame {
        Waiting::Arguments(_, _, start) => values.truncate(*start as usize),
        Waiting::UpArguments(_, _, start) => values.truncate(*start as usize),
        Waiting::Construct(_, _, start) => values.truncate(*start as usize),
        Waiting::Leave(_, _, start) => locals.truncate(*start as usize),
        Waiting::Back(_, start) => locals.truncate(*start as usize),
        Waiting::Value(_) => {}
        Waiting::Test(_) => {}
        Waiting::Flow(_) => {}
        Waiting::Unit(_) => {}
        Waiting::UpEnter(_, _) => {}
        Waiting::Scope(_) => {}
        Waiting::Catch(_) => {}
        Waiting::Complete => {}
        Waiting::Made(_) => {}
        Waiting::Store(_, _) => {}
    }
}

/// The length of a list as a frame keeps it. The error says that there are 2^32 of something.
#[inline(always)]
fn small<T>(items: &[T]) -> Result<u32, NoMemory>
    ensures { IfOk result (λ kept. kept ≡ length items.now) }
{
    let count = items.len();
    if count > 0xffff_ffff {
        return Err(NoMemory::at_limit(items));
    }
    Ok(count as u32)
}

impl Stack {
    /// No frames. It takes no memory.
    pub fn new(alloc: Global) -> Self
        ensures { result ≡ [] }
    {
        Stack {
            frames: Vec::new(alloc),
            top: 0,
            values: Vec::new(alloc),
            locals: Vec::new(alloc),
        }
    }

    /// No frames; the room stays.
    pub fn clear(&mut self)
        ensures { self.new ≡ [] }
    {
        self.top = 0;
        self.values.clear();
        self.locals.clear();
    }

    /// Gives back the room of a deep run; small room stays.
    #[tactic(auto, using(crate::proofs::Stacks::released))]
    pub fn release(&mut self)
        ensures { self.new ≡ self.old }
    {
        if self.frames.len() <= ROOM {
            return;
        }
        self.frames.truncate(self.top);
        self.frames.shrink_to(ROOM);
        self.values.shrink_to(ROOM);
        self.locals.shrink_to(ROOM);
    }

    /// Another stack's frames in place of these, in the room that is there.
    #[tactic(auto, using(crate::proofs::Stacks::same_frames, crate::proofs::Stacks::go_on_alike))]
    pub fn copy_from(&mut self, _alloc: Global, other: &Stack) -> Result<(), NoMemory>
        ensures same { OnOk result (self.new ≡ other.now) }
        ensures alike { OnOk result (GoOnAlike other.now self.new) }
    {
        self.top = 0;
        replace_front(&mut self.frames, &other.frames.as_slice()[..other.top])?;
        replace(&mut self.values, other.values.as_slice())?;
        replace(&mut self.locals, other.locals.as_slice())?;
        self.top = other.top;
        Ok(())
    }

    /// How many frames there are.
    #[tactic(auto, using(crate::proofs::Stacks::how_many))]
    pub fn len(&self) -> usize
        ensures { result ≡ length self.now }
    {
        self.top
    }

    /// The topmost frame, if there is one.
    #[tactic(auto, using(crate::proofs::Stacks::is_on_top))]
    #[inline(always)]
    pub fn top(&self) -> Option<&Waiting>
        ensures { MatchOption result (self.now ≡ []) (λ frame. IsOnTop frame.now self.now) }
    {
        if self.top == 0 {
            return None;
        }
        Some(&self.frames[self.top - 1])
    }

    /// The frame below so many, if there is one.
    #[tactic(auto, using(crate::proofs::Stacks::frame_there, crate::proofs::Stacks::none_there))]
    #[inline(always)]
    pub fn frame_at(&self, depth: usize) -> Option<&Waiting>
        ensures { MatchOption result (length self.now ≤ depth) (λ frame. IsOnTop frame.now (drop depth self.now)) }
    {
        if depth < self.top {
            return Some(&self.frames[self.top - 1 - depth]);
        }
        None
    }

    /// The topmost frame goes, if there is one.
    #[inline(always)]
    pub fn drop_top(&mut self)
        ensures { self.new ≡ drop 1 self.old }
    {
        if self.top == 0 {
            return;
        }
        let top = self.top - 1;
        cut(&self.frames[top], &mut self.values, &mut self.locals);
        self.top = top;
    }

    /// The topmost frame goes, if there is one: one whose lists are empty.
    #[inline(always)]
    #[tactic(auto, using(crate::proofs::Stacks::plainly))]
    pub fn drop_plain(&mut self)
        requires values { values_on self.old ≡ [] }
        requires locals { locals_on self.old ≡ [] }
        ensures { self.new ≡ drop 1 self.old }
    {
        if self.top == 0 {
            return;
        }
        self.top = self.top - 1;
    }

    /// The topmost frame goes, if there is one, and the values that it has come in place of these.
    #[tactic(auto, using(crate::proofs::Stacks::values_there))]
    pub fn take_values(&mut self, into: &mut Vec<Value>) -> Result<(), NoMemory>
        ensures rest { OnOk result (self.new ≡ drop 1 self.old) }
        ensures values { OnOk result (into.new.items ≡ values_on self.old) }
    {
        if self.top == 0 {
            into.clear();
            return Ok(());
        }
        let top = self.top - 1;
        let start = values_start(&self.frames[top], self.values.len());
        replace(into, behind(self.values.as_slice(), start))?;
        cut(&self.frames[top], &mut self.values, &mut self.locals);
        self.top = top;
        Ok(())
    }

    /// The topmost frame goes, if there is one, and the locals that it has come in place of these.
    #[tactic(auto, using(crate::proofs::Stacks::locals_there))]
    pub fn take_locals(&mut self, into: &mut Vec<Local>) -> Result<(), NoMemory>
        ensures rest { OnOk result (self.new ≡ drop 1 self.old) }
        ensures locals { OnOk result (into.new.items ≡ locals_on self.old) }
    {
        if self.top == 0 {
            into.clear();
            return Ok(());
        }
        let top = self.top - 1;
        let start = locals_start(&self.frames[top], self.locals.len());
        replace(into, behind(self.locals.as_slice(), start))?;
        cut(&self.frames[top], &mut self.values, &mut self.locals);
        self.top = top;
        Ok(())
    }

    /// A frame without lists.
    #[tactic(auto, using(crate::proofs::Stacks::pushed))]
    #[inline(always)]
    pub fn push(&mut self, frame: Waiting) -> Result<(), NoMemory>
        requires { HasNoList frame }
        ensures { OnOk result (self.new ≡ frame_of frame [] [] ∷ self.old) }
    {
        self.top = lay(&mut self.frames, self.top, frame)?;
        Ok(())
    }

    /// Enters a block, with these locals.
    #[inline(always)]
    pub fn push_scope(&mut self, locals: &[Local]) -> Result<(), NoMemory>
        ensures { OnOk result (self.new ≡ frames.Scope (length locals.now) ∷ self.old) }
    {
        let count = small(locals)?;
        self.push(Waiting::Scope(count))
    }

    /// Arguments are awaited, after these.
    #[tactic(auto, using(crate::proofs::Stacks::pushed_arguments))]
    pub fn push_arguments(
        &mut self,
        goal: Goal,
        nodes: Nodes,
        found: &[Value],
    ) -> Result<(), NoMemory>
        ensures { OnOk result (self.new ≡ frames.Arguments goal nodes found.now ∷ self.old) }
    {
        let start = small(self.values.as_slice())?;
        extend(&mut self.values, found)?;
        self.top = lay(
            &mut self.frames,
            self.top,
            Waiting::Arguments(goal, nodes, start),
        )?;
        Ok(())
    }

    /// Arguments of a superclass's constructor are awaited, after these.
    #[tactic(auto, using(crate::proofs::Stacks::pushed_up_arguments))]
    pub fn push_up_arguments(
        &mut self,
        up: Up,
        nodes: Nodes,
        found: &[Value],
    ) -> Result<(), NoMemory>
        ensures { OnOk result (self.new ≡ frames.UpArguments up nodes found.now ∷ self.old) }
    {
        let start = small(self.values.as_slice())?;
        extend(&mut self.values, found)?;
        self.top = lay(
            &mut self.frames,
            self.top,
            Waiting::UpArguments(up, nodes, start),
        )?;
        Ok(())
    }

    /// The constructors of a line of classes come, on an object, with these arguments.
    #[tactic(auto, using(crate::proofs::Stacks::pushed_construct))]
    pub fn push_construct(
        &mut self,
        line: Nodes,
        object: Value,
        arguments: &[Value],
    ) -> Result<(), NoMemory>
        ensures { OnOk result (self.new ≡ frames.Construct line object arguments.now ∷ self.old) }
    {
        let start = small(self.values.as_slice())?;
        extend(&mut self.values, arguments)?;
        self.top = lay(
            &mut self.frames,
            self.top,
            Waiting::Construct(line, object, start),
        )?;
        Ok(())
    }

    /// A method's body is entered, by a caller with these locals.
    #[tactic(auto, using(crate::proofs::Stacks::pushed_leave))]
    pub fn push_leave(
        &mut self,
        is_void: bool,
        this: Value,
        locals: &[Local],
    ) -> Result<(), NoMemory>
        ensures { OnOk result (self.new ≡ frames.Leave is_void this locals.now ∷ self.old) }
    {
        let start = small(self.locals.as_slice())?;
        extend(&mut self.locals, locals)?;
        self.top = lay(
            &mut self.frames,
            self.top,
            Waiting::Leave(is_void, this, start),
        )?;
        Ok(())
    }

    /// Something is done on a new object, and these are the locals from before.
    #[tactic(auto, using(crate::proofs::Stacks::pushed_back))]
    pub fn push_back(&mut self, this: Value, locals: &[Local]) -> Result<(), NoMemory>
        ensures { OnOk result (self.new ≡ frames.Back this locals.now ∷ self.old) }
    {
        let start = small(self.locals.as_slice())?;
        extend(&mut self.locals, locals)?;
        self.top = lay(&mut self.frames, self.top, Waiting::Back(this, start))?;
        Ok(())
    }
}
