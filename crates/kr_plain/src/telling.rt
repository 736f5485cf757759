// Reports of valid candidates.
ghost use Rattle.std.specs.Prelude.{◌≡◌, ◌<◌, ◌^◌, List, ℕ, IfOk, length};
ghost use Rattle.kr_mean.specs.Entries.{structure_of};
ghost use Rattle.kr_mean.specs.Problem.{slots};
ghost use Rattle.kr_mean.specs.Space.{IsVector, Space, space_of};
ghost use Rattle.kr_mean.specs.WellFormed.{IsWellFormed};
ghost use Rattle.kr_space_layout.specs.Bounds.{bare};

use kr_base::NoMemory;
use kr_build::{Walk, fill_structure};
use kr_mean::Structure;
use kr_space_layout::Layout;
use kr_step::Candidate;
use std::alloc::Global;

/// The report in a valid candidate's entry beside its key.
pub(crate) trait Telling {
    type Told: Drop;

    /// That it can report on the candidates of a space.
    ghost fits: { Self → Space → Type 0 };

    /// The report of a vector.
    ghost told: { Self → List ℕ → Self.Told };

    fn tell<C: Candidate>(&self, alloc: Global, candidates: &C) -> Result<Self::Told, NoMemory>
        requires fits { fits self.now (C.space candidates.now) }
        requires vector { IsVector (C.space candidates.now) (C.vector candidates.now) }
        ensures { IfOk result (λ value. value ≡ told self.now (C.vector candidates.now)) };
}

/// Nothing.
#[derive(Drop)]
pub(crate) struct Nothing {
    pub(crate) alloc: Global,
}

impl Telling for Nothing {
    type Told = ();

    ghost fits = { λ s space. Unit {0} };

    ghost told = { λ s v. tt };

    fn tell<C: Candidate>(&self, alloc: Global, candidates: &C) -> Result<(), NoMemory> {
        let _ = alloc;
        let _ = candidates;
        Ok(())
    }
}

/// Structures, of candidates that are laid out so.
#[derive(Drop)]
pub(crate) struct Structures<'l> {
    pub(crate) layout: &'l Layout,
}

impl<'l> Telling for Structures<'l> {
    ghost use Rattle.std.specs.Prelude.{◌≡◌, ◌<◌, ◌^◌, length};
    ghost use Rattle.kr_mean.specs.Entries.{structure_of};
    ghost use Rattle.kr_mean.specs.Problem.{slots};
    ghost use Rattle.kr_mean.specs.Space.{space_of};
    ghost use Rattle.kr_mean.specs.WellFormed.{IsWellFormed};
    ghost use Rattle.kr_space_layout.specs.Bounds.{bare};

    type Told = Structure;

    ghost fits = { λ s space. (space ≡ space_of (bare s.layout.now)) × IsWellFormed (bare s.layout.now) × (length (slots (bare s.layout.now)) < 2 ^ 31) };

    ghost told = { λ s v. structure_of (bare s.layout.now) v };

    fn tell<C: Candidate>(&self, alloc: Global, candidates: &C) -> Result<Structure, NoMemory> {
        let mut walk = Walk::new(alloc);
        let mut structure = Structure::empty(alloc);
        fill_structure(self.layout, &mut walk, candidates.current(), &mut structure)?;
        Ok(structure)
    }
}
