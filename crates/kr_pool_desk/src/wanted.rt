// How many rows are wanted.
ghost use Rattle.std.specs.Prelude.{◌≡◌, ◌+◌, Option, ℕ};
ghost use Rattle.kr_survey.specs.Takings.{is_past};
ghost use Rattle.kr_pool_desk.specs.Limits.{IsWanted};

/// How many rows are still wanted: all, so many, or none, since more than the limit were drained.
#[derive(Clone, Copy)]
pub enum Wanted {
    All,
    Left(u64),
    Past,
}

impl Wanted {
    /// Before any row was drained.
    #[tactic(auto, using(crate::proofs::Limits::wanted_first))]
    pub fn new(limit: Option<u64>) -> Wanted
        ensures { IsWanted limit 0 result }
    {
        match limit {
            None => Wanted::All,
            Some(most) => Wanted::Left(most),
        }
    }

    /// After so many rows more.
    #[tactic(auto, using(crate::proofs::Limits::wanted_less, crate::proofs::Limits::wanted_past, crate::proofs::Limits::past_more))]
    pub fn after(self, rows: u64) -> Wanted
        ensures { (limit : Option ℕ) → (d : ℕ) → IsWanted limit d self → IsWanted limit (d + rows) result }
    {
        match self {
            Wanted::All => Wanted::All,
            Wanted::Past => Wanted::Past,
            Wanted::Left(left) => {
                if left < rows {
                    Wanted::Past
                } else {
                    Wanted::Left(left - rows)
                }
            }
        }
    }

    /// Whether more rows than the limit were drained.
    #[tactic(auto, using(crate::proofs::Limits::not_past))]
    pub fn is_past(self) -> bool
        ensures { (limit : Option ℕ) → (d : ℕ) → IsWanted limit d self → result ≡ is_past limit d }
    {
        match self {
            Wanted::All => false,
            Wanted::Left(_) => false,
            Wanted::Past => true,
        }
    }
}
