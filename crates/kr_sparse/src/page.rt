// The length of a page.
ghost use Rattle.std.specs.Prelude.{◌≡◌, ◌<◌};
ghost use Rattle.kr_sparse.specs.Pages.{page_len};

/// How many items a page has.
#[inline(always)]
#[tactic(auto, unfolding(crate::specs::Pages::page_len))]
pub(crate) fn page_len() -> usize
    ensures long { result ≡ page_len }
    ensures some { 0 < result }
    ensures few { result < 1024 }
{
    256
}
