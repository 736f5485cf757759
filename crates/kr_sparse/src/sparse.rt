// A list most of whose items are one and the same.
ghost use Rattle.std.specs.Prelude.{◌≡◌, ◌<◌, ◌++◌, ◌∷◌, [], true, All, Some, IfOk, OnOk, length, slice_get};
ghost use Rattle.kr_sparse.specs.Pages.{IsFull, page_items, page_len};

use crate::page::page_len;
use kr_base::NoMemory;
use std::alloc::Global;
use std::marker::Model;

/// A list in pages, of which those without another item than the usual one take no room. Contracts see the list of the items.
#[derive(Drop)]
pub struct Sparse<T> {
    alloc: Global,
    usual: T,
    count: usize,
    /// the full pages; none for one of the usual item alone
    pages: Vec<Option<Vec<T>>>,
    /// the items after the full pages
    rest: Vec<T>,
    /// whether these are all the usual one
    is_usual: bool,
}

impl<T> Model for Sparse<T> {
    ghost use Rattle.kr_sparse.specs.Pages.{IsSparse, Mostly, all_items};

    ghost Value = { Mostly T };

    ghost view = { λ l. record { usual = l.usual; items = all_items l.usual l.pages.items l.rest.items } };

    ghost invariant = { λ l. IsSparse l.usual l.count l.pages.items l.rest.items l.is_usual };
}

/// A full page: nothing, where all of its items are the usual one.
fn full_page<T: Copy>(
    alloc: Global,
    items: &[T],
    is_usual: bool,
) -> Result<Option<Vec<T>>, NoMemory>
    requires { length items.now ≡ page_len }
    ensures full { IfOk result (λ page. IsFull page) }
    ensures items { IfOk result (λ page. (usual : T) → (is_usual ≡ true → All (λ x. x ≡ usual) items.now) → page_items usual page ≡ items.now) }
{
    if is_usual {
        return Ok(None);
    }
    let page = Vec::from_slice(alloc, items)?;
    Ok(Some(page))
}

impl<T: Copy> Sparse<T> {
    /// Allocates nothing.
    pub fn new(alloc: Global, usual: T) -> Self
        ensures { result ≡ record { usual = usual; items = [] } }
    {
        Sparse {
            alloc,
            usual,
            count: 0,
            pages: Vec::new(alloc),
            rest: Vec::new(alloc),
            is_usual: true,
        }
    }

    /// How many items there are.
    #[inline(always)]
    pub fn len(&self) -> usize
        ensures { result ≡ length self.now.items }
    {
        self.count
    }

    /// The item at an index.
    #[inline(always)]
    pub fn at(&self, index: usize) -> T
        requires { index < length self.now.items }
        ensures { slice_get self.now.items index ≡ Some result }
    {
        let page = index / page_len();
        let within = index % page_len();
        if page >= self.pages.len() {
            return self.rest[index - self.pages.len() * page_len()];
        }
        match &self.pages[page] {
            None => self.usual,
            Some(items) => items[within],
        }
    }

    /// Makes a full page of the items after the full pages, if these are as many.
    fn end_page(&mut self) -> Result<(), NoMemory>
        ensures { self.new ≡ self.old }
    {
        if self.rest.len() != page_len() {
            return Ok(());
        }
        let page = full_page(self.alloc, &self.rest, self.is_usual)?;
        self.pages.push(page)?;
        self.rest.clear();
        self.is_usual = true;
        Ok(())
    }

    /// Adds an item, which may be the usual one. Fails when out of memory, or at 2^32 - 1 items.
    #[inline(always)]
    pub fn push(&mut self, item: T, is_usual: bool) -> Result<(), NoMemory>
        requires { is_usual ≡ true → item ≡ self.old.usual }
        ensures pushed { OnOk result (self.new.items ≡ self.old.items ++ item ∷ []) }
        ensures usual { self.new.usual ≡ self.old.usual }
    {
        if self.count >= 0xffff_ffff {
            return Err(NoMemory::at_sum(self.count as u64, 1));
        }
        self.rest.reserve(1)?;
        self.rest.push_reserved(item);
        self.count += 1;
        self.is_usual = self.is_usual && is_usual;
        if self.rest.len() >= page_len() {
            self.end_page()?;
        }
        Ok(())
    }
}
