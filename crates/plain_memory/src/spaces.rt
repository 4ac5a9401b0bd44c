ghost use Rattle.std.specs.Prelude.{◌≡◌, ◌+◌, ◌<◌, ◌≤◌, ◌^◌, IfOk, length, not};
ghost use Rattle.std.specs.List.{list_all, range_with_len};
ghost use Rattle.posix_defs.specs.Memory.{no_memory, is_mapped, is_mapped_range, lowest_run, with_pages, without_pages, byte_at, loaded, with_byte, stored, is_free_run};
ghost use Rattle.posix_defs.specs.Needs.{pages_touched};

use crate::pages::{PAGE, Page};
use kabi_types::Memory;
use std::alloc::Global;
use std::marker::Model;

/// How many pages an address space has.
const PAGES: usize = 256;

/// What a process has in memory. Contracts see the bytes of each page by its number, and nothing for a page that isn't mapped.
#[derive(Drop)]
pub struct Space {
    pages: Vec<Option<Page>>,
}

impl Model for Space {
    ghost use Rattle.std.specs.Prelude.{◌≡◌, ℕ, List, Option, length};

    ghost Value = { List (Option (List ℕ)) };

    ghost view = { λ space. space.pages.items };

    ghost invariant = { λ space. length space.pages.items ≡ 256 };
}

impl Space {
    /// No page is mapped.
    pub fn new(alloc: Global) -> Result<Space, Memory>
        ensures { IfOk result (λ space. space ≡ no_memory) }
    {
        let mut pages = Vec::new(alloc);
        for _ in 0..PAGES {
            pages.push(None)?;
        }
        Ok(Space { pages })
    }

    /// The same bytes in the same pages.
    pub fn copy(&self, alloc: Global) -> Result<Space, Memory>
        ensures { IfOk result (λ space. space ≡ self.now) }
    {
        let mut pages = Vec::new(alloc);
        for page in &self.pages {
            pages.push(copied(alloc, page)?)?;
        }
        Ok(Space { pages })
    }

    /// Whether a page is mapped; behind the last one none is.
    pub fn is_mapped(&self, page: u32) -> bool
        ensures { result ≡ is_mapped self.now page }
    {
        matches!(self.pages.get(page as usize), Some(Some(_)))
    }

    /// Whether each page is mapped that the n bytes from an address on touch.
    pub fn is_mapped_range(&self, addr: u32, n: u32) -> bool
        requires { addr + n < 2 ^ 32 }
        ensures { result ≡ is_mapped_range self.now addr n }
    {
        let first = addr / 4096;
        let end = first
            + if n == 0 {
                0
            } else {
                (addr + n - 1) / 4096 - first + 1
            };
        (first..end).all(|page| self.is_mapped(page))
    }

    // Whether none of so many pages from this one on is mapped.
    fn are_unmapped(&self, first: u32, count: u32) -> bool
        requires { first + count < 2 ^ 32 }
        ensures { result ≡ list_all (λ page. not (is_mapped self.now page)) (range_with_len first count) }
    {
        (first..first + count).all(|page| !self.is_mapped(page))
    }

    // Whether so many pages from this one on lie in the address space and none is mapped.
    fn is_free_run(&self, count: u64, first: u32) -> bool
        requires within { first < 256 }
        requires small { count < 2 ^ 63 }
        ensures { result ≡ is_free_run (is_mapped self.now) count first }
    {
        u64::from(first) + count <= 256 && self.are_unmapped(first, count as u32)
    }

    /// The first page of the lowest run of so many pages that aren't mapped. Page 0 is in none.
    #[tactic(auto, unfolding(posix_defs::specs::Memory::lowest_free_run))]
    pub fn lowest_run(&self, count: u64) -> Option<u32>
        requires { count < 2 ^ 63 }
        ensures { result ≡ lowest_run self.now count }
    {
        (1..256).find(|first| self.is_free_run(count, *first))
    }

    /// Maps so many pages from this one on, each with zeros.
    pub fn map(&mut self, alloc: Global, first: u32, count: u32) -> Result<(), Memory>
        requires { first + count ≤ 256 }
        ensures { IfOk result (λ _. self.new ≡ with_pages self.old first count) }
    {
        for page in first..first + count {
            self.pages[page as usize] = Some(Page::zero(alloc)?);
        }
        Ok(())
    }

    /// Unmaps so many pages from this one on.
    pub fn unmap(&mut self, first: u32, count: u32)
        requires { first + count ≤ 256 }
        ensures { self.new ≡ without_pages self.old first count }
    {
        for page in first..first + count {
            self.pages[page as usize] = None;
        }
    }

    /// Unmaps all pages.
    pub fn clear(&mut self)
        ensures { self.new ≡ no_memory }
    {
        let _ = &self.pages;
        self.unmap(0, 256);
    }

    /// The byte at an address, 0 where it isn't mapped.
    pub fn byte(&self, addr: u32) -> u8
        ensures { result ≡ byte_at self.now addr }
    {
        match self.pages.get(addr as usize / PAGE) {
            Some(Some(page)) => page.byte(addr as usize % PAGE),
            _ => 0,
        }
    }

    /// The n bytes from an address on.
    pub fn load(&self, alloc: Global, addr: u32, n: u32) -> Result<Vec<u8>, Memory>
        requires { addr + n < 2 ^ 32 }
        ensures { IfOk result (λ bytes. bytes.items ≡ loaded self.now addr n) }
    {
        Ok((addr..addr + n).map(|addr| self.byte(addr)).collect(alloc)?)
    }

    // Another byte at an address, if it is mapped.
    fn put(&mut self, addr: u32, byte: u8)
        requires { addr < 1048576 }
        ensures { self.new ≡ with_byte self.old addr byte }
    {
        if let Some(page) = &mut self.pages[addr as usize / PAGE] {
            page.put(addr as usize % PAGE, byte);
        }
    }

    /// Puts bytes in memory from an address on, where it is mapped.
    pub fn store(&mut self, addr: u32, bytes: &[u8])
        requires { addr + length bytes.now ≤ 1048576 }
        ensures { self.new ≡ stored self.old addr bytes.now }
    {
        for (index, byte) in bytes.iter().enumerate() {
            self.put(addr + index as u32, *byte);
        }
    }
}

// The same page again.
fn copied(alloc: Global, page: &Option<Page>) -> Result<Option<Page>, Memory>
    ensures { IfOk result (λ it. it ≡ page.now) }
{
    match page {
        Some(page) => Ok(Some(page.copy(alloc)?)),
        None => Ok(None),
    }
}
