ghost use Rattle.std.specs.Prelude.{◌≡◌, ◌<◌, IfOk, slice_index, slice_set};
ghost use Rattle.posix_defs.specs.Memory.{zero_page};

use kabi_types::Memory;
use std::alloc::Global;
use std::marker::Model;

/// How many bytes a page has.
pub(crate) const PAGE: usize = 4096;

/// The bytes of a page that is mapped.
#[derive(Drop)]
pub(crate) struct Page {
    bytes: Vec<u8>,
}

impl Model for Page {
    ghost use Rattle.std.specs.Prelude.{◌≡◌, ℕ, List, length};

    ghost Value = { List ℕ };

    ghost view = { λ page. page.bytes.items };

    ghost invariant = { λ page. length page.bytes.items ≡ 4096 };
}

impl Page {
    // A page that has nothing but zeros.
    pub(crate) fn zero(alloc: Global) -> Result<Page, Memory>
        ensures { IfOk result (λ page. page ≡ zero_page) }
    {
        Ok(Page {
            bytes: vec![in alloc; 0; PAGE]?,
        })
    }

    // A page with the same bytes.
    pub(crate) fn copy(&self, alloc: Global) -> Result<Page, Memory>
        ensures { IfOk result (λ page. page ≡ self.now) }
    {
        Ok(Page {
            bytes: Vec::from_slice(alloc, self.bytes.as_slice())?,
        })
    }

    // The byte at a place.
    pub(crate) fn byte(&self, place: usize) -> u8
        requires { place < 4096 }
        ensures { result ≡ slice_index self.now place }
    {
        self.bytes[place]
    }

    // Another byte at a place.
    pub(crate) fn put(&mut self, place: usize, byte: u8)
        requires { place < 4096 }
        ensures { self.new ≡ slice_set self.old place byte }
    {
        self.bytes[place] = byte;
    }
}
