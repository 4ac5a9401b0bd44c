//! Pages are changed in their place, since 4096 bytes are much to copy.

ghost use Rattle.std.specs.Prelude.{◌≡◌, ◌+◌, ◌≤◌, Some, length};
ghost use Rattle.kheap_slabs.specs.Objects.{object, InUse, count as count_of, put};
ghost use Rattle.kheap_slabs.specs.Pages.{with_bytes};
ghost use Rattle.kheap_slabs.specs.declared.objects.Page.{Page as PageOf};

use super::Shelf;
use crate::Page;

impl Shelf<Page> {
    /// Tells of a page how many entries name it.
    pub fn set_count(&mut self, key: u32, count: u32)
        requires { InUse self.old key }
        ensures kept { (page : PageOf) → object self.old key ≡ Some page
            → self.new ≡ put self.old key (record page { count = count }) }
        ensures counted { count_of self.new ≡ count_of self.old }
        ensures len { length self.new ≡ length self.old }
    {
        self.get_mut(key).count = count;
    }

    /// Writes bytes into a page from a place on.
    pub fn write(&mut self, key: u32, at: u32, bytes: &[u8])
        requires used { InUse self.old key }
        requires within { at + length bytes.now ≤ 4096 }
        ensures kept { (page : PageOf) → object self.old key ≡ Some page
            → self.new ≡ put self.old key (with_bytes page at bytes.now) }
        ensures counted { count_of self.new ≡ count_of self.old }
        ensures len { length self.new ≡ length self.old }
    {
        let page = self.get_mut(key);
        let at = at as usize;
        page.bytes[at..at + bytes.len()].copy_from_slice(bytes);
    }
}
