//! Texts and the buffers that they are put into.
ghost use Rattle.std.specs.Prelude.{◌≡◌, ◌++◌, [], OnOk, IsTrue, is_some};
ghost use Rattle.lwkt_ffi.specs.Answers.{buffer_with_text};

use lwkt_base::OutOfMemory;
use lwkt_base::memory::extend_from_slice;
use lwkt_report::Page;
use std::alloc::Global;

/// A page with nothing on it.
pub fn blank(alloc: Global) -> Page
    ensures { result.text.items ≡ [] }
{
    Page {
        text: Vec::new(alloc),
        refused: None,
    }
}

/// That memory was refused for a page. That it was is the caller's condition.
pub fn page_refusal(page: &Page) -> OutOfMemory
    requires { IsTrue (is_some page.now.refused) }
{
    page.refused.unwrap()
}

/// Puts a text into a buffer, as far as this has room.
pub fn fill(buffer: &mut [u8], whole: &[u8])
    ensures { buffer.new ≡ buffer_with_text buffer.old whole.now }
{
    let count = whole.len().min(buffer.len());
    buffer[..count].copy_from_slice(&whole[..count]);
}

/// Puts two texts on an empty page, one behind the other.
pub fn put_both(page: &mut Page, first: &[u8], second: &[u8]) -> Result<(), OutOfMemory>
    requires { page.old.text.items ≡ [] }
    ensures { OnOk result (page.new.text.items ≡ first.now ++ second.now) }
{
    extend_from_slice(&mut page.text, first)?;
    extend_from_slice(&mut page.text, second)
}
