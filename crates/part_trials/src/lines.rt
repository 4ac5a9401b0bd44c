//! The line of a call that is gone, which comes where workers race alone.

use kabi_types::{CallKind, Entry};
use report_text::entry_line;
use std::test::Fail;

#[test]
fn a_call_that_is_gone_is_told(rt: HostRuntime) -> Result<(), Fail> {
    let (pid, kind) = (3, CallKind::Read);
    let line = entry_line(rt.alloc(), 7, &Entry::Gone { pid, kind })?;
    assert!(rt; line.as_str() == "7 p3 gone read\n");
    Ok(())
}
