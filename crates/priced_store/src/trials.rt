//! The report of the store's run, compared.

use crate::runs::run_maps;
use kabi_types::End;
use std::test::Fail;

/// What `kres sim` reports of the same script: the kernel's own store is live with as much, since both make one group.
const REPORT: &str = "1 p1 ask mmap bound 1024 charged 2816\n\
2 p1 admit mmap bound 1024 charged 3840\n\
3 p1 done mmap = 4096 charged 3328\n\
4 p1 ask exit bound 0 charged 3328\n\
5 p1 admit exit bound 0 charged 3328\n\
6 p1 ended exit 0 charged 2304\n\
end finished events 6 charged 2304 peak 3840 reads 0\n";

#[test]
fn its_report_is_the_kernels(rt: HostRuntime) -> Result<(), Fail> {
    let reported = run_maps(rt.alloc(), 8192)?;
    let same = reported.text.as_str() == REPORT && reported.end == End::Finished;
    drop(reported);
    assert!(rt; same);
    Ok(())
}
