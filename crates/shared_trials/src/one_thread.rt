//! Two processes, of which a child is made, by tables. All is by hand from the prices: 3328 bytes to fork and 3008 to open, 512 for a
//! process, 1088 for a block; 640 live at boot, and 2176 in reserve.

ghost use Rattle.std.specs.Prelude.{◌≤◌};

use crate::pair::at_boot;
use crate::rows::{Left, Row, Size, goes_so};
use crate::workers::{Ask, Line, Told};
use kabi_types::{Cached, CallKind, End, Errno, Memory};
use kern_events::Relief;
use std::alloc::Global;
use std::sync::Wait;
use std::test::Fail;

/// Whether a run of the two processes on so much heap, of so many steps at most, is answered as the rows say, and leaves this.
fn pair_goes_so<R: Wait>(
    rt: &R,
    alloc: Global,
    size: Size,
    rows: &[Row],
    left: &Left,
) -> Result<bool, Memory>
    requires { 2816 ≤ size.heap }
{
    goes_so(rt, alloc, at_boot(size.heap), size, rows, left)
}

const FAILED: Told = Told::Failed(Errno::ENOENT);

/// On 7000 bytes the second `open` waits for the block that the first has cached; the child is held when the first process ends.
const EVICTS: &[Row] = &[
    (1, Ask::Pick, Told::Run(1, CallKind::Fork)),
    (2, Ask::Pick, Told::Idle),
    (2, Ask::Relieve, Told::Helped(Relief::Fits(1))),
    (1, Ask::Attend, Told::Value(2)),
    (2, Ask::Relieve, Told::Helped(Relief::NoneWaiting)),
    (1, Ask::Pick, Told::Run(1, CallKind::OpenFile)),
    (2, Ask::Pick, Told::Run(2, CallKind::OpenFile)),
    (1, Ask::Attend, FAILED),
    (
        2,
        Ask::Attend,
        Told::Short {
            charged: 4416,
            need: 3008,
        },
    ),
    (
        1,
        Ask::Relieve,
        Told::Helped(Relief::Evicted(Cached::Block)),
    ),
    (1, Ask::Relieve, Told::Helped(Relief::Fits(2))),
    (2, Ask::Attend, FAILED),
    (1, Ask::Pick, Told::Run(1, CallKind::Exit)),
    (2, Ask::Pick, Told::Run(2, CallKind::Exit)),
    (1, Ask::Release, Told::Released),
    (1, Ask::Pick, Told::Run(1, CallKind::Exit)),
    (1, Ask::Attend, Told::Ended(0)),
    (2, Ask::Attend, Told::Gone),
    (2, Ask::Pick, Told::Over(End::Finished)),
];

const EVICTED: Left = (
    &[
        Line::Done(1, CallKind::Fork),
        Line::Done(1, CallKind::OpenFile),
        Line::Evicted(Cached::Block),
        Line::Done(2, CallKind::OpenFile),
        Line::Ended(1, CallKind::Exit, 0),
        Line::Gone(2, CallKind::Exit),
    ],
    Some(End::Finished),
    3392,
);

const SHORT: Told = Told::Short {
    charged: 3328,
    need: 3008,
};

/// On 6200 bytes neither `open` has room beside both processes. The child is killed, and its record stays, which nobody waits for.
const KILLS: &[Row] = &[
    (1, Ask::Pick, Told::Run(1, CallKind::Fork)),
    (1, Ask::Attend, Told::Value(2)),
    (1, Ask::Pick, Told::Run(1, CallKind::OpenFile)),
    (2, Ask::Pick, Told::Run(2, CallKind::OpenFile)),
    (1, Ask::Attend, SHORT),
    (2, Ask::Attend, SHORT),
    (2, Ask::Relieve, Told::Helped(Relief::Killed(2))),
    (2, Ask::Attend, SHORT),
    (2, Ask::Relieve, Told::Helped(Relief::Starved)),
    (1, Ask::Pick, Told::Nothing),
    (2, Ask::Release, Told::Released),
    (
        2,
        Ask::Pick,
        Told::Over(End::Starved { pid: 1, need: 3008 }),
    ),
];

const KILLED: Left = (
    &[
        Line::Done(1, CallKind::Fork),
        Line::Killed {
            pid: 2,
            waiter: 1,
            need: 3008,
            live: 1152,
        },
    ],
    Some(End::Starved { pid: 1, need: 3008 }),
    3328,
);

/// Two steps are used up while the child is held.
const SPENDS: &[Row] = &[
    (1, Ask::Pick, Told::Run(1, CallKind::Fork)),
    (1, Ask::Attend, Told::Value(2)),
    (1, Ask::Pick, Told::Run(1, CallKind::OpenFile)),
    (2, Ask::Pick, Told::Run(2, CallKind::OpenFile)),
    (1, Ask::Attend, FAILED),
    (1, Ask::Pick, Told::Over(End::Spent)),
    (2, Ask::Relieve, Told::Helped(Relief::Spent)),
    (2, Ask::Attend, Told::Spent),
    (2, Ask::Pick, Told::Over(End::Spent)),
];

const SPENT: Left = (
    &[
        Line::Done(1, CallKind::Fork),
        Line::Done(1, CallKind::OpenFile),
    ],
    Some(End::Spent),
    4416,
);

/// 5000 bytes can never give what is asked for.
const REFUSES: &[Row] = &[
    (1, Ask::Pick, Told::Run(1, CallKind::Fork)),
    (2, Ask::Relieve, Told::Helped(Relief::NoneWaiting)),
    (1, Ask::Attend, Told::Refused),
    (2, Ask::Pick, Told::Run(1, CallKind::OpenFile)),
    (2, Ask::Attend, Told::Refused),
    (1, Ask::Pick, Told::Run(1, CallKind::Exit)),
    (1, Ask::Attend, Told::Ended(0)),
    (2, Ask::Pick, Told::Over(End::Finished)),
];

const REFUSED: Left = (
    &[
        Line::Refused(1, CallKind::Fork, 3328),
        Line::Refused(1, CallKind::OpenFile, 3008),
        Line::Ended(1, CallKind::Exit, 0),
    ],
    Some(End::Finished),
    2304,
);

/// Who is held is given back, and the run has no end.
const GIVES_BACK: &[Row] = &[
    (1, Ask::Pick, Told::Run(1, CallKind::Fork)),
    (1, Ask::Attend, Told::Value(2)),
    (2, Ask::Pick, Told::Run(1, CallKind::OpenFile)),
    (1, Ask::Pick, Told::Run(2, CallKind::OpenFile)),
    (2, Ask::Release, Told::Released),
    (2, Ask::Attend, Told::Nothing),
    (2, Ask::Release, Told::Nothing),
    (2, Ask::Pick, Told::Run(1, CallKind::OpenFile)),
];

const GIVEN_BACK: Left = (&[Line::Done(1, CallKind::Fork)], None, 3328);

/// The heap and the steps of a run, its rows, and what it leaves.
type Run = (u64, u32, &'static [Row], Left);

const RUNS: &[Run] = &[
    (7000, 100, EVICTS, EVICTED),
    (6200, 100, KILLS, KILLED),
    (8192, 2, SPENDS, SPENT),
    (5000, 100, REFUSES, REFUSED),
    (8192, 100, GIVES_BACK, GIVEN_BACK),
];

#[test]
fn two_passes_are_answered_by_their_rows(rt: HostRuntime) -> Result<(), Fail> {
    for (heap, steps, rows, left) in RUNS {
        let (heap, steps) = (*heap, *steps);
        assert!(rt; heap >= 2816);
        let right = pair_goes_so(&rt, rt.alloc(), Size { heap, steps }, rows, left)?;
        assert!(rt; right, "on {heap} bytes");
    }
    Ok(())
}
