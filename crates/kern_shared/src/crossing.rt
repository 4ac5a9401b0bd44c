//! That threads share a kernel, and that a pass goes from one to another.
ghost use Rattle.std.specs.Thread.{IsSend, IsSync};
ghost use Rattle.kern_shared.specs.contracts.kernel.Kernel.{the_row as kernel_row};
ghost use Rattle.kern_shared.specs.contracts.passes.Pass.{the_row as pass_row};

use crate::RunName;
use posix_defs::Turner;

/// Where a store may cross threads, a kernel over it is `Send` and `Sync`, and a pass is `Send`.
pub fn crosses_threads<T: Turner + Drop + Send, L: RunName>()
    ensures kernel { IsSend (kernel_row T.row L.row L.RunName T.Turner) × IsSync (kernel_row T.row L.row L.RunName T.Turner) }
    ensures pass { IsSend (pass_row T.row L.row) }
{}
