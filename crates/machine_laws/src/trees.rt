//! A law of the tree under all forty-three calls. It is the contract of a function that does nothing.

ghost use Rattle.std.specs.Prelude.{◌≡◌, ℕ, false};
ghost use Rattle.kabi_types.specs.declared.calls.Call.{Call};
ghost use Rattle.kabi_types.specs.declared.scripts.Script.{Script};
ghost use Rattle.posix_defs.specs.Plain.{Plain};
ghost use Rattle.posix_defs.specs.Machine.{machine};
ghost use Rattle.posix_defs.specs.Reaching.{reaches_node};
ghost use Rattle.machine_laws.specs.FileSteps.{LeadsTo};

/// A call that names no path and no descriptor of a node, and with which no description of a node goes, leaves the tree as
/// it was, whatever it is answered; and so does one with a wrong operand.
pub fn a_call_that_reaches_no_node_leaves_the_tree()
    ensures { (script : Script) (plain : Plain) (pid : ℕ) (call : Call)
        → LeadsTo (λ next. reaches_node plain pid call next ≡ false → next.files.tree ≡ plain.files.tree) (machine script plain pid call) }
{}
