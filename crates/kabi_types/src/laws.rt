//! Laws above the definitions. Each is the contract of a function that does nothing.

ghost use Rattle.std.specs.Prelude.{◌≡◌, Contains};
ghost use Rattle.kabi_types.specs.Call.{all_kinds};
ghost use Rattle.kabi_types.specs.declared.calls.CallKind.{CallKind};

use crate::CallKind;

/// The list of all calls has each call, and the constant is that list.
pub fn every_call_is_listed()
    ensures listed { (kind : CallKind) → Contains all_kinds kind }
    ensures constant { CallKind.ALL ≡ all_kinds }
{}
