//! Whether what a call names is a path, told before the call is made.

ghost use Rattle.std.specs.Prelude.{◌≡◌, is_none};
ghost use Rattle.std.specs.List.{list_any};
ghost use Rattle.kabi_types.specs.Arguments.{path_fault, paths_fault, renamed_fault};
ghost use Rattle.kabi_types.specs.PathParts.{components, ends_in_dots, is_dots, is_long};
ghost use Rattle.posix_defs.specs.Made as spec;

use crate::made::text_at;
use kabi_types::Text;

/// The greatest length of a name, in bytes.
const NAME_MAX: usize = 27;

fn has_long_part(path: &[u8]) -> bool
    ensures { result ≡ list_any is_long (components path.now) }
{
    path.split(|byte| *byte == b'/')
        .filter(|part| !part.is_empty())
        .any(|component| component.len() > NAME_MAX)
}

/// The same, without a look at a path that is no longer than a name.
fn has_long_component(path: &[u8]) -> bool
    ensures { result ≡ list_any is_long (components path.now) }
{
    if path.len() <= NAME_MAX {
        return false;
    }
    has_long_part(path)
}

/// Whether these bytes are a path: there are some, and no component is longer than a name may be.
fn is_path(path: &[u8]) -> bool
    ensures { result ≡ is_none (path_fault path.now) }
{
    !path.is_empty() && !has_long_component(path)
}

/// Whether the first text of a call is a path.
pub(crate) fn names_path(texts: &[Text]) -> bool
    ensures { result ≡ is_none (path_fault (spec.text_at texts.now 0)) }
{
    is_path(text_at(texts, 0))
}

/// Whether these two are paths.
fn are_paths(old: &[u8], new: &[u8]) -> bool
    ensures { result ≡ is_none (paths_fault old.now new.now) }
{
    is_path(old) && is_path(new)
}

/// Whether the first two texts of a call are paths.
pub(crate) fn names_paths(texts: &[Text]) -> bool
    ensures { result ≡ is_none (paths_fault (spec.text_at texts.now 0) (spec.text_at texts.now 1)) }
{
    are_paths(text_at(texts, 0), text_at(texts, 1))
}

fn is_dots(component: &[u8]) -> bool
    ensures { result ≡ is_dots component.now }
{
    matches!(component, b"." | b"..")
}

/// Whether the last component is `.` or `..`.
fn ends_in_dots(path: &[u8]) -> bool
    ensures { result ≡ ends_in_dots path.now }
{
    path.split(|byte| *byte == b'/')
        .filter(|part| !part.is_empty())
        .last()
        .is_some_and(is_dots)
}

/// Whether these two are paths that `rename` takes.
fn are_renamed(old: &[u8], new: &[u8]) -> bool
    ensures { result ≡ is_none (renamed_fault old.now new.now) }
{
    are_paths(old, new) && !(ends_in_dots(old) || ends_in_dots(new))
}

/// Whether the first two texts of a call are paths that `rename` takes.
pub(crate) fn names_renamed(texts: &[Text]) -> bool
    ensures { result ≡ is_none (renamed_fault (spec.text_at texts.now 0) (spec.text_at texts.now 1)) }
{
    are_renamed(text_at(texts, 0), text_at(texts, 1))
}
