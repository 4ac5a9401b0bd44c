//! What the argument check asks of a path.

ghost use Rattle.std.specs.Prelude.{◌≡◌};
ghost use Rattle.std.specs.List.{list_any};
ghost use Rattle.std.specs.Result.{result_err};
ghost use Rattle.kabi_types.specs.PathParts.{components, is_long, is_dots, ends_in_dots};
ghost use Rattle.kabi_types.specs.Arguments.{path_fault, paths_fault};

use crate::{Errno, Path};

/// The greatest length of a name, in bytes.
const NAME_MAX: usize = 27;

fn has_long_component(path: &[u8]) -> bool
    ensures { result ≡ list_any is_long (components path.now) }
{
    path.split(|byte| *byte == b'/')
        .filter(|part| !part.is_empty())
        .any(|component| component.len() > NAME_MAX)
}

fn is_dots(component: &[u8]) -> bool
    ensures { result ≡ is_dots component.now }
{
    matches!(component, b"." | b"..")
}

/// Whether the last component is `.` or `..`.
pub(crate) fn ends_in_dots(path: &Path) -> bool
    ensures { result ≡ ends_in_dots path.now }
{
    path.items()
        .split(|byte| *byte == b'/')
        .filter(|part| !part.is_empty())
        .last()
        .is_some_and(is_dots)
}

/// ENOENT where the path is empty, ENAMETOOLONG where a component is longer than a name may be.
pub(crate) fn check_path(path: &Path) -> Result<(), Errno>
    ensures { result_err result ≡ path_fault path.now }
{
    if path.items().is_empty() {
        return Err(Errno::ENOENT);
    }
    if has_long_component(path.items()) {
        return Err(Errno::ENAMETOOLONG);
    }
    Ok(())
}

/// The first fault of two paths.
pub(crate) fn check_paths(old: &Path, new: &Path) -> Result<(), Errno>
    ensures { result_err result ≡ paths_fault old.now new.now }
{
    check_path(old)?;
    check_path(new)
}
