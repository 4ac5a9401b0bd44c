ghost use Rattle.std.specs.Prelude.{◌≡◌, ◌<◌, ◌∷◌, [], not, length, IfNone, IfSome};
ghost use Rattle.std.specs.List.{position};
ghost use Rattle.std.specs.Str.{bytes_eq};
ghost use Rattle.posix_defs.specs.DiskContents.{own_name, parent_name};
ghost use Rattle.kabi_types.specs.PathParts.{components, is_slash};
ghost use Rattle.posix_defs.specs.Paths.{ends_in_slash, is_absolute};

const SLASH: u8 = b'/';

/// Where the first name of a path begins; None where the path has slashes alone.
fn name_at(path: &[u8]) -> Option<usize>
    ensures first { result ≡ position (λ byte. not (is_slash byte)) path.now }
    ensures within { IfSome result (λ at. at < length path.now) }
{
    path.iter().position(|byte| *byte != SLASH)
}

/// Where the first slash stands.
fn slash_at(path: &[u8]) -> Option<usize>
    ensures first { result ≡ position is_slash path.now }
    ensures within { IfSome result (λ at. at < length path.now) }
{
    path.iter().position(|byte| *byte == SLASH)
}

/// The first name of a path, and what stands behind it; None where the path has slashes alone.
pub(crate) fn split_name(path: &[u8]) -> Option<(&[u8], &[u8])>
    ensures none { IfNone result (components path.now ≡ []) }
    ensures some { IfSome result (λ parts. components path.now ≡ parts.0.now ∷ components parts.1.now) }
    ensures shorter { IfSome result (λ parts. length parts.1.now < length path.now) }
{
    let begin = name_at(path)?;
    let rest = &path[begin..];
    let end = slash_at(rest).unwrap_or(rest.len());
    Some(rest.split_at(end))
}

/// Whether a path begins at the root.
pub(crate) fn begins_at_root(path: &[u8]) -> bool
    ensures { result ≡ is_absolute path.now }
{
    path.first() == Some(&SLASH)
}

/// Whether a slash stands behind a path's last component.
pub(crate) fn ends_at_slash(path: &[u8]) -> bool
    ensures { result ≡ ends_in_slash path.now }
{
    path.last() == Some(&SLASH)
}

/// Whether a component is `.`.
pub(crate) fn is_own(name: &[u8]) -> bool
    ensures { result ≡ bytes_eq name.now own_name }
{
    matches!(name, b".")
}

/// Whether a component is `..`.
pub(crate) fn is_parent(name: &[u8]) -> bool
    ensures { result ≡ bytes_eq name.now parent_name }
{
    matches!(name, b"..")
}
