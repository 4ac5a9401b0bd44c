ghost use Rattle.std.specs.Prelude.{◌≡◌, ◌∷◌, [], true, false, if◌then◌else◌, None};
ghost use Rattle.std.specs.List.{list_any};
ghost use Rattle.posix_defs.specs.Asking.{AskedInTurn};
ghost use Rattle.posix_defs.specs.Tree.{Tree, found, is_directory, is_in_use};
ghost use Rattle.kabi_types.specs.PathParts.{components, is_long};
ghost use Rattle.kabi_types.specs.Arguments.{path_fault};
ghost use Rattle.posix_defs.specs.Paths.{last_leads, leads, name_leads, resolve, step};
ghost use Rattle.posix_defs.specs.Queries.{AskName, AskNode, asks, asks_kind, component_asks, queries_of};

use crate::names::{begins_at_root, ends_at_slash, is_own, is_parent, split_name};
use kabi_types::{Errno, Name27};
use posix_defs::{Dirs, Walked};

const ROOT: u32 = 1;

const DIRECTORY: u8 = 2;

/// Where a path leads from a working directory: to a node, to a name with the directory that it stands in, there or free,
/// or to a fault. It asks the directories for each name once, and looks at a node only where it has to be a directory.
///
/// <https://pubs.opengroup.org/onlinepubs/9699919799/basedefs/V1_chap04.html#tag_04_13>
pub fn walk<D: Dirs>(d: &mut D, start: u32, path: &[u8]) -> Walked
    requires directory { (tree : Tree) × D.stands d.old tree × (is_directory tree start ≡ true) }
    requires path { path_fault path.now ≡ None }
    ensures resolved { (tree : Tree) → D.stands d.old tree → result ≡ resolve tree start path.now }
    ensures stands { (tree : Tree) → D.stands d.old tree → D.stands d.new tree }
    ensures follows { D.follows d.old d.new }
    ensures asked { (tree : Tree) → D.stands d.old tree → AskedInTurn D.asked d.old (queries_of tree start path.now) d.new }
{
    let slash = ends_at_slash(path);
    let dir = if begins_at_root(path) { ROOT } else { start };
    match split_name(path) {
        None => Walked::Node(dir),
        Some((name, behind)) => walk_names(d, dir, name, behind, slash),
    }
}

/// Where a name and those of the path behind it lead from a directory.
fn walk_names<D: Dirs>(d: &mut D, start: u32, first: &[u8], behind: &[u8], slash: bool) -> Walked
    requires directory { (tree : Tree) × D.stands d.old tree × (is_directory tree start ≡ true) }
    requires names { list_any is_long (first.now ∷ components behind.now) ≡ false }
    ensures resolved { (tree : Tree) → D.stands d.old tree → result ≡ leads tree slash start (first.now ∷ components behind.now) }
    ensures stands { (tree : Tree) → D.stands d.old tree → D.stands d.new tree }
    ensures follows { D.follows d.old d.new }
    ensures asked { (tree : Tree) → D.stands d.old tree
        → AskedInTurn D.asked d.old (asks tree slash start (first.now ∷ components behind.now)) d.new }
{
    let mut dir = start;
    let mut name = first;
    let mut rest = behind;
    while let Some((next, further)) = split_name(rest) {
        match enter(d, dir, name) {
            Ok(to) => dir = to,
            Err(errno) => return Walked::Fail(errno),
        }
        name = next;
        rest = further;
    }
    walk_last(d, dir, name, slash)
}

/// The directory that a component leads to, where a further one follows: ENOENT where it is missing, ENOTDIR where it is no
/// directory.
fn enter<D: Dirs>(d: &mut D, dir: u32, name: &[u8]) -> Result<u32, Errno>
    requires { (tree : Tree) × D.stands d.old tree × (is_directory tree dir ≡ true) }
    ensures value { (tree : Tree) → D.stands d.old tree → result ≡ step tree dir name.now }
    ensures stands { (tree : Tree) → D.stands d.old tree → D.stands d.new tree }
    ensures follows { D.follows d.old d.new }
    ensures asked { (tree : Tree) → D.stands d.old tree → AskedInTurn D.asked d.old (component_asks tree dir name.now true) d.new }
{
    if is_own(name) {
        return Ok(dir);
    }
    if is_parent(name) {
        return Ok(d.parent(dir));
    }
    match d.look(dir, name) {
        None => Err(Errno::ENOENT),
        Some(number) => {
            if is_dir(d, number) {
                Ok(number)
            } else {
                Err(Errno::ENOTDIR)
            }
        }
    }
}

/// Where the last component leads.
fn walk_last<D: Dirs>(d: &mut D, dir: u32, name: &[u8], slash: bool) -> Walked
    requires directory { (tree : Tree) × D.stands d.old tree × (is_directory tree dir ≡ true) }
    requires name { is_long name.now ≡ false }
    ensures value { (tree : Tree) → D.stands d.old tree → result ≡ last_leads tree dir name.now slash }
    ensures stands { (tree : Tree) → D.stands d.old tree → D.stands d.new tree }
    ensures follows { D.follows d.old d.new }
    ensures asked { (tree : Tree) → D.stands d.old tree → AskedInTurn D.asked d.old (component_asks tree dir name.now slash) d.new }
{
    if is_own(name) {
        return Walked::Node(dir);
    }
    if is_parent(name) {
        return Walked::Node(d.parent(dir));
    }
    walk_name(d, dir, name, slash)
}

/// Where the last component leads, if it is a name.
fn walk_name<D: Dirs>(d: &mut D, dir: u32, name: &[u8], slash: bool) -> Walked
    requires directory { (tree : Tree) × D.stands d.old tree × (is_directory tree dir ≡ true) }
    requires name { is_long name.now ≡ false }
    ensures value { (tree : Tree) → D.stands d.old tree → result ≡ name_leads tree dir name.now slash (found tree dir name.now) }
    ensures stands { (tree : Tree) → D.stands d.old tree → D.stands d.new tree }
    ensures follows { D.follows d.old d.new }
    ensures asked { (tree : Tree) → D.stands d.old tree
        → AskedInTurn D.asked d.old (AskName dir name.now ∷ (if slash then asks_kind (found tree dir name.now) else [])) d.new }
{
    let Some(node) = d.look(dir, name) else {
        return Walked::Free {
            parent: dir,
            name: Name27::of(name).unwrap(),
            slash,
        };
    };
    if slash && !is_dir(d, node) {
        return Walked::Fail(Errno::ENOTDIR);
    }
    Walked::Named {
        parent: dir,
        name: Name27::of(name).unwrap(),
        node,
        slash,
    }
}

/// Whether a node in use is a directory.
fn is_dir<D: Dirs>(d: &mut D, number: u32) -> bool
    requires { (tree : Tree) × D.stands d.old tree × (is_in_use tree number ≡ true) }
    ensures value { (tree : Tree) → D.stands d.old tree → result ≡ is_directory tree number }
    ensures stands { (tree : Tree) → D.stands d.old tree → D.stands d.new tree }
    ensures follows { D.follows d.old d.new }
    ensures asked { D.asked d.old (AskNode number) d.new }
{
    d.node(number).kind == DIRECTORY
}
