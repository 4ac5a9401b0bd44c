//! Worked calls on paths, with the trees after them written out by hand. Each is the contract of a function that does
//! nothing.

ghost use Rattle.std.specs.Prelude.{◌≡◌, true, List, [], ◌∷◌, None, Some, Ok, Err, is_ok, map, codes};
ghost use Rattle.kabi_types.specs.declared.errnos.Errno.TheVariants.{EACCES, EADDRINUSE, EBUSY, EEXIST, EINVAL, EISDIR, EMLINK, ENOENT, ENOEXEC, ENOSPC, ENOTDIR, ENOTEMPTY, EOPNOTSUPP, EPERM};
ghost use Rattle.posix_defs.specs.DiskContents.{entry_for};
ghost use Rattle.posix_defs.specs.Tree.{free_blocks};
ghost use Rattle.posix_defs.specs.PathCalls.{bind_path, enter_path, exec_path, find_socket, link_path, mkdir_path, open_path, rename_path, rmdir_path, unlink_path};
ghost use Rattle.tree_laws.specs.WorkedTrees.{nowhere, two_programs};
ghost use Rattle.tree_laws.specs.WorkedStreet.{a_directory, a_file, a_socket, crowded, entry_a, entry_b, entry_e, entry_f, entry_g, entry_s, everywhere, linked, packed, renamed, renamed_busy, rmdirs, root_of, street, to_change, to_create, to_create_anew, to_cut, to_read, tree_of, unlinked};

/// The answers of `rename` in their order. Where two of them hold at once the earlier one is given: after the walks of the
/// old path and of the new one EBUSY for the root, EINVAL for a directory that would go below itself, nothing for two names
/// of one node, EISDIR, ENOTDIR, ENOTEMPTY, EBUSY, ENOTDIR for a slash, ENOSPC.
pub fn renames_answer_in_this_order()
    ensures old_fails { renamed street ((codes "x/y", codes "f") ∷ (codes "f/y", codes "x/y") ∷ (codes "x", codes "f/y") ∷ (codes "x", codes "/") ∷ [])
        ≡ Err ENOENT ∷ Err ENOTDIR ∷ Err ENOENT ∷ Err ENOENT ∷ [] }
    ensures new_fails { renamed street ((codes "f", codes "x/y") ∷ (codes "f", codes "s/y") ∷ (codes "/", codes "x/y") ∷ (codes "a", codes "f/") ∷ [])
        ≡ Err ENOENT ∷ Err ENOTDIR ∷ Err ENOENT ∷ Err ENOTDIR ∷ [] }
    ensures root { renamed street ((codes "/", codes "x") ∷ (codes "/", codes "a/x") ∷ (codes "a", codes "/") ∷ (codes "f", codes "/") ∷ [])
        ≡ Err EBUSY ∷ Err EBUSY ∷ Err EBUSY ∷ Err EBUSY ∷ [] }
    ensures below { renamed street ((codes "a", codes "a/x") ∷ (codes "a", codes "a/b/x") ∷ (codes "a", codes "a/g") ∷ []) ≡ Err EINVAL ∷ Err EINVAL ∷ Err EINVAL ∷ [] }
    ensures below_busy { (renamed_busy street ((codes "a", codes "a/b") ∷ []) ≡ Err EINVAL ∷ []) × (renamed packed ((codes "d", codes "d/x") ∷ []) ≡ Err EINVAL ∷ []) }
    ensures one_node { renamed_busy street ((codes "e", codes "e/") ∷ (codes "a", codes "a/b/../../a") ∷ []) ≡ Ok (None, street) ∷ Ok (None, street) ∷ [] }
    ensures one_file { renamed packed ((codes "f", codes "d/A") ∷ []) ≡ Ok (None, packed) ∷ [] }
    ensures over_directory { renamed_busy street ((codes "f", codes "a") ∷ (codes "f", codes "e") ∷ (codes "s", codes "e/") ∷ []) ≡ Err EISDIR ∷ Err EISDIR ∷ Err EISDIR ∷ [] }
    ensures over_file { renamed street ((codes "e", codes "f") ∷ (codes "a", codes "s") ∷ []) ≡ Err ENOTDIR ∷ Err ENOTDIR ∷ [] }
    ensures over_full { (renamed street ((codes "e", codes "a") ∷ []) ≡ Err ENOTEMPTY ∷ []) × (renamed_busy street ((codes "e", codes "a/") ∷ []) ≡ Err ENOTEMPTY ∷ []) }
    ensures over_busy { renamed_busy street ((codes "a/b", codes "e") ∷ []) ≡ Err EBUSY ∷ [] }
    ensures slash { (renamed street ((codes "f", codes "x/") ∷ (codes "s", codes "e/x/") ∷ []) ≡ Err ENOTDIR ∷ Err ENOTDIR ∷ []) × (renamed packed ((codes "f", codes "d/x/") ∷ []) ≡ Err ENOTDIR ∷ []) }
    ensures full { renamed packed ((codes "f", codes "d/x") ∷ (codes "big", codes "d/x") ∷ []) ≡ Err ENOSPC ∷ Err ENOSPC ∷ [] }
    ensures room { map is_ok (renamed packed ((codes "f", codes "x") ∷ (codes "big", codes "d/A") ∷ [])) ≡ true ∷ true ∷ [] }
{}

/// What a `rename` leaves: the new entry in place of the replaced one and the last one in place of the old, a socket's name
/// that is replaced gone though its socket lives, a file opened kept, and `..` of a moved directory.
pub fn renames_leave_these_trees()
    ensures over { rename_path street 1 (codes "f") (codes "a/g") nowhere nowhere
        ≡ Ok (None, tree_of (root_of (entry_a ∷ entry_e ∷ entry_s ∷ []) ∷ a_directory 1 (entry_b ∷ entry_for 5 (codes "g") ∷ []) ∷ a_directory 2 [] ∷ a_directory 1 [] ∷ a_file 1 (7 ∷ []) ∷ a_socket 1 ∷ None ∷ [])) }
    ensures opened { rename_path street 1 (codes "f") (codes "a/g") everywhere nowhere
        ≡ Ok (None, tree_of (root_of (entry_a ∷ entry_e ∷ entry_s ∷ []) ∷ a_directory 1 (entry_b ∷ entry_for 5 (codes "g") ∷ []) ∷ a_directory 2 [] ∷ a_directory 1 [] ∷ a_file 1 (7 ∷ []) ∷ a_socket 1 ∷ a_file 0 (8 ∷ []) ∷ [])) }
    ensures socket { rename_path street 1 (codes "f") (codes "s") everywhere nowhere
        ≡ Ok (Some 6, tree_of (root_of (entry_a ∷ entry_e ∷ entry_for 5 (codes "s") ∷ []) ∷ a_directory 1 (entry_b ∷ entry_g ∷ []) ∷ a_directory 2 [] ∷ a_directory 1 [] ∷ a_file 1 (7 ∷ []) ∷ None ∷ a_file 1 (8 ∷ []) ∷ [])) }
    ensures directory { rename_path street 1 (codes "a/b") (codes "e") nowhere nowhere
        ≡ Ok (None, tree_of (root_of (entry_a ∷ entry_for 3 (codes "e") ∷ entry_f ∷ entry_s ∷ []) ∷ a_directory 1 (entry_g ∷ []) ∷ a_directory 1 [] ∷ None ∷ a_file 1 (7 ∷ []) ∷ a_socket 1 ∷ a_file 1 (8 ∷ []) ∷ [])) }
    ensures moved { rename_path street 2 (codes "b/") (codes "../e/c/") nowhere everywhere
        ≡ Ok (None, tree_of (root_of (entry_a ∷ entry_e ∷ entry_f ∷ entry_s ∷ []) ∷ a_directory 1 (entry_g ∷ []) ∷ a_directory 4 [] ∷ a_directory 1 (entry_for 3 (codes "c") ∷ []) ∷ a_file 1 (7 ∷ []) ∷ a_socket 1 ∷ a_file 1 (8 ∷ []) ∷ [])) }
    ensures in_place { rename_path street 1 (codes "e") (codes "x/") nowhere nowhere
        ≡ Ok (None, tree_of (root_of (entry_a ∷ entry_for 4 (codes "x") ∷ entry_f ∷ entry_s ∷ []) ∷ a_directory 1 (entry_b ∷ entry_g ∷ []) ∷ a_directory 2 [] ∷ a_directory 1 [] ∷ a_file 1 (7 ∷ []) ∷ a_socket 1 ∷ a_file 1 (8 ∷ []) ∷ [])) }
{}

/// `chdir` and `connect`, which look for a node of one kind.
pub fn walks_find_these_kinds()
    ensures chdir { map (λ path. enter_path street 2 path) (codes "b" ∷ codes "." ∷ codes ".." ∷ codes "/" ∷ codes "/a/b/.." ∷ codes "../e/" ∷ [])
        ≡ Ok 3 ∷ Ok 2 ∷ Ok 1 ∷ Ok 1 ∷ Ok 2 ∷ Ok 4 ∷ [] }
    ensures no_directory { map (λ path. enter_path street 1 path) (codes "f" ∷ codes "s" ∷ codes "f/" ∷ codes "x" ∷ codes "x/" ∷ codes "x/y" ∷ codes "f/.." ∷ [])
        ≡ Err ENOTDIR ∷ Err ENOTDIR ∷ Err ENOTDIR ∷ Err ENOENT ∷ Err ENOENT ∷ Err ENOENT ∷ Err ENOTDIR ∷ [] }
    ensures connect { map (λ path. find_socket street 1 path) (codes "s" ∷ codes "/a/../s" ∷ codes "f" ∷ codes "a" ∷ codes "/" ∷ [])
        ≡ Ok (Some 6) ∷ Ok (Some 6) ∷ Ok None ∷ Ok None ∷ Ok None ∷ [] }
    ensures no_socket { map (λ path. find_socket street 1 path) (codes "x" ∷ codes "s/" ∷ codes "f/s" ∷ []) ≡ Err ENOENT ∷ Err ENOTDIR ∷ Err ENOTDIR ∷ [] }
    ensures exec { map (λ path. exec_path street 1 path two_programs) (codes "a" ∷ codes "s" ∷ codes "/" ∷ codes "x" ∷ codes "f/" ∷ codes "f" ∷ [])
        ≡ Err EACCES ∷ Err EACCES ∷ Err EACCES ∷ Err ENOENT ∷ Err ENOTDIR ∷ Err ENOEXEC ∷ [] }
{}

/// `unlink`, `rmdir` and `link`: what they refuse, and what they leave. A file that is opened stays, a socket's name doesn't.
pub fn names_go_and_come_so()
    ensures kept { unlinked street (codes "a" ∷ codes "a/" ∷ codes "/" ∷ codes "." ∷ codes "x" ∷ codes "x/" ∷ codes "f/" ∷ codes "f/x" ∷ [])
        ≡ Err EPERM ∷ Err EPERM ∷ Err EPERM ∷ Err EPERM ∷ Err ENOENT ∷ Err ENOENT ∷ Err ENOTDIR ∷ Err ENOTDIR ∷ [] }
    ensures gone { unlink_path street 1 (codes "f") nowhere
        ≡ Ok (None, tree_of (root_of (entry_a ∷ entry_e ∷ entry_s ∷ []) ∷ a_directory 1 (entry_b ∷ entry_g ∷ []) ∷ a_directory 2 [] ∷ a_directory 1 [] ∷ None ∷ a_socket 1 ∷ a_file 1 (8 ∷ []) ∷ [])) }
    ensures opened { unlink_path street 1 (codes "f") everywhere
        ≡ Ok (None, tree_of (root_of (entry_a ∷ entry_e ∷ entry_s ∷ []) ∷ a_directory 1 (entry_b ∷ entry_g ∷ []) ∷ a_directory 2 [] ∷ a_directory 1 [] ∷ a_file 0 (7 ∷ []) ∷ a_socket 1 ∷ a_file 1 (8 ∷ []) ∷ [])) }
    ensures socket { unlink_path street 1 (codes "s") everywhere
        ≡ Ok (Some 6, tree_of (root_of (entry_a ∷ entry_e ∷ entry_f ∷ []) ∷ a_directory 1 (entry_b ∷ entry_g ∷ []) ∷ a_directory 2 [] ∷ a_directory 1 [] ∷ a_file 1 (7 ∷ []) ∷ None ∷ a_file 1 (8 ∷ []) ∷ [])) }
    ensures rmdir { rmdir_path street 1 (codes "e/") nowhere
        ≡ Ok (tree_of (root_of (entry_a ∷ entry_s ∷ entry_f ∷ []) ∷ a_directory 1 (entry_b ∷ entry_g ∷ []) ∷ a_directory 2 [] ∷ None ∷ a_file 1 (7 ∷ []) ∷ a_socket 1 ∷ a_file 1 (8 ∷ []) ∷ [])) }
    ensures not_removed { rmdirs street (codes "e/." ∷ codes "x/." ∷ codes "e/.." ∷ codes "x" ∷ codes "/" ∷ codes "f" ∷ codes "s" ∷ codes "f/" ∷ codes "a" ∷ []) nowhere
        ≡ Err EINVAL ∷ Err EINVAL ∷ Err ENOTEMPTY ∷ Err ENOENT ∷ Err EBUSY ∷ Err ENOTDIR ∷ Err ENOTDIR ∷ Err ENOTDIR ∷ Err ENOTEMPTY ∷ [] }
    ensures busy { rmdirs street (codes "e" ∷ codes "a" ∷ codes "f" ∷ []) everywhere ≡ Err EBUSY ∷ Err ENOTEMPTY ∷ Err ENOTDIR ∷ [] }
    ensures link { link_path street 1 (codes "f") (codes "e/h")
        ≡ Ok (tree_of (root_of (entry_a ∷ entry_e ∷ entry_f ∷ entry_s ∷ []) ∷ a_directory 1 (entry_b ∷ entry_g ∷ []) ∷ a_directory 2 [] ∷ a_directory 1 (entry_for 5 (codes "h") ∷ []) ∷ a_file 2 (7 ∷ []) ∷ a_socket 1 ∷ a_file 1 (8 ∷ []) ∷ [])) }
    ensures socket_linked { link_path street 1 (codes "s") (codes "t")
        ≡ Ok (tree_of (root_of (entry_a ∷ entry_e ∷ entry_f ∷ entry_s ∷ entry_for 6 (codes "t") ∷ []) ∷ a_directory 1 (entry_b ∷ entry_g ∷ []) ∷ a_directory 2 [] ∷ a_directory 1 [] ∷ a_file 1 (7 ∷ []) ∷ a_socket 2 ∷ a_file 1 (8 ∷ []) ∷ [])) }
    ensures not_linked { linked street ((codes "x", codes "f") ∷ (codes "a", codes "x/y") ∷ (codes "a", codes "f") ∷ (codes "f", codes "x/y") ∷ (codes "f", codes "a") ∷ (codes "f", codes "/") ∷ (codes "f", codes "x/") ∷ [])
        ≡ Err ENOENT ∷ Err EPERM ∷ Err EPERM ∷ Err ENOENT ∷ Err EEXIST ∷ Err EEXIST ∷ Err ENOENT ∷ [] }
    ensures worn { linked packed ((codes "f", codes "x") ∷ (codes "f", codes "d/x") ∷ (codes "f", codes "d/x/") ∷ (codes "f", codes "d/A") ∷ (codes "big", codes "d/x") ∷ [])
        ≡ Err EMLINK ∷ Err EMLINK ∷ Err ENOENT ∷ Err EEXIST ∷ Err ENOSPC ∷ [] }
{}

/// `open`, `mkdir` and `bind`: EEXIST before EISDIR and EOPNOTSUPP, a slash behind a missing name, no node and no room.
pub fn nodes_are_made_so()
    ensures there { map (λ path. open_path street 1 path to_create_anew) (codes "f" ∷ codes "a" ∷ codes "s" ∷ codes "/" ∷ []) ≡ Err EEXIST ∷ Err EEXIST ∷ Err EEXIST ∷ Err EEXIST ∷ [] }
    ensures directory { (open_path street 1 (codes "a") to_read ≡ Ok (2, street)) × (open_path street 1 (codes "a") to_change ≡ Err EISDIR) × (open_path street 1 (codes "a/") to_create ≡ Err EISDIR) }
    ensures socket { (open_path street 1 (codes "s") to_read ≡ Err EOPNOTSUPP) × (open_path street 1 (codes "s") to_create ≡ Err EOPNOTSUPP) }
    ensures missing { (open_path street 1 (codes "x") to_change ≡ Err ENOENT) × (open_path street 1 (codes "x/") to_create ≡ Err ENOENT) × (open_path street 1 (codes "f/") to_read ≡ Err ENOTDIR) }
    ensures cut { open_path street 1 (codes "f") to_cut
        ≡ Ok (5, tree_of (root_of (entry_a ∷ entry_e ∷ entry_f ∷ entry_s ∷ []) ∷ a_directory 1 (entry_b ∷ entry_g ∷ []) ∷ a_directory 2 [] ∷ a_directory 1 [] ∷ a_file 1 [] ∷ a_socket 1 ∷ a_file 1 (8 ∷ []) ∷ [])) }
    ensures created { open_path street 2 (codes "b/n") to_create_anew
        ≡ Ok (8, tree_of (root_of (entry_a ∷ entry_e ∷ entry_f ∷ entry_s ∷ []) ∷ a_directory 1 (entry_b ∷ entry_g ∷ []) ∷ a_directory 2 (entry_for 8 (codes "n") ∷ []) ∷ a_directory 1 [] ∷ a_file 1 (7 ∷ []) ∷ a_socket 1 ∷ a_file 1 (8 ∷ []) ∷ a_file 1 [] ∷ [])) }
    ensures mkdir { mkdir_path street 2 (codes "../x/")
        ≡ Ok (8, tree_of (root_of (entry_a ∷ entry_e ∷ entry_f ∷ entry_s ∷ entry_for 8 (codes "x") ∷ []) ∷ a_directory 1 (entry_b ∷ entry_g ∷ []) ∷ a_directory 2 [] ∷ a_directory 1 [] ∷ a_file 1 (7 ∷ []) ∷ a_socket 1 ∷ a_file 1 (8 ∷ []) ∷ a_directory 1 [] ∷ [])) }
    ensures not_made { map (λ path. mkdir_path street 1 path) (codes "a" ∷ codes "f" ∷ codes "s" ∷ codes ".." ∷ codes "f/" ∷ codes "f/x" ∷ codes "x/y" ∷ [])
        ≡ Err EEXIST ∷ Err EEXIST ∷ Err EEXIST ∷ Err EEXIST ∷ Err ENOTDIR ∷ Err ENOTDIR ∷ Err ENOENT ∷ [] }
    ensures bind { bind_path street 1 (codes "e/t")
        ≡ Ok (8, tree_of (root_of (entry_a ∷ entry_e ∷ entry_f ∷ entry_s ∷ []) ∷ a_directory 1 (entry_b ∷ entry_g ∷ []) ∷ a_directory 2 [] ∷ a_directory 1 (entry_for 8 (codes "t") ∷ []) ∷ a_file 1 (7 ∷ []) ∷ a_socket 1 ∷ a_file 1 (8 ∷ []) ∷ a_socket 1 ∷ [])) }
    ensures not_bound { map (λ path. bind_path street 1 path) (codes "s" ∷ codes "f" ∷ codes "a" ∷ codes "/" ∷ codes "x/" ∷ codes "x/y" ∷ codes "f/x" ∷ [])
        ≡ Err EADDRINUSE ∷ Err EADDRINUSE ∷ Err EADDRINUSE ∷ Err EADDRINUSE ∷ Err ENOENT ∷ Err ENOENT ∷ Err ENOTDIR ∷ [] }
    ensures no_block { free_blocks packed ≡ 0 }
    ensures no_room { (open_path packed 1 (codes "d/x") to_create ≡ Err ENOSPC) × (mkdir_path packed 1 (codes "x") ≡ Err ENOSPC) × (bind_path packed 1 (codes "d/x") ≡ Err ENOSPC) }
    ensures room { (is_ok (open_path packed 1 (codes "x") to_create) ≡ true) × (is_ok (bind_path packed 1 (codes "x")) ≡ true) }
    ensures no_node { (open_path crowded 1 (codes "x") to_create ≡ Err ENOSPC) × (mkdir_path crowded 1 (codes "x") ≡ Err ENOSPC) × (bind_path crowded 1 (codes "x") ≡ Err ENOSPC) }
{}
