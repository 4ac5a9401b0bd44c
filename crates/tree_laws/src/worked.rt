//! Worked examples of the tree of files and of paths, computed by hand. Each is the contract of a function that does
//! nothing.

ghost use Rattle.std.specs.Prelude.{◌≡◌, ℕ, ◌+◌, true, false, List, [], ◌∷◌, None, Some, Ok, Err, is_ok, map, replicate, codes};
ghost use Rattle.kabi_types.specs.declared.errnos.Errno.TheVariants.{EACCES, EBUSY, EEXIST, EFBIG, EINVAL, EISDIR, ENAMETOOLONG, ENOENT, ENOEXEC, ENOSPC, ENOTDIR, ENOTEMPTY};
ghost use Rattle.kabi_types.specs.declared.replies.NodeKind.TheVariants as kinds;
ghost use Rattle.posix_defs.specs.declared.walked.Walked.TheVariants.{Node, Named, Free, Fail};
ghost use Rattle.posix_defs.specs.DiskFormat.{blocks_of};
ghost use Rattle.posix_defs.specs.DiskContents.{entry_for};
ghost use Rattle.posix_defs.specs.FileBytes.{capacity, fitting, overwritten, resized};
ghost use Rattle.posix_defs.specs.Tree.{File, entries_at, free_blocks, free_node, links_at, new_tree, parent_at};
ghost use Rattle.posix_defs.specs.TreeChanges.{closed, is_at_or_above, make, rename_over, rename_to, resize, unlink, write};
ghost use Rattle.kabi_types.specs.Arguments.{path_fault};
ghost use Rattle.posix_defs.specs.Paths.{resolve};
ghost use Rattle.posix_defs.specs.PathCalls.{exec_path, link_path, list_node, mkdir_path, open_path, read_node, rename_path, rmdir_path, stat_path, unlink_path};
ghost use Rattle.tree_laws.specs.WorkedTrees.{one_file, four_files, three_directories, with_a, with_b, with_f, with_g, with_script, two_programs, nowhere, to_write};

/// How many blocks a size takes, and what so many blocks hold: beyond ten there is a block of pointers, beyond 266 there are
/// the double block and one of pointers more, beyond 522 a further one.
pub fn sizes_take_these_blocks()
    ensures taken { map blocks_of (0 ∷ 1 ∷ 1024 ∷ 1025 ∷ 10239 ∷ 10240 ∷ 10241 ∷ 11264 ∷ 12288 ∷ 12289 ∷ 272384 ∷ [])
        ≡ 0 ∷ 1 ∷ 1 ∷ 2 ∷ 10 ∷ 10 ∷ 12 ∷ 12 ∷ 13 ∷ 14 ∷ 267 ∷ [] }
    ensures far { map blocks_of (272385 ∷ 273408 ∷ 534528 ∷ 534529 ∷ 3913728 ∷ 67381248 ∷ []) ≡ 270 ∷ 270 ∷ 525 ∷ 527 ∷ 3838 ∷ 66060 ∷ [] }
    ensures held { map capacity (0 ∷ 1 ∷ 9 ∷ 10 ∷ 11 ∷ 12 ∷ 13 ∷ 266 ∷ 267 ∷ 268 ∷ [])
        ≡ 0 ∷ 1024 ∷ 9216 ∷ 10240 ∷ 10240 ∷ 11264 ∷ 12288 ∷ 271360 ∷ 272384 ∷ 272384 ∷ [] }
    ensures held_far { map capacity (269 ∷ 270 ∷ 525 ∷ 526 ∷ 527 ∷ 3838 ∷ 66059 ∷ 66060 ∷ 70000 ∷ [])
        ≡ 272384 ∷ 273408 ∷ 534528 ∷ 534528 ∷ 535552 ∷ 3913728 ∷ 67380224 ∷ 67381248 ∷ 67381248 ∷ [] }
{}

/// How many of 2000 bytes fit at a place with 0, 1 and 2 free blocks: a full file of ten blocks at its last byte and at its
/// end, an empty one at its start and behind a gap. And what bytes a write leaves.
pub fn writes_fit_so_far()
    ensures last_byte { map (λ free. fitting (10 + free) 10239 2000) (0 ∷ 1 ∷ 2 ∷ []) ≡ 1 ∷ 1 ∷ 1025 ∷ [] }
    ensures at_the_end { map (λ free. fitting (10 + free) 10240 2000) (0 ∷ 1 ∷ 2 ∷ []) ≡ 0 ∷ 0 ∷ 1024 ∷ [] }
    ensures empty { map (λ free. fitting free 0 2000) (0 ∷ 1 ∷ 2 ∷ []) ≡ 0 ∷ 1024 ∷ 2000 ∷ [] }
    ensures gap { map (λ free. fitting free 1500 2000) (0 ∷ 1 ∷ 2 ∷ []) ≡ 0 ∷ 0 ∷ 548 ∷ [] }
    ensures zeros { overwritten 5 (9 ∷ []) (1 ∷ 2 ∷ []) ≡ 1 ∷ 2 ∷ 0 ∷ 0 ∷ 0 ∷ 9 ∷ [] }
    ensures within { overwritten 1 (8 ∷ 9 ∷ []) (1 ∷ 2 ∷ 3 ∷ 4 ∷ []) ≡ 1 ∷ 8 ∷ 9 ∷ 4 ∷ [] }
    ensures behind { overwritten 2 (7 ∷ []) (1 ∷ 2 ∷ []) ≡ 1 ∷ 2 ∷ 7 ∷ [] }
    ensures longer { resized 3 (1 ∷ []) ≡ 1 ∷ 0 ∷ 0 ∷ [] }
    ensures shorter { resized 1 (1 ∷ 2 ∷ []) ≡ 1 ∷ [] }
{}

/// A disk of 16 blocks: 14 are for files, the root has one. A file takes 12 of them and one of pointers, and no more. Its
/// number is free again when it has neither a name nor a description.
pub fn a_small_disk_is_full_at_12288_bytes()
    ensures made { make (new_tree 16) 1 (codes "f") (File []) ≡ Ok (2, one_file) }
    ensures free { free_blocks one_file ≡ 13 }
    ensures above { resize one_file 2 12289 ≡ Err ENOSPC }
    ensures most { is_ok (resize one_file 2 12288) ≡ true }
    ensures greatest { resize one_file 2 67381249 ≡ Err EFBIG }
    ensures written { write one_file 2 67381248 (1 ∷ []) ≡ Err EFBIG }
    ensures far { write one_file 2 12288 (1 ∷ []) ≡ Err ENOSPC }
    ensures opened { (links_at (unlink one_file 1 (codes "f") 2 true) 2 ≡ 0) × (free_node (unlink one_file 1 (codes "f") 2 true) ≡ Some 3) }
    ensures closed { free_node (closed (unlink one_file 1 (codes "f") 2 true) 2) ≡ Some 2 }
    ensures gone { free_node (unlink one_file 1 (codes "f") 2 false) ≡ Some 2 }
{}

/// Four files `a`, `b`, `c`, `d`. Over a name in the same directory the new entry keeps its place, and then the last moves
/// to the old one's; to a new name the entry keeps its place.
pub fn renames_leave_these_entries()
    ensures before { entries_at four_files 1
        ≡ entry_for 2 (codes "a") ∷ entry_for 3 (codes "b") ∷ entry_for 4 (codes "c") ∷ entry_for 5 (codes "d") ∷ [] }
    ensures over { entries_at (rename_over four_files 1 (codes "b") 3 1 (codes "c") 4 false) 1
        ≡ entry_for 2 (codes "a") ∷ entry_for 5 (codes "d") ∷ entry_for 3 (codes "c") ∷ [] }
    ensures last { entries_at (rename_over four_files 1 (codes "d") 5 1 (codes "a") 2 false) 1
        ≡ entry_for 5 (codes "a") ∷ entry_for 3 (codes "b") ∷ entry_for 4 (codes "c") ∷ [] }
    ensures to { entries_at (rename_to four_files 1 (codes "a") 2 1 (codes "x")) 1
        ≡ entry_for 2 (codes "x") ∷ entry_for 3 (codes "b") ∷ entry_for 4 (codes "c") ∷ entry_for 5 (codes "d") ∷ [] }
    ensures replaced { (free_node (rename_over four_files 1 (codes "b") 3 1 (codes "c") 4 false) ≡ Some 4)
        × (links_at (rename_over four_files 1 (codes "b") 3 1 (codes "c") 4 true) 4 ≡ 0) }
{}

/// Directories `/a`, `/a/b` and `/c`: one that moves has its parent where it is then, and none may go below itself.
pub fn a_directory_moves_with_its_parent()
    ensures before { map (parent_at three_directories) (2 ∷ 3 ∷ 4 ∷ []) ≡ 1 ∷ 2 ∷ 1 ∷ [] }
    ensures moved { map (parent_at (rename_to three_directories 2 (codes "b") 3 4 (codes "x"))) (2 ∷ 3 ∷ 4 ∷ []) ≡ 1 ∷ 4 ∷ 1 ∷ [] }
    ensures above { map (is_at_or_above three_directories 2) (1 ∷ 2 ∷ 3 ∷ 4 ∷ []) ≡ false ∷ true ∷ true ∷ false ∷ [] }
{}

/// Paths of a new disk's root, and of the three directories.
pub fn paths_lead_to_these()
    ensures empty { path_fault [] ≡ Some ENOENT }
    ensures long { path_fault (codes "/aaaaaaaaaaaaaaaaaaaaaaaaaaaa") ≡ Some ENAMETOOLONG }
    ensures longest { path_fault (codes "/aaaaaaaaaaaaaaaaaaaaaaaaaaa") ≡ None }
    ensures root { map (λ path. resolve (new_tree 64) 1 path) (codes "/" ∷ codes "." ∷ codes "/." ∷ codes "/.." ∷ codes "//" ∷ [])
        ≡ Node 1 ∷ Node 1 ∷ Node 1 ∷ Node 1 ∷ Node 1 ∷ [] }
    ensures named { map (λ path. resolve three_directories 4 path) (codes "/a/b" ∷ codes "../a//b/" ∷ [])
        ≡ Named 2 (codes "b") 3 false ∷ Named 2 (codes "b") 3 true ∷ [] }
    ensures free { map (λ path. resolve three_directories 4 path) (codes "b" ∷ codes "/a/x/" ∷ [])
        ≡ Free 4 (codes "b") false ∷ Free 2 (codes "x") true ∷ [] }
    ensures faults { map (λ path. resolve three_directories 1 path) (codes "x/y" ∷ codes "x/." ∷ codes "a/x/b" ∷ [])
        ≡ Fail ENOENT ∷ Fail ENOENT ∷ Fail ENOENT ∷ [] }
    ensures files { map (λ path. resolve one_file 1 path) (codes "f/" ∷ codes "f/." ∷ codes "f/x" ∷ [])
        ≡ Fail ENOTDIR ∷ Fail ENOTDIR ∷ Fail ENOTDIR ∷ [] }
{}

/// Calls on paths, one after another: directories `/a` and `/a/b`, a file `/f` with the further name `/g`.
pub fn calls_on_paths_answer_these()
    ensures mkdir { (mkdir_path (new_tree 64) 1 (codes "/a") ≡ Ok (2, with_a)) × (mkdir_path with_a 1 (codes "/a/b/") ≡ Ok (3, with_b)) }
    ensures below { rename_path with_b 1 (codes "/a") (codes "/a/b/c") nowhere nowhere ≡ Err EINVAL }
    ensures opened { open_path with_b 1 (codes "/f") to_write ≡ Ok (4, with_f) }
    ensures linked { link_path with_f 1 (codes "/f") (codes "/g") ≡ Ok with_g }
    ensures one_node { rename_path with_g 1 (codes "/f") (codes "/g") nowhere nowhere ≡ Ok (None, with_g) }
    ensures told { stat_path with_g 1 (codes "/f") ≡ Ok (record { kind = kinds.File; number = 4; nlink = 2; size = 0 }) }
    ensures kinds { (rename_path with_g 1 (codes "/a") (codes "/f") nowhere nowhere ≡ Err ENOTDIR)
        × (rename_path with_g 1 (codes "/f") (codes "/a") nowhere nowhere ≡ Err EISDIR) }
    ensures full { rmdir_path with_g 1 (codes "/a") nowhere ≡ Err ENOTEMPTY }
    ensures slash { unlink_path with_g 1 (codes "/f/") nowhere ≡ Err ENOTDIR }
    ensures root { stat_path (new_tree 64) 1 (codes "/.") ≡ Ok (record { kind = kinds.Dir; number = 1; nlink = 1; size = 64 }) }
    ensures dots { (rmdir_path with_a 1 (codes "/") nowhere ≡ Err EBUSY) × (rmdir_path with_a 1 (codes ".") nowhere ≡ Err EINVAL)
        × (rmdir_path with_a 1 (codes "a/..") nowhere ≡ Err ENOTEMPTY) × (mkdir_path with_a 1 (codes "/") ≡ Err EEXIST) }
{}

/// Files `s`, which begins with the line of the second of two programs, and `b`, which begins with that of none; and what
/// is read of them and of their directory.
pub fn files_are_read_and_started()
    ensures started { exec_path with_script 1 (codes "/s") two_programs ≡ Ok 1 }
    ensures other { (exec_path with_script 1 (codes "/b") two_programs ≡ Err ENOEXEC) × (exec_path with_script 1 (codes "/") two_programs ≡ Err EACCES)
        × (exec_path with_script 1 (codes "/x") two_programs ≡ Err ENOENT) }
    ensures read { (read_node with_script 2 2 4 ≡ codes "sh\nx") × (read_node with_script 2 5 9 ≡ codes "x") × (read_node with_script 2 6 9 ≡ []) }
    ensures listed { list_node (new_tree 16) 1 32 63 ≡ 0 ∷ 0 ∷ 0 ∷ 1 ∷ 2 ∷ 46 ∷ 46 ∷ replicate 25 0 }
    ensures ended { list_node (new_tree 16) 1 64 32767 ≡ [] }
{}
