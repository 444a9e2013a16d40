//! Laws of records, which hold for records in memory, on a disc and in a dump.
ghost use Rattle.std.specs.Prelude.{◌≡◌, ◌≢◌, ◌+◌, ◌^◌, ◌<◌, ◌≤◌, ◌==◌, ◌&&◌, not, nat_le, is_none, ℕ, List, [], ◌∷◌, ◌++◌, Contains, Some, None, length, slice_set, unwrap_or};
ghost use Rattle.std.specs.Option.{option_map};
ghost use Rattle.std.specs.FinMap.{get, insert, len};
ghost use Rattle.g_name.specs.declared.full.Full.{Full};
ghost use Rattle.g_name.specs.Order.{same_text};
ghost use Rattle.g_trap.specs.TrapList.{modes_of, is_ninth, with_modes as with_numbered};
ghost use Rattle.g_entry.specs.declared.user_rec.UserRec.{UserRec};
ghost use Rattle.g_entry.specs.declared.file_rec.FileRec.{FileRec};
ghost use Rattle.g_entry.specs.Rules.{StampsBelow};
ghost use Rattle.g_plain.specs.declared.calls.StoreCall.{StoreCall};
ghost use Rattle.g_plain.specs.PlainStep.{fault_of};
ghost use Rattle.g_plain.specs.PlainTree.{with_modes, user_row};
ghost use Rattle.g_plain.specs.Rules.{IsTree};
ghost use Rattle.g_tree.specs.Records.{IsRecords, HasLengths, name_of, full_of, traps_named, user_row_of, file_row_of, tree_of, users_by_name, by_name, by_number, number_of, user_number};
ghost use Rattle.g_tree.specs.State.{with_file, without_file, without_number};

/// Records that satisfy their rules represent a tree that satisfies its rules, with as many users and files.
pub fn records_make_a_tree()
    ensures rules { (users : List UserRec) (files : List FileRec) (bytes : FileRec → List ℕ)
        (next : ℕ)
        → IsRecords users files → StampsBelow next files → HasLengths files bytes
        → 1 ≤ next → next ≤ 2 ^ 62 → IsTree (tree_of users files bytes next) }
    ensures users { (users : List UserRec) (files : List FileRec) (bytes : FileRec → List ℕ)
        (next : ℕ)
        → IsRecords users files → len (tree_of users files bytes next).users ≡ length users }
    ensures files { (users : List UserRec) (files : List FileRec) (bytes : FileRec → List ℕ)
        (next : ℕ)
        → IsRecords users files → len (tree_of users files bytes next).files ≡ length files }
{}

/// The rows of the tree are those of the records, for each way of finding these.
pub fn rows_are_of_records()
    ensures users { (users : List UserRec) (files : List FileRec) (bytes : FileRec → List ℕ)
        (next : ℕ) (name : List ℕ)
        → get (tree_of users files bytes next).users name
        ≡ option_map (user_row_of users) (get (users_by_name users) name) }
    ensures files { (users : List UserRec) (files : List FileRec) (bytes : FileRec → List ℕ)
        (next : ℕ) (full : Full)
        → get (tree_of users files bytes next).files full
        ≡ option_map (file_row_of users bytes) (get (by_name users files) full) }
    ensures named { (users : List UserRec) (files : List FileRec) (full : Full) (r : FileRec)
        → get (by_name users files) full ≡ Some r → full_of users r ≡ full }
    ensures numbered { (users : List UserRec) (files : List FileRec) (full : Full) (number : ℕ)
        → IsRecords users files → number_of users files full ≡ Some number
        → get (by_number files) number ≡ get (by_name users files) full }
{}

/// Looking up by number and by name agree, for users, owners of files and superiors.
pub fn users_go_by_name()
    ensures same { (users : List UserRec) (files : List FileRec) (i j : ℕ)
        → IsRecords users files → j < length users
        → same_text (name_of users i) (name_of users j) ≡ (i == j) }
    ensures number { (users : List UserRec) (files : List FileRec) (user : ℕ)
        → IsRecords users files → user < length users
        → user_number users (name_of users user) ≡ Some user }
    ensures owner { (users : List UserRec) (files : List FileRec) (r : FileRec) (who : ℕ)
        → IsRecords users files → Contains files r
        → same_text (name_of users who) (full_of users r).user ≡ (who == r.owner) }
    ensures superior { (users : List UserRec) (files : List FileRec) (bytes : FileRec → List ℕ)
        (next : ℕ) (u : UserRec) (who : ℕ)
        → IsRecords users files → Contains users u
        → same_text (user_row (tree_of users files bytes next) u.user).superior (name_of users who)
        ≡ (u.superior == who) }
{}

/// The traps of a file by users' numbers agree with those by users' names.
pub fn traps_go_by_name()
    ensures modes { (users : List UserRec) (files : List FileRec) (r : FileRec) (user : ℕ)
        → IsRecords users files → Contains files r
        → unwrap_or (get (traps_named users r.owner r.traps) (name_of users user)) 0
        ≡ modes_of r.traps r.owner user }
    ensures count { (users : List UserRec) (files : List FileRec) (r : FileRec)
        → IsRecords users files → Contains files r
        → len (traps_named users r.owner r.traps) ≡ length r.traps.others + 1 }
    ensures ninth { (users : List UserRec) (files : List FileRec) (r : FileRec) (user modes : ℕ)
        → IsRecords users files → Contains files r
        → let traps = traps_named users r.owner r.traps in
        (not (modes == 0) && is_none (get traps (name_of users user)) && nat_le 9 (len traps))
        ≡ (not (user == r.owner) && is_ninth r.traps.others user modes) }
    ensures changed { (users : List UserRec) (files : List FileRec) (r : FileRec) (user modes : ℕ)
        → IsRecords users files → Contains files r → user < length users
        → with_modes (full_of users r) (name_of users user) modes
        (traps_named users r.owner r.traps)
        ≡ traps_named users r.owner (with_numbered r.traps r.owner user modes) }
{}

/// How the tree changes with its records.
pub fn records_change_the_tree()
    ensures added_user { (users : List UserRec) (files : List FileRec) (bytes : FileRec → List ℕ)
        (next : ℕ) (u : UserRec)
        → IsRecords users files → IsRecords (users ++ u ∷ []) files
        → let t = tree_of users files bytes next in
        tree_of (users ++ u ∷ []) files bytes next
        ≡ record t { users = insert t.users u.user (user_row_of users u) } }
    ensures set_user { (users : List UserRec) (files : List FileRec) (bytes : FileRec → List ℕ)
        (next : ℕ) (u : UserRec)
        → u.number < length users → name_of users u.number ≡ u.user
        → IsRecords (slice_set users u.number u) files
        → let t = tree_of users files bytes next in
        tree_of (slice_set users u.number u) files bytes next
        ≡ record t { users = insert t.users u.user (user_row_of users u) } }
    ensures put { (users : List UserRec) (files : List FileRec) (bytes : FileRec → List ℕ)
        (next : ℕ) (r : FileRec)
        → IsRecords users files → IsRecords users (with_file r files)
        → let t = tree_of users files bytes next in
        tree_of users (with_file r files) bytes next
        ≡ record t {
          files = insert (without_number users files r.number t.files) (full_of users r)
              (file_row_of users bytes r);
        } }
    ensures put_same_name { (users : List UserRec) (files : List FileRec)
        (bytes : FileRec → List ℕ) (next : ℕ) (r : FileRec)
        → IsRecords users files → IsRecords users (with_file r files)
        → number_of users files (full_of users r) ≡ Some r.number
        → let t = tree_of users files bytes next in
        tree_of users (with_file r files) bytes next
        ≡ record t { files = insert t.files (full_of users r) (file_row_of users bytes r) } }
    ensures erased { (users : List UserRec) (files : List FileRec) (bytes : FileRec → List ℕ)
        (next number : ℕ)
        → IsRecords users files → let t = tree_of users files bytes next in
        tree_of users (without_file number files) bytes next
        ≡ record t { files = without_number users files number t.files } }
{}

/// Of the bytes of files, the tree depends only on those of its records.
pub fn bytes_go_by_record()
    ensures same_bytes { (users : List UserRec) (files : List FileRec) (old new : FileRec → List ℕ)
        (next : ℕ)
        → ((r : FileRec) → Contains files r → new r ≡ old r)
        → tree_of users files new next ≡ tree_of users files old next }
    ensures other_bytes { (users : List UserRec) (files : List FileRec)
        (old new : FileRec → List ℕ) (next : ℕ) (r : FileRec)
        → IsRecords users files → Contains files r
        → ((s : FileRec) → Contains files s → s.number ≢ r.number → new s ≡ old s)
        → let t = tree_of users files old next in
        tree_of users files new next ≡ record t {
          files = insert t.files (full_of users r)
              (file_row_of users new r);
        } }
{}

/// Whether and why a call is refused depends on the lengths of files, but not on their bytes.
pub fn refusals_go_by_length()
    ensures { (users : List UserRec) (files : List FileRec) (bytes other : FileRec → List ℕ)
        (next : ℕ) (who : List ℕ) (call : StoreCall)
        → IsRecords users files → HasLengths files bytes → HasLengths files other
        → fault_of (tree_of users files bytes next) who call
        ≡ fault_of (tree_of users files other next) who call }
{}
