//! A change of one field leaves what the others tell.

ghost use Rattle.std.specs.Prelude.{◌≡◌, ◌≢◌, ◌<◌, ◌≤◌, ◌+◌, ◌*◌, List, ℕ, length};
ghost use Rattle.ct_page.specs.Fields.{with_u64};
ghost use Rattle.ct_page.specs.Headers.{IsPage, with_position};
ghost use Rattle.ct_dir.specs.Directory.{page_count, file_count, file_page, with_page_count, with_file};
ghost use Rattle.ct_dir.specs.DefinitionPage.{map_place, root_place, leaf_place, first_map_of, root_of, first_leaf_of};
ghost use Rattle.ct_dir.specs.MapPage.{entry_count, entry_at, with_block};
ghost use Rattle.ct_dir.specs.Grammar.{is_directory_page, is_definition_page, is_map_page};
ghost use Rattle.ct_dir.specs.declared.map.MapEntry.{MapEntry};

/// The count of pages and the files of a directory.
pub fn directory_fields_are_apart()
    ensures files { (count file : ℕ) (page : List ℕ) → length page ≡ 4096 → file_page (with_page_count count page) file ≡ file_page page file }
    ensures pages { (definition : ℕ) (page : List ℕ) → length page ≡ 4096 → file_count page < 256
        → page_count (with_file definition page) ≡ page_count page }
    ensures other_files { (definition file : ℕ) (page : List ℕ) → length page ≡ 4096 → file_count page < 256 → file < file_count page
        → file_page (with_file definition page) file ≡ file_page page file }
{}

/// The fields of a definition page.
pub fn definition_fields_are_apart()
    ensures root_roots { (root other index len : ℕ) (page : List ℕ) → length page ≡ 4096 → root_place len index + 8 ≤ 4096 → other ≢ index
        → root_of (with_u64 (root_place len index) root page) len other ≡ root_of page len other }
    ensures root_leaves { (root other index len : ℕ) (page : List ℕ) → length page ≡ 4096 → root_place len index + 8 ≤ 4096
        → first_leaf_of (with_u64 (root_place len index) root page) len other ≡ first_leaf_of page len other }
    ensures root_map { (root index len : ℕ) (page : List ℕ) → length page ≡ 4096 → root_place len index + 8 ≤ 4096
        → first_map_of (with_u64 (root_place len index) root page) len ≡ first_map_of page len }
    ensures leaf_leaves { (leaf other index len : ℕ) (page : List ℕ) → length page ≡ 4096 → leaf_place len index + 8 ≤ 4096 → other ≢ index
        → first_leaf_of (with_u64 (leaf_place len index) leaf page) len other ≡ first_leaf_of page len other }
    ensures leaf_roots { (leaf other index len : ℕ) (page : List ℕ) → length page ≡ 4096 → leaf_place len index + 8 ≤ 4096
        → root_of (with_u64 (leaf_place len index) leaf page) len other ≡ root_of page len other }
    ensures leaf_map { (leaf index len : ℕ) (page : List ℕ) → length page ≡ 4096 → leaf_place len index + 8 ≤ 4096
        → first_map_of (with_u64 (leaf_place len index) leaf page) len ≡ first_map_of page len }
    ensures map_roots { (map other len : ℕ) (page : List ℕ) → length page ≡ 4096 → map_place len + 8 ≤ 4096
        → root_of (with_u64 (map_place len) map page) len other ≡ root_of page len other }
    ensures map_leaves { (map other len : ℕ) (page : List ℕ) → length page ≡ 4096 → map_place len + 8 ≤ 4096
        → first_leaf_of (with_u64 (map_place len) map page) len other ≡ first_leaf_of page len other }
{}

/// The entries of a map page.
pub fn map_entries_are_apart()
    ensures { (at other : ℕ) (entry : MapEntry) (page : List ℕ) → length page ≡ 4096 → at < 396 → other ≢ at
        → entry_at other (with_block at entry page) ≡ entry_at other page }
{}

/// A page with another position tells the same.
pub fn positions_keep_fields()
    ensures pages { (position : ℕ) (page : List ℕ) → IsPage page → page_count (with_position position page) ≡ page_count page }
    ensures files { (position : ℕ) (page : List ℕ) → IsPage page → file_count (with_position position page) ≡ file_count page }
    ensures file { (position file : ℕ) (page : List ℕ) → IsPage page → file_page (with_position position page) file ≡ file_page page file }
    ensures map { (position len : ℕ) (page : List ℕ) → IsPage page → first_map_of (with_position position page) len ≡ first_map_of page len }
    ensures root { (position len index : ℕ) (page : List ℕ) → IsPage page → root_of (with_position position page) len index ≡ root_of page len index }
    ensures leaf { (position len index : ℕ) (page : List ℕ) → IsPage page → first_leaf_of (with_position position page) len index ≡ first_leaf_of page len index }
    ensures entries { (position : ℕ) (page : List ℕ) → IsPage page → entry_count (with_position position page) ≡ entry_count page }
    ensures entry { (position at : ℕ) (page : List ℕ) → IsPage page → entry_at at (with_position position page) ≡ entry_at at page }
{}

/// A page with another position is of its kind where it was, and nowhere else.
pub fn positions_keep_pages()
    ensures directory { (position : ℕ) (page : List ℕ) → IsPage page → is_directory_page (with_position position page) ≡ is_directory_page page }
    ensures definition { (position len : ℕ) (page : List ℕ) → IsPage page → is_definition_page len (with_position position page) ≡ is_definition_page len page }
    ensures map { (position : ℕ) (page : List ℕ) → IsPage page → is_map_page (with_position position page) ≡ is_map_page page }
{}
