//! What holds of searches.
ghost use Rattle.std.specs.Prelude.{ℕ, Bool, List, Option, Some, Ok, IsTrue};
ghost use Rattle.std.specs.List.{list_all};
ghost use Rattle.dm_token.specs.Names.{is_normal_name};
ghost use Rattle.dm_io.specs.Files.{Files};
ghost use Rattle.dm_token.specs.declared.stop.Refusal.{Refusal};
ghost use Rattle.dm_search.specs.Joining.{candidates, places};
ghost use Rattle.dm_search.specs.Loaded.{Loaded};
ghost use Rattle.dm_search.specs.Readable.{IsReadable, IsRefusedAs};
ghost use Rattle.dm_search.specs.Searching.{Finds};
ghost use Rattle.dm_search.specs.CallFiles.{FindsFirst};

use dm_lex::one_cut;

/// A search looks only for normal names, so nothing outside the folder.
pub fn searched_names_are_normal()
    ensures { (name from : List ℕ) (quoted : Bool) (include : List (List ℕ)) →
        IsTrue (list_all is_normal_name (candidates name (places from quoted include))) }
{}

/// Where the folder tells its files, a search that doesn't stop finds the first of its names that has a file in the
/// call, and where none has one the built-in header, if any.
pub fn the_first_file_is_found()
    ensures { (files : Files) (header : Option ℕ) (names : List (List ℕ)) (old new : Loaded) (found : Option ℕ) →
        Finds (Some files) header names old (Ok found) new → FindsFirst files header names old found }
{}

/// Bytes that can be read are never refused.
pub fn readable_bytes_are_not_refused()
    ensures { (file : ℕ) (bytes : List ℕ) (refusal : Refusal) → IsReadable file bytes → IsRefusedAs file bytes refusal → ⊥ }
{
    one_cut();
}
