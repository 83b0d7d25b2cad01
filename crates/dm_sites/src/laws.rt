//! What the definitions that the contracts cite mean.

ghost use Rattle.std.specs.Prelude.{◌≡◌, ℕ, false, Some, slice_get};
ghost use Rattle.dm_tree.specs.Paths.{tree_at};
ghost use Rattle.dm_tree.specs.Trees.{is_statement, label_of};
ghost use Rattle.dm_tree.specs.Units.{TypedUnit};
ghost use Rattle.dm_sites.specs.Sites.{Site as SeenSite, sites_of_unit};

/// The tree at a place is an expression, to which the way from the full expression leads.
pub fn places_of_expressions()
    ensures leads { (one : TypedUnit) (n : ℕ) (site : SeenSite) → slice_get (sites_of_unit one) n ≡ Some site → tree_at site.path site.full ≡ Some site.tree }
    ensures expression { (one : TypedUnit) (n : ℕ) (site : SeenSite) → slice_get (sites_of_unit one) n ≡ Some site → is_statement (label_of site.tree) ≡ false }
{}
