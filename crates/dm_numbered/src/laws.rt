//! What the names of each typed unit mean, and so those of each reading.

ghost use Rattle.std.specs.Prelude.{◌≡◌, List, map};
ghost use Rattle.dm_token.specs.declared.token.CToken.{CToken};
ghost use Rattle.dm_type.specs.declared.shape.Shape.{Shape};
ghost use Rattle.dm_syn.specs.Trees.{External};
ghost use Rattle.dm_syn.specs.Views as view;
ghost use Rattle.dm_tree.specs.Units.{TypedUnit};
ghost use Rattle.dm_tree.specs.Views.{view_of_unit};
ghost use Rattle.dm_names.specs.Declarations.{source_of};
ghost use Rattle.dm_names.specs.Meanings.{identifiers_of};
ghost use Rattle.dm_typing.specs.Known.{Known, given};
ghost use Rattle.dm_edecl.specs.Units.{typed_unit};
ghost use Rattle.dm_reading.specs.declared.reading.Reading.{Reading};
ghost use Rattle.dm_reading.specs.Layered.{IsLayered};
ghost use Rattle.dm_reading.specs.Syntax.{IsSyntax};
ghost use Rattle.dm_numbered.specs.Numbered.{AreMeant, ArePlainTokens};

/// Where a tree of a typed unit names an object, a function or an enumerator by its number, the names of the unit give the identifier there
/// that number. Its tokens are such as 6.4.2.1 has them: no identifier begins with `#`.
pub fn units_mean_what_they_name()
    ensures { (shapes : List Shape) (tokens : List CToken) (externals : List External) (known : Known) (one : TypedUnit) →
        IsSyntax tokens externals → typed_unit shapes tokens externals ≡ given known one → ArePlainTokens tokens
        → AreMeant (identifiers_of (source_of tokens one) externals) one.externals }
{}

/// So it is of each reading.
pub fn readings_mean_what_they_name()
    ensures { (reading : Reading) → IsLayered reading → ArePlainTokens reading.tokens →
        AreMeant (identifiers_of (source_of reading.tokens (view_of_unit reading.types reading.core)) (map view.external reading.syntax)) (view_of_unit reading.types reading.core).externals }
{}
