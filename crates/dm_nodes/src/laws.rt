//! Where the trees of a typed unit stand.

ghost use Rattle.std.specs.Prelude.{◌≡◌, List, map};
ghost use Rattle.dm_token.specs.declared.token.CToken.{CToken};
ghost use Rattle.dm_type.specs.declared.shape.Shape.{Shape};
ghost use Rattle.dm_syn.specs.Trees.{External};
ghost use Rattle.dm_syn.specs.Views as view;
ghost use Rattle.dm_tree.specs.Units.{TypedUnit};
ghost use Rattle.dm_tree.specs.Views.{view_of_unit};
ghost use Rattle.dm_typing.specs.Known.{Known, given};
ghost use Rattle.dm_edecl.specs.Units.{typed_unit, unit_setting};
ghost use Rattle.dm_reading.specs.declared.reading.Reading.{Reading};
ghost use Rattle.dm_reading.specs.Layered.{IsLayered};
ghost use Rattle.dm_nodes.specs.Nodes.{AreOf};

/// The external declarations of a typed unit are those of its syntax, one for each in their order and with its span, and each node of their
/// trees has the tokens, without and with all parentheses, of a node of that external declaration.
pub fn units_stand_where_their_syntax_does()
    ensures { (shapes : List Shape) (tokens : List CToken) (externals : List External) (known : Known) (one : TypedUnit) →
        typed_unit shapes tokens externals ≡ given known one → AreOf (unit_setting tokens externals).source externals one.externals }
{}

/// So it is of each reading.
pub fn readings_stand_where_their_syntax_does()
    ensures { (reading : Reading) → IsLayered reading →
        AreOf (unit_setting reading.tokens (map view.external reading.syntax)).source (map view.external reading.syntax) (view_of_unit reading.types reading.core).externals }
{}
