//! What tokens of a unit come to is one.

ghost use Rattle.std.specs.Prelude.{List, Result};
ghost use Rattle.dm_token.specs.declared.stop.Stop.{Stop};
ghost use Rattle.dm_token.specs.declared.token.CToken.{CToken};
ghost use Rattle.dm_token.specs.declared.token.Token.{Token};
ghost use Rattle.dm_syn.specs.Trees.{External};
ghost use Rattle.dm_type.specs.Tables.{Table};
ghost use Rattle.dm_tree.specs.declared.unit.CoreUnit.{CoreUnit};
ghost use Rattle.dm_reading.specs.declared.reading.Layers.{Layers};
ghost use Rattle.dm_reading.specs.Elaborated.{Elaborates};
ghost use Rattle.dm_reading.specs.Layered.{HasLayers};
ghost use Rattle.dm_outcome.specs.Outcomes.{AreOneOutcome, AreOneLayers};

use dm_reading::{no_refusal_of_syntax, one_refusal, one_syntax};

/// A unit has one typed unit at most, whatever numbers its types have, and is refused for one rule at one place at most; and
/// what has a typed unit is not refused.
pub fn one_outcome()
    ensures { (tokens : List CToken) (externals : List External) (one other : Result (CoreUnit × Table) Stop) →
        Elaborates tokens externals one → Elaborates tokens externals other → AreOneOutcome one other }
{}

/// The tokens that phase 4 gives come to the same tokens of phase 7, the same syntax and the same typed unit, or to the same
/// refusal, in each reading.
pub fn one_reading()
    ensures { (tokens : List Token) (one other : Result Layers Stop) → HasLayers tokens one → HasLayers tokens other → AreOneLayers one other }
{
    // The laws on which its proof rests.
    one_syntax();
    one_refusal();
    no_refusal_of_syntax();
}
