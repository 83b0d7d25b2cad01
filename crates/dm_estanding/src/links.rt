//! The declarations of what has linkage, summed up (6.2.2, 6.2.7).

ghost use Rattle.std.specs.Prelude.{◌≡◌, ℕ, true, List, [], OnOk, IfOk, IfSome, None, option_map, slice_get};
ghost use Rattle.dm_type.specs.declared.shape.Shape.{Shape as OneShape};
ghost use Rattle.dm_type.specs.CTypes.{CType};
ghost use Rattle.dm_type.specs.Tables.{IsId};
ghost use Rattle.dm_scope.specs.Scopes.{number_of};
ghost use Rattle.dm_tree.specs.Units.{Declaration};
ghost use Rattle.dm_typing.specs.Views.{Begins, type_over, Grows};
ghost use Rattle.dm_edecl.specs.Standing.{Linked};
ghost use Rattle.dm_edecl.specs.Linkages as linkages;
ghost use Rattle.dm_edecl.specs.Settled.{IsBound, AreProperLinks};
ghost use Rattle.dm_estanding.specs.Kinds.{HaveKinds, whole_in};
ghost use Rattle.dm_estanding.specs.Summaries.{IsComposite, IsAdded, Summarises};
ghost use Rattle.dm_estanding.specs.declared.links.Whole.{Whole as OneWhole};

use dm_scope::Scopes;
use dm_token::{Memory, Text};
use dm_type::TypeId;
use dm_typing::Known;
use std::alloc::Global;
use std::collections::HashMap;

/// What all declarations of an entry say together.
#[derive(Clone, Copy)]
pub struct Whole {
    /// The composite type of all.
    pub kind: TypeId,
    /// Whether one of them is a definition.
    pub defines: bool,
}

/// The declarations of what has linkage, in whatever scope, summed up: which entry a name has, and what its declarations
/// say together. A look-up walks no declarations.
#[derive(Drop)]
pub struct Links {
    /// The number of the entry of each name.
    pub(crate) names: Scopes,
    pub(crate) wholes: HashMap<u32, Whole>,
}

impl Links {
    /// No declarations.
    pub fn new(alloc: Global) -> Result<Links, Memory>
        ensures summary { IfOk result (λ links. (later : List OneShape) (declared : List Declaration) → Summarises later links declared []) }
        ensures kinds { IfOk result (λ links. (number : ℕ) → whole_in links number ≡ None) }
    {
        Ok(Links {
            names: Scopes::new(alloc)?,
            wholes: HashMap::new(alloc),
        })
    }

    /// The number of the entry with linkage of a name.
    pub fn number(&self, name: &Text) -> Option<u32>
        ensures number { result ≡ number_of self.now.names name.now }
        ensures shared { (later : List OneShape) (declared : List Declaration) (linked : List Linked) → Summarises later self.now declared linked
            → result ≡ linkages.number_linked name.now declared linked }
    {
        self.names.resolve(name)
    }

    /// What the declarations of an entry say together, if it has linkage.
    pub fn whole(&self, number: u32) -> Option<Whole>
        ensures whole { result ≡ whole_in self.now number }
        ensures kind { (later : List OneShape) (declared : List Declaration) (linked : List Linked) → Summarises later self.now declared linked
            → option_map (λ (whole : OneWhole). type_over later whole.kind) result ≡ linkages.whole_kind number linked }
    {
        self.wholes.get(&number).copied()
    }

    /// Whether the entry is defined, a tentative definition apart.
    pub fn is_defined(&self, number: u32) -> bool
        ensures { (later : List OneShape) (declared : List Declaration) (linked : List Linked) → Summarises later self.now declared linked
            → result ≡ linkages.is_defined number linked }
    {
        match self.whole(number) {
            Some(whole) => whole.defines,
            None => false,
        }
    }

    /// One declaration more of an entry of this name, which agrees with the others.
    pub fn add(
        &mut self,
        known: &mut Known,
        name: &Text,
        number: u32,
        kind: TypeId,
        defines: bool,
    ) -> Result<(), Memory>
        requires kind { IsId known.old.types kind }
        requires kinds { HaveKinds known.old.types self.old }
        ensures summary { OnOk result ((later : List OneShape) → Begins known.new.types.shapes later → (declared : List Declaration) (linked : List Linked) → Summarises later self.old declared linked
            → linkages.is_called name.now (slice_get declared number) ≡ true
            → IfSome (linkages.number_linked name.now declared linked) (λ other. other ≡ number)
            → AreProperLinks (linkages.with_link number (type_over later kind) defines linked)
            → (bound : CType) → IsBound bound number (linkages.with_link number (type_over later kind) defines linked)
            → Summarises later self.new declared (linkages.with_link number (type_over later kind) defines linked)) }
        ensures kinds { HaveKinds known.new.types self.new }
        ensures grows { Grows known.old known.new }
    {
        let whole = added(known, self.whole(number), kind, defines)?;
        let _new = self.names.declare(name, number)?;
        self.wholes.insert(number, whole)?;
        Ok(())
    }
}

/// The composite type of two types (6.2.7p3), or the first where they aren't compatible.
pub fn composite(known: &mut Known, a: TypeId, b: TypeId) -> Result<TypeId, Memory>
    requires left { IsId known.old.types a }
    requires right { IsId known.old.types b }
    ensures number { IfOk result (IsComposite known.new.types.shapes a b) }
    ensures grows { Grows known.old known.new }
{
    if !known.types.compatible(a, b) {
        return Ok(a);
    }
    let id = known.types.composite(a, b)?;
    Ok(id)
}

/// What the declarations of an entry say together with one more.
fn added(
    known: &mut Known,
    whole: Option<Whole>,
    kind: TypeId,
    defines: bool,
) -> Result<Whole, Memory>
    requires kind { IsId known.old.types kind }
    requires kinds { IfSome whole (λ one. IsId known.old.types one.kind) }
    ensures made { IfOk result (IsAdded known.new.types.shapes whole kind defines) }
    ensures grows { Grows known.old known.new }
{
    match whole {
        None => Ok(Whole { kind, defines }),
        Some(whole) => {
            let kind = composite(known, whole.kind, kind)?;
            Ok(Whole {
                kind,
                defines: whole.defines || defines,
            })
        }
    }
}
