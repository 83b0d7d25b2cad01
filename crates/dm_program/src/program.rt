//! What a unit defines, by number.

ghost use Rattle.std.specs.Prelude.{◌≡◌, All, IfOk, MatchOption, None, Some, IsTrue, length, map};
ghost use Rattle.dm_meaning.specs.Programs as programs;
ghost use Rattle.dm_meaning.specs.Units as units;
ghost use Rattle.dm_type.specs.Tables.{Has, IsId};
ghost use Rattle.dm_tree.specs.TypeNumbers as numbers;
ghost use Rattle.dm_tree.specs.TypeNumbers.{are_known, IsTypedUnit};
ghost use Rattle.dm_tree.specs.Views.{view, view_of_declared};
ghost use Rattle.dm_program.specs.Functions.{view_of_function, FunctionFits};
ghost use Rattle.dm_program.specs.Sources.{meant};
ghost use Rattle.dm_program.specs.Statics.{view_of_static, StaticFits};

use crate::definitions::{functions, main_of};
use crate::fixed::Static;
use crate::function::Function;
use crate::statics::statics;
use dm_layout::Layout;
use dm_token::Memory;
use dm_tree::{Core, CoreUnit, Declared, constant};
use dm_type::{TypeId, Types};
use dm_value::nth;
use std::alloc::Global;
use std::marker::Model;

/// The program of a unit that defines `main`. Contracts see the unit and its types.
#[derive(Drop)]
pub struct Program<'a> {
    unit: &'a CoreUnit,
    layout: Layout<'a>,
    /// By the numbers of their declarations.
    functions: Vec<Option<Function<'a>>>,
    statics: Vec<Static<'a>>,
    main: Function<'a>,
}

impl<'a> Model for Program<'a> {
    ghost use Rattle.std.specs.Coded.{codes};
    ghost use Rattle.dm_tree.specs.contracts.tree.Core as core;
    ghost use Rattle.dm_tree.specs.contracts.tree.Initial as initial;
    ghost use Rattle.dm_tree.specs.contracts.tree.Local as local;
    ghost use Rattle.dm_program.specs.Sources.{Source};
    ghost use Rattle.dm_program.specs.Tables.{AreTables};

    ghost Value = { Source };

    ghost coded = { Prim.hlevel (codes, core.the_row.coded, initial.the_row.coded, local.the_row.coded) };

    ghost view = { λ program. record { table = program.layout; unit = program.unit.now } };

    ghost invariant = { λ program. AreTables (record { table = program.layout; unit = program.unit.now }) program.functions.items program.statics.items program.main };
}

impl<'a> Program<'a> {
    /// The program of a typed unit. None exactly where the unit defines no `main`. In linear time, but for the layout of structs.
    pub fn of(
        alloc: Global,
        unit: &'a CoreUnit,
        types: &'a Types,
    ) -> Result<Option<Program<'a>>, Memory>
        requires { IsTypedUnit types.now unit.now }
        ensures { IfOk result (λ made. MatchOption made (units.main_of (meant (record { table = types.now; unit = unit.now })) ≡ None) (λ program. program ≡ record { table = types.now; unit = unit.now })) }
    {
        let Some(main) = main_of(unit) else {
            return Ok(None);
        };
        let layout = Layout::of(alloc, types)?;
        let functions = functions(alloc, unit)?;
        let statics = statics(alloc, unit)?;
        Ok(Some(Program {
            unit,
            layout,
            functions,
            statics,
            main,
        }))
    }

    /// How its types are laid out.
    pub fn layout(&self) -> &Layout<'a>
        ensures { result.now ≡ self.now.table }
    {
        &self.layout
    }

    /// The declaration of a number.
    pub fn declared(&self, number: u32) -> Option<&'a Declared>
        ensures { MatchOption result (programs.declaration_of (meant self.now) number ≡ None)
            (λ entry. (programs.declaration_of (meant self.now) number ≡ Some (view_of_declared self.now.table entry.now)) × IsId self.now.table entry.now.kind) }
    {
        nth(self.unit.declared.items(), number as usize)
    }

    /// The definition of a function, if the program has one.
    pub fn function(&self, number: u32) -> Option<Function<'a>>
        ensures { MatchOption result (programs.definition_of (meant self.now) number ≡ None)
            (λ function. (programs.definition_of (meant self.now) number ≡ Some (view_of_function self.now.table function)) × FunctionFits self.now function) }
    {
        match nth(self.functions.as_slice(), number as usize) {
            Some(function) => *function,
            None => None,
        }
    }

    /// The definition of `main`.
    pub fn main(&self) -> Function<'a>
        ensures main { units.main_of (meant self.now) ≡ Some (view_of_function self.now.table result) }
        ensures fits { FunctionFits self.now result }
    {
        self.main
    }

    /// The objects of static storage duration, in order.
    pub fn statics(&self) -> &[Static<'a>]
        ensures same { map (view_of_static self.now.table) result.now ≡ (meant self.now).statics }
        ensures fit { All (StaticFits self.now) result.now }
    {
        self.statics.as_slice()
    }

    /// The type of the object to which `argv` points at the beginning of a run.
    pub fn argv_kind(&self) -> TypeId
        ensures { Has self.now.table result numbers.argv_kind }
    {
        self.unit.argv
    }

    /// The value of an integer constant expression (6.6p6).
    pub fn constant(&self, tree: &Core) -> Option<i128>
        requires { IsTrue (are_known (length self.now.table.shapes) tree.now) }
        ensures { result ≡ programs.constant_of (meant self.now) (view self.now.table tree.now) }
    {
        constant(tree, &self.unit.declared, self.layout.types())
    }
}
