//! Declarators (6.7.6, 6.7.7), read from left to right.

ghost use Rattle.std.specs.Prelude.{◌≡◌, ◌+◌, ◌≤◌, ℕ, List, Option, Some, IfOk, length, map};
ghost use Rattle.dm_token.specs.Limits.{greatest_height};
ghost use Rattle.dm_syn.specs.declared.declared.Declared.{Declared};
ghost use Rattle.dm_syn.specs.Trees as tree;
ghost use Rattle.dm_syn.specs.Views as view;
ghost use Rattle.dm_pexpr.specs.Parsing.{lower, core as meant_core, suffixed as meant_suffixed, array_of, function_of, parameters_of, parameter_of, more_parameters as meant_more, all_turns, and_then, prepend_parameter};
ghost use Rattle.dm_pexpr.specs.Shapes.{shape_of};
ghost use Rattle.dm_pexpr.specs.Parts.{source_of, Gives, IsPart, a_declarator, a_direct, a_parameter, parameters_from, behind_all, direct_from};

use crate::part::{Part, begun, joined};
use crate::reader::Reader;
use crate::scope::Scope;
use crate::shape::Shape;
use crate::typenodes::{named, nothing};
use dm_syn::{Declarator, Direct, Parameter, Symbol};
use dm_token::{GREATEST_HEIGHT, List, Memory};

impl Reader<'_> {
    /// The declarator at a position, if there is one of this shape whose parts nest no deeper.
    #[cycle(reading)]
    pub fn declarator(
        &self,
        scope: &mut Scope,
        at: u32,
        shape: Shape,
        depth: u32,
    ) -> Result<Option<Part<Declarator>>, Memory>
        requires { at ≤ length self.now.tokens.now }
        ensures { IfOk result (λ found. Gives (a_declarator (source_of self.now)) (source_of self.now) scope.old scope.new found ((lower (source_of self.now) depth).declarator (shape_of shape) scope.old at)) }
    {
        if depth == 0 {
            return Ok(None);
        }
        let (pointers, start) = self.pointers(scope, at)?;
        let core = self.core(scope, start, shape, depth - 1)?;
        let direct = self.suffixed(scope, core, depth - 1)?;
        Ok(self.declarator_node(scope, at, pointers, direct))
    }

    // The innermost part of a declarator, behind its pointers.
    #[cycle(reading)]
    fn core(
        &self,
        scope: &mut Scope,
        at: u32,
        shape: Shape,
        depth: u32,
    ) -> Result<Option<Part<Direct>>, Memory>
        requires { at ≤ length self.now.tokens.now }
        ensures { IfOk result (λ found. Gives (a_direct (source_of self.now) at) (source_of self.now) scope.old scope.new found (meant_core (source_of self.now) (lower (source_of self.now) depth) (shape_of shape) scope.old at)) }
    {
        if let Some(after) = self.behind_name(scope, at, shape) {
            return Ok(Some(named(at, after)));
        }
        match self.behind_enclosing(scope, at, shape) {
            Some(next) => {
                let inner = self.declarator(scope, next, shape, depth)?;
                self.enclosed_declarator(scope, inner)
            }
            None => Ok(nothing(shape, at)),
        }
    }

    // A declarator with all arrays and functions behind its innermost part.
    #[cycle(reading)]
    fn suffixed(
        &self,
        scope: &mut Scope,
        core: Option<Part<Direct>>,
        depth: u32,
    ) -> Result<Option<Part<Direct>>, Memory>
        ensures { (before : List Declared) (start : ℕ) (wanted : Option tree.Direct) → Gives (a_direct (source_of self.now) start) (source_of self.now) before scope.old core wanted
            → IfOk result (λ found. Gives (a_direct (source_of self.now) start) (source_of self.now) before scope.new found (and_then (meant_suffixed (source_of self.now) (lower (source_of self.now) depth) before start greatest_height) wanted)) }
    {
        let Some(mut direct) = core else {
            return Ok(None);
        };
        let mut turns = GREATEST_HEIGHT;
        while let Some((is_array, next)) = self.direct_suffix(scope, direct.after) {
            if turns == 0 {
                return Ok(None);
            }
            turns -= 1;
            let Some(grown) = self.behind_direct(scope, direct, is_array, next, depth)? else {
                return Ok(None);
            };
            direct = grown;
        }
        Ok(Some(direct))
    }

    // An array or a function, behind its `[` or `(`.
    #[cycle(reading)]
    fn behind_direct(
        &self,
        scope: &mut Scope,
        direct: Part<Direct>,
        is_array: bool,
        at: u32,
        depth: u32,
    ) -> Result<Option<Part<Direct>>, Memory>
        requires { at ≡ direct.after + 1 }
        ensures { (before : List Declared) (start : ℕ) (read : Option tree.Direct) → IsPart (a_direct (source_of self.now) start) (source_of self.now) before scope.old direct read
            → IfOk result (λ found. Gives (a_direct (source_of self.now) start) (source_of self.now) before scope.new found (direct_from (source_of self.now) (lower (source_of self.now) depth) is_array scope.old at (view.direct direct.tree))) }
    {
        if is_array {
            self.array(scope, direct, at, depth)
        } else {
            self.function(scope, direct, at, depth)
        }
    }

    // An array, behind its `[`.
    #[cycle(reading)]
    fn array(
        &self,
        scope: &mut Scope,
        direct: Part<Direct>,
        at: u32,
        depth: u32,
    ) -> Result<Option<Part<Direct>>, Memory>
        requires { at ≡ direct.after + 1 }
        ensures { (before : List Declared) (start : ℕ) (read : Option tree.Direct) → IsPart (a_direct (source_of self.now) start) (source_of self.now) before scope.old direct read
            → IfOk result (λ found. Gives (a_direct (source_of self.now) start) (source_of self.now) before scope.new found (array_of (source_of self.now) (lower (source_of self.now) depth) scope.old at (view.direct direct.tree))) }
    {
        if let Some(after) = self.behind(scope, at, Symbol::RightBracket) {
            return self.open_array(scope, direct, after);
        }
        let length = self.expr(scope, at, 2, depth)?;
        self.sized_array(scope, direct, length)
    }

    // A function, behind its `(`. The scope of its parameters ends with their list.
    #[cycle(reading)]
    fn function(
        &self,
        scope: &mut Scope,
        direct: Part<Direct>,
        at: u32,
        depth: u32,
    ) -> Result<Option<Part<Direct>>, Memory>
        requires { at ≡ direct.after + 1 }
        ensures { (before : List Declared) (start : ℕ) (read : Option tree.Direct) → IsPart (a_direct (source_of self.now) start) (source_of self.now) before scope.old direct read
            → IfOk result (λ found. Gives (a_direct (source_of self.now) start) (source_of self.now) before scope.new found (function_of (source_of self.now) (lower (source_of self.now) depth) scope.old at (view.direct direct.tree))) }
    {
        let kept = scope.len();
        let Some(parameters) = self.parameters(scope, at, depth)? else {
            return Ok(None);
        };
        let Some(after) = self.behind(scope, parameters.after, Symbol::RightParen) else {
            return Ok(None);
        };
        scope.end(kept)?;
        self.function_node(scope, direct, parameters, after)
    }

    // Parameters up to the closing parenthesis.
    #[cycle(reading)]
    fn parameters(
        &self,
        scope: &mut Scope,
        at: u32,
        depth: u32,
    ) -> Result<Option<Part<List<Parameter>>>, Memory>
        ensures { IfOk result (λ found. Gives (parameters_from (source_of self.now) at) (source_of self.now) scope.old scope.new found (parameters_of (source_of self.now) (lower (source_of self.now) depth) scope.old at)) }
    {
        if self.symbol(scope, at).is(Symbol::RightParen) {
            return Ok(Some(self.none_yet(at)));
        }
        let Some(first) = self.parameter(scope, at, depth)? else {
            return Ok(None);
        };
        let begun = begun(self.alloc, first)?;
        self.more_parameters(scope, begun, depth)
    }

    // More parameters, each behind a comma.
    #[cycle(reading)]
    fn more_parameters(
        &self,
        scope: &mut Scope,
        parameters: Part<List<Parameter>>,
        depth: u32,
    ) -> Result<Option<Part<List<Parameter>>>, Memory>
        ensures { (before : List Declared) (start : ℕ) (read : Option tree.Parameters) → IsPart (parameters_from (source_of self.now) start) (source_of self.now) before scope.old parameters read
            → IfOk result (λ found. Gives (parameters_from (source_of self.now) start) (source_of self.now) before scope.new found (behind_all prepend_parameter (map view.parameter parameters.tree) (meant_more (source_of self.now) (lower (source_of self.now) depth) (all_turns (source_of self.now)) scope.old parameters.after))) }
    {
        let mut parameters = parameters;
        let mut turns = self.tokens.len() + 1;
        while turns > 0 {
            let Some(next) = self.behind(scope, parameters.after, Symbol::Comma) else {
                return Ok(Some(parameters));
            };
            let Some(parameter) = self.parameter(scope, next, depth)? else {
                return Ok(None);
            };
            parameters = joined(parameters, parameter)?;
            turns -= 1;
        }
        Ok(Some(parameters))
    }

    // The declaration of a parameter. Its name is declared behind its declarator.
    #[cycle(reading)]
    fn parameter(
        &self,
        scope: &mut Scope,
        at: u32,
        depth: u32,
    ) -> Result<Option<Part<Parameter>>, Memory>
        ensures { IfOk result (λ found. Gives (a_parameter (source_of self.now)) (source_of self.now) scope.old scope.new found (parameter_of (source_of self.now) (lower (source_of self.now) depth) scope.old at)) }
    {
        let Some(specifiers) = self.specifiers(scope, at, depth)? else {
            return Ok(None);
        };
        let declarator = self.declarator(scope, specifiers.after, Shape::OfParameter, depth)?;
        self.parameter_node(scope, at, specifiers, declarator)
    }
}
