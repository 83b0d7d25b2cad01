//! The parameters that the tokens of a replacement list name.

ghost use Rattle.std.specs.Prelude.{◌≡◌, length, bytes_eq, IfOk, IfSome};
ghost use Rattle.std.specs.List.{position_from};
ghost use Rattle.dm_macro.specs.Bodies as bodies;
ghost use Rattle.dm_macro.specs.Bodies.{named_parameters};
ghost use Rattle.dm_macro.specs.Roles.{HavePositions};

use crate::sign::{is_identifier, is_variable_arguments};
use dm_name_map::NameMap;
use dm_token::{Definition, Memory, PpToken, Text};
use std::alloc::Global;
use std::marker::Model;

/// How many names are looked through at most. More are looked up by hash.
const FEW: usize = 8;

/// A macro's parameters. Contracts see their names, `__VA_ARGS__` last.
#[derive(Drop)]
pub struct Parameters<'a> {
    names: &'a [Text],
    variadic: bool,
    /// The names' positions, where there are many.
    positions: Option<NameMap>,
}

impl<'a> Model for Parameters<'a> {
    ghost use Rattle.std.specs.Prelude.{ℕ, List, IfSome};
    ghost use Rattle.std.specs.Coded.{coded_list, coded_ℕ};
    ghost use Rattle.dm_macro.specs.Bodies.{names_with};
    ghost use Rattle.dm_macro.specs.Roles.{HavePositions};

    ghost Value = { List (List ℕ) };

    ghost coded = { coded_list (coded_list coded_ℕ) };

    ghost view = { λ parameters. names_with parameters.names.now parameters.variadic };

    ghost invariant = { λ parameters. IfSome parameters.positions (HavePositions parameters.names.now) };
}

impl<'a> Parameters<'a> {
    /// Those of a definition.
    #[tactic(auto, unfolding(crate::specs::Bodies::parameters_of))]
    pub fn new(alloc: Global, definition: &'a Definition) -> Result<Parameters<'a>, Memory>
        ensures { IfOk result (λ parameters. parameters ≡ bodies.parameters_of definition.now) }
    {
        let names = names_of(definition);
        let positions = positions_among(alloc, names)?;
        Ok(Parameters {
            names,
            variadic: definition.variadic,
            positions,
        })
    }

    /// The position of the parameter that a token names; `__VA_ARGS__` is the last one.
    pub fn parameter_of(&self, token: &PpToken) -> Option<usize>
        ensures { result ≡ bodies.parameter_of self.now token.now }
    {
        if !is_identifier(token) {
            return None;
        }
        if let Some(position) = position_of(self.names, &self.positions, &token.spelling) {
            return Some(position);
        }
        if self.variadic && is_variable_arguments(token) {
            return Some(self.names.len());
        }
        None
    }
}

// The parameters with names of their own.
#[tactic(auto, unfolding(crate::specs::Bodies::named_parameters))]
fn names_of(definition: &Definition) -> &[Text]
    ensures { result.now ≡ named_parameters definition.now.parameters }
{
    match &definition.parameters {
        None => &[],
        Some(names) => names.items(),
    }
}

/// How many parameters have names of their own.
pub fn named_count(definition: &Definition) -> usize
    ensures { result ≡ length (named_parameters definition.now.parameters) }
{
    names_of(definition).len()
}

// The positions of names, by which they are looked up.
fn positions_of(alloc: Global, names: &[Text]) -> Result<NameMap, Memory>
    ensures { IfOk result (HavePositions names.now) }
{
    if names.len() > u32::MAX as usize {
        return Err(Memory);
    }
    let mut positions = NameMap::new(alloc);
    for (position, name) in names.iter().enumerate() {
        if positions.get(name).is_none() {
            positions.insert(name.copy()?, position as u32)?;
        }
    }
    Ok(positions)
}

// The same, where there are many.
fn positions_among(alloc: Global, names: &[Text]) -> Result<Option<NameMap>, Memory>
    ensures { IfOk result (λ positions. IfSome positions (HavePositions names.now)) }
{
    if names.len() <= FEW {
        return Ok(None);
    }
    let positions = positions_of(alloc, names)?;
    Ok(Some(positions))
}

// The position of a name among others.
fn place_of(names: &[Text], name: &Text) -> Option<usize>
    ensures { result ≡ position_from (bytes_eq name.now) 0 names.now }
{
    for (position, other) in names.iter().enumerate() {
        if *name == *other {
            return Some(position);
        }
    }
    None
}

// The same, looked up where that is possible.
fn position_of(names: &[Text], positions: &Option<NameMap>, name: &Text) -> Option<usize>
    requires { IfSome positions.now (HavePositions names.now) }
    ensures { result ≡ position_from (bytes_eq name.now) 0 names.now }
{
    match positions {
        None => place_of(names, name),
        Some(positions) => {
            let position = positions.get(name)?;
            Some(position as usize)
        }
    }
}
