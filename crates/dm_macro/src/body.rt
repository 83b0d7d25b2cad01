ghost use Rattle.std.specs.Prelude.{◌≡◌, ◌<◌, ◌+◌, length, take, drop, slice_index_or, Option, None};
ghost use Rattle.std.specs.List.{list_any};
ghost use Rattle.dm_macro.specs.Bodies.{parameters_of};
ghost use Rattle.dm_macro.specs.Signs.{is_hash_hash};
ghost use Rattle.dm_macro.specs.Roles.{AreRolesOf, AreRoles, IsRoleAt};

use crate::role::{Role, Roles};
use dm_token::Definition;

/// A macro's definition with what the tokens of its replacement list are.
#[derive(Clone, Copy)]
pub struct Body<'a> {
    pub definition: &'a Definition,
    roles: &'a [Option<Role>],
    /// Whether `##` is among the tokens.
    pub pastes: bool,
    ghost fits: { AreRolesOf (parameters_of definition.now) definition.now.body roles.now },
    ghost count: { length roles.now ≡ length definition.now.body },
    ghost has_paste: { pastes ≡ list_any is_hash_hash definition.now.body },
}

impl<'a> Body<'a> {
    pub(crate) fn new(definition: &'a Definition, roles: &'a Roles) -> Body<'a>
        requires { AreRoles definition.now roles.now }
        ensures { result.definition.now ≡ definition.now }
    {
        Body {
            definition,
            roles: roles.tokens.as_slice(),
            pastes: roles.pastes,
        }
    }

    /// What the token at an index is, or `None` where it is part of the one before it.
    pub fn role_at(&self, index: usize) -> Option<Role>
        requires { index < length self.now.definition.now.body }
        ensures { IsRoleAt (parameters_of self.now.definition.now) self.now.definition.now.body index result }
    {
        self.roles[index]
    }
}
