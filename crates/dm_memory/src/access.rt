//! Why an access to an object may be undefined (6.3.2.1p2, 6.5p2, 6.5p7, 6.2.4p2, 6.7.3p6).

ghost use Rattle.std.specs.Prelude.{◌≡◌, ◌+◌, ◌||◌, ◌&&◌, ◌++◌, not, Some, map};
ghost use Rattle.dm_type.specs.Tables.{IsId, Table, type_of};
ghost use Rattle.dm_meaning.specs.declared.cause.Cause.TheVariants.{Bounds, Conflict, Const, OtherType, Unset};
ghost use Rattle.dm_meaning.specs.Causes as table;
ghost use Rattle.dm_meaning.specs.Memory as memory;
ghost use Rattle.dm_meaning.specs.Values as values;
ghost use Rattle.dm_memory.specs.Blocks.{view_of_blocks, AreKnown};
ghost use Rattle.dm_layout.specs.LaidOut.{laid_out, view_of_reached, IsKnown};
ghost use Rattle.dm_value.specs.Places.{view_of_at, view_of_name};

use crate::blocks::Blocks;
use crate::literal;
use dm_layout::{Layout, Reached, agree_without_const, is_char, is_text};
use dm_meaning::Cause;
use dm_type::TypeId;
use dm_value::{At, Name, sooner, when};

/// What a place is.
fn reached_at(layout: &Layout, blocks: &Blocks, at: &At) -> Reached
    requires { AreKnown layout.now blocks.now }
    ensures view { view_of_reached layout.now result ≡ memory.reached (laid_out layout.now) (view_of_blocks layout.now blocks.now) (view_of_at at.now) }
    ensures known { IsKnown layout.now result }
{
    match &at.name {
        Name::Numbered(number) => match blocks.numbered(*number) {
            Some(block) => layout.reached(block.kind, false, at.path.steps()),
            None => Reached::Unknown,
        },
        Name::Literal(bytes, _) => literal::reached(layout, bytes.bytes(), at.path.steps()),
        Name::Elsewhere(_) => Reached::Unknown,
    }
}

/// Whether it is an object.
fn is_object(reached: &Reached) -> bool
    ensures { (types : Table) (value : values.Value) → table.is_unset_object value (view_of_reached types reached.now) ≡ (result && table.is_unset value) }
{
    match reached {
        Reached::Object(_, _) | Reached::Text(_) | Reached::Character => true,
        Reached::Outside | Reached::Foreign | Reached::Unknown => false,
    }
}

/// Whether it is no element of its array.
fn is_outside(reached: &Reached) -> bool
    ensures { (types : Table) → result ≡ table.is_outside (view_of_reached types reached.now) }
{
    match reached {
        Reached::Outside => true,
        _ => false,
    }
}

/// Whether it is const, or part of an object that is.
fn is_fixed(reached: &Reached) -> bool
    ensures { (types : Table) → result ≡ table.is_fixed (view_of_reached types reached.now) }
{
    match reached {
        Reached::Object(_, fixed) => *fixed,
        _ => false,
    }
}

/// Whether it is an object of another type than that of the access, const apart.
fn is_other(layout: &Layout, access: TypeId, reached: &Reached) -> bool
    requires access { IsId layout.now access }
    requires known { IsKnown layout.now reached.now }
    ensures { result ≡ table.is_other (type_of layout.now access) (view_of_reached layout.now reached.now) }
{
    let types = layout.types();
    match reached {
        Reached::Object(kind, _) => !agree_without_const(types, *kind, access),
        Reached::Text(length) => !is_text(types, access, *length),
        Reached::Character => !is_char(types, access),
        Reached::Foreign => true,
        Reached::Outside | Reached::Unknown => false,
    }
}

/// Why an object can't be used: its lifetime has ended, or the program doesn't define it.
pub(crate) fn absence(blocks: &Blocks, name: &Name) -> Option<Cause>
    ensures { (types : Table) → result ≡ table.earliest (table.absence_causes (view_of_blocks types blocks.now) (view_of_name name.now)) }
{
    match name {
        Name::Elsewhere(_) => Some(Cause::External),
        Name::Numbered(_) => when(Cause::Life, !blocks.lives(name)),
        Name::Literal(_, _) => None,
    }
}

/// Why an access of a type to a place is undefined, beside stores that are unsequenced with it, where this is what the
/// place is.
fn to_access(
    layout: &Layout,
    blocks: &Blocks,
    locks: &[At],
    access: TypeId,
    at: &At,
    reached: &Reached,
) -> Option<Cause>
    requires access { IsId layout.now access }
    requires known { IsKnown layout.now reached.now }
    ensures { result ≡ table.earliest (table.when Conflict (values.overlaps_any (view_of_at at.now) (map view_of_at locks.now))
        ++ table.when Bounds (table.is_outside (view_of_reached layout.now reached.now))
        ++ table.absence_causes (view_of_blocks layout.now blocks.now) (view_of_name at.now.name)
        ++ table.when OtherType (table.is_other (type_of layout.now access) (view_of_reached layout.now reached.now))) }
{
    let conflict = when(Cause::Conflict, at.overlaps_any(locks));
    let bounds = when(Cause::Bounds, is_outside(reached));
    let absent = absence(blocks, &at.name);
    let other = when(Cause::OtherType, is_other(layout, access, reached));
    let two = sooner(conflict, bounds);
    let three = sooner(two, absent);
    sooner(three, other)
}

/// The cause where what is read is a scalar that was never set.
fn never_set(blocks: &Blocks, at: &At, reached: &Reached) -> Option<Cause>
    ensures { (types : Table) → result ≡ table.earliest (table.when Unset (table.is_unset_object
        (memory.contents_at (view_of_blocks types blocks.now) (view_of_at at.now)) (view_of_reached types reached.now))) }
{
    when(Cause::Unset, is_object(reached) & blocks.is_unset(at))
}

/// The cause where what is stored into may not be written.
fn not_writable(blocks: &Blocks, name: &Name, reached: &Reached) -> Option<Cause>
    ensures { (types : Table) → result ≡ table.earliest (table.when Const (table.is_fixed (view_of_reached types reached.now)
        || not (memory.may_be_written (memory.look (view_of_blocks types blocks.now) (view_of_name name.now))))) }
{
    when(
        Cause::Const,
        is_fixed(reached) | !blocks.may_be_written(name),
    )
}

/// Why going into a place as an object of this type is undefined, as where a member of it is named or it decays: the object isn't
/// there, or is of another type.
pub fn to_enter(layout: &Layout, blocks: &Blocks, access: TypeId, at: &At) -> Option<Cause>
    requires access { IsId layout.now access }
    requires known { AreKnown layout.now blocks.now }
    ensures { result ≡ table.earliest (table.entry_causes (laid_out layout.now) (view_of_blocks layout.now blocks.now)
        (type_of layout.now access) (view_of_at at.now)) }
{
    let reached = reached_at(layout, blocks, at);
    let absent = absence(blocks, &at.name);
    let other = when(Cause::OtherType, is_other(layout, access, &reached));
    sooner(absent, other)
}

/// Why reading a place is undefined, if it is.
pub fn to_read(
    layout: &Layout,
    blocks: &Blocks,
    locks: &[At],
    access: TypeId,
    at: &At,
) -> Option<Cause>
    requires access { IsId layout.now access }
    requires known { AreKnown layout.now blocks.now }
    ensures { result ≡ table.earliest (table.read_causes (laid_out layout.now) (view_of_blocks layout.now blocks.now)
        (map view_of_at locks.now) (type_of layout.now access) (view_of_at at.now)) }
{
    let reached = reached_at(layout, blocks, at);
    let access = to_access(layout, blocks, locks, access, at, &reached);
    let unset = never_set(blocks, at, &reached);
    sooner(access, unset)
}

/// Why storing into a place is undefined, if it is.
pub fn to_store(
    layout: &Layout,
    blocks: &Blocks,
    locks: &[At],
    access: TypeId,
    at: &At,
) -> Option<Cause>
    requires access { IsId layout.now access }
    requires known { AreKnown layout.now blocks.now }
    ensures { result ≡ table.earliest (table.store_causes (laid_out layout.now) (view_of_blocks layout.now blocks.now)
        (map view_of_at locks.now) (type_of layout.now access) (view_of_at at.now)) }
{
    let reached = reached_at(layout, blocks, at);
    let access = to_access(layout, blocks, locks, access, at, &reached);
    let fixed = not_writable(blocks, &at.name, &reached);
    sooner(access, fixed)
}

/// Why replacing the value of a place by another one that depends on it is undefined, if it is.
pub fn to_update(
    layout: &Layout,
    blocks: &Blocks,
    locks: &[At],
    access: TypeId,
    at: &At,
) -> Option<Cause>
    requires access { IsId layout.now access }
    requires known { AreKnown layout.now blocks.now }
    ensures { result ≡ table.earliest (table.update_causes (laid_out layout.now) (view_of_blocks layout.now blocks.now)
        (map view_of_at locks.now) (type_of layout.now access) (view_of_at at.now)) }
{
    let read = to_read(layout, blocks, locks, access, at);
    let stored = to_store(layout, blocks, locks, access, at);
    sooner(read, stored)
}
