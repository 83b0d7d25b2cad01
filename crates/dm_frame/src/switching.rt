//! Which items of a switch are executed (6.8.4.2).

ghost use Rattle.std.specs.Prelude.{◌≡◌, MatchOption, None, Some, map};
ghost use Rattle.dm_type.specs.Tables.{Table};
ghost use Rattle.dm_tree.specs.Views.{view};
ghost use Rattle.dm_meaning.specs.Programs as programs;
ghost use Rattle.dm_meaning.specs.Statements as statements;
ghost use Rattle.dm_value.specs.Views.{view_of_value};
ghost use Rattle.dm_program.specs.Sources.{meant};
ghost use Rattle.dm_frame.specs.Selecting.{IsFound};
ghost use Rattle.dm_frame.specs.Tasks.{ExpressionFits, TreeFits, TreesFit};

use dm_program::Program;
use dm_tree::{Core, Form};
use dm_value::Value;

/// The items that are executed: from the matching `case` on, else from `default` on, else none (6.8.4.2p5).
pub(crate) fn selected<'a>(program: &Program, value: &Value, items: &'a [Core]) -> &'a [Core]
    requires { TreesFit program.now.table items.now }
    ensures same { map (view program.now.table) result.now ≡ statements.selected_by (meant program.now) (view_of_value value.now) (map (view program.now.table) items.now) }
    ensures fits { TreesFit program.now.table result.now }
{
    let Value::Integer(integer) = value else {
        return &[];
    };
    if let Some(found) = from_case(program, integer.value(), items) {
        return found;
    }
    match from_default(items) {
        Some(found) => found,
        None => &[],
    }
}

/// The items from the first that has the label `case` with a value.
fn from_case<'a>(program: &Program, value: i128, items: &'a [Core]) -> Option<&'a [Core]>
    requires { TreesFit program.now.table items.now }
    ensures { IsFound program.now.table (statements.has_case (meant program.now) value) items.now result }
{
    let mut left = items;
    while let Some((item, rest)) = left.split_first() {
        if has_case(program, value, item) {
            return Some(left);
        }
        left = rest;
    }
    None
}

/// The items from the first that has the label `default`.
fn from_default(items: &[Core]) -> Option<&[Core]>
    ensures { (table : Table) → TreesFit table items.now → IsFound table statements.has_default items.now result }
{
    let mut left = items;
    while let Some((item, rest)) = left.split_first() {
        if has_default(item) {
            return Some(left);
        }
        left = rest;
    }
    None
}

/// Whether a statement has the label `case` with a value.
fn has_case(program: &Program, value: i128, item: &Core) -> bool
    requires { TreeFits program.now.table item.now }
    ensures { result ≡ statements.has_case (meant program.now) value (view program.now.table item.now) }
{
    let mut at = item;
    loop {
        match &at.form {
            Form::Case(label, statement) => {
                if is_number(program, value, label.get()) {
                    return true;
                }
                at = statement.get();
            }
            Form::Default(statement) => at = statement.get(),
            _ => return false,
        }
    }
}

/// Whether the value of a label is this one.
fn is_number(program: &Program, value: i128, label: &Core) -> bool
    requires { ExpressionFits program.now.table label.now }
    ensures { result ≡ statements.is_number value (programs.constant_of (meant program.now) (view program.now.table label.now)) }
{
    match program.constant(label) {
        Some(other) => value == other,
        None => false,
    }
}

/// Whether a statement has the label `default`.
fn has_default(item: &Core) -> bool
    ensures { (table : Table) → result ≡ statements.has_default (view table item.now) }
{
    let mut at = item;
    loop {
        match &at.form {
            Form::Case(_, statement) => at = statement.get(),
            Form::Default(_) => return true,
            _ => return false,
        }
    }
}
