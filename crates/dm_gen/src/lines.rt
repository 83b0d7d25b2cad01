ghost use Rattle.std.specs.Prelude.{◌≡◌, ◌++◌, string_bytes, IfOk, OnOk};
ghost use Rattle.std.specs.List.{flat_map, range_with_len};
ghost use Rattle.dm_gen.specs.Generated.{call_line, definition_line, function_line, generated_text};

use dm_token::Memory;
use std::alloc::{AllocError, Global};

/// The text of the unit with `n` macros.
#[tactic(auto, unfolding(crate::specs::Generated::generated_text))]
pub fn unit_text(alloc: Global, n: u32) -> Result<String, Memory>
    ensures { IfOk result (λ text. string_bytes text ≡ generated_text n) }
{
    let mut text = String::from_str(alloc, "static int next(void) { return 1; }\n")?;
    append_definitions(&mut text, n)?;
    append_functions(&mut text, n)?;
    text.push_str("int main(void) {\n    int t = 0;\n")?;
    append_calls(&mut text, n)?;
    text.push_str("    return t & 127;\n}\n")?;
    Ok(text)
}

fn append_definitions(text: &mut String, n: u32) -> Result<(), AllocError>
    ensures { OnOk result (string_bytes text.new
        ≡ string_bytes text.old ++ flat_map definition_line (range_with_len 0 n)) }
{
    for i in 0..n {
        append_definition(text, i)?;
    }
    Ok(())
}

fn append_functions(text: &mut String, n: u32) -> Result<(), AllocError>
    ensures { OnOk result (string_bytes text.new
        ≡ string_bytes text.old ++ flat_map function_line (range_with_len 0 n)) }
{
    for i in 0..n {
        append_function(text, i)?;
    }
    Ok(())
}

fn append_calls(text: &mut String, n: u32) -> Result<(), AllocError>
    ensures { OnOk result (string_bytes text.new
        ≡ string_bytes text.old ++ flat_map call_line (range_with_len 0 n)) }
{
    for i in 0..n {
        append_call(text, i)?;
    }
    Ok(())
}

/// Appends the definition of macro number `i`.
#[tactic(auto, unfolding(crate::specs::Generated::definition_line))]
fn append_definition(text: &mut String, i: u32) -> Result<(), AllocError>
    ensures { OnOk result (string_bytes text.new ≡ string_bytes text.old ++ definition_line i) }
{
    match i % 4 {
        0 => writeln!(text, "#define C{i} {i}")?,
        1 => writeln!(text, "#define F{i}(x) ((x)+{i})")?,
        2 => writeln!(text, "#define S{i}(x) ((x)*(x))")?,
        _ => writeln!(text, "#define U{i} {i}u")?,
    }
    Ok(())
}

/// Appends the function that expands macro number `i`.
#[tactic(auto, unfolding(crate::specs::Generated::function_line))]
fn append_function(text: &mut String, i: u32) -> Result<(), AllocError>
    ensures { OnOk result (string_bytes text.new ≡ string_bytes text.old ++ function_line i) }
{
    match i % 4 {
        0 => writeln!(text, "static int h{i}(int a) {{ return a + C{i}; }}")?,
        1 => writeln!(text, "static int h{i}(int a) {{ return F{i}(a); }}")?,
        2 => writeln!(
            text,
            "static int h{i}(int a) {{ return a + S{i}(next()); }}"
        )?,
        _ => writeln!(text, "static int h{i}(int a) {{ return a + (int)U{i}; }}")?,
    }
    Ok(())
}

/// Appends the call of that function.
fn append_call(text: &mut String, i: u32) -> Result<(), AllocError>
    ensures { OnOk result (string_bytes text.new ≡ string_bytes text.old ++ call_line i) }
{
    writeln!(text, "    t = h{i}(t);")?;
    Ok(())
}
