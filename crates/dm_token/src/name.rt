ghost use Rattle.std.specs.Prelude.{◌≡◌, ◌==◌};
ghost use Rattle.std.specs.List.{list_all, slice_split};
ghost use Rattle.dm_token.specs.Names.{is_name_byte, is_part, is_plain_part, is_normal_name as is_normal};

/// Whether a file or a folder may have this name: 1 to 255 bytes that are parts joined by `/`, each part of ASCII
/// letters, digits, `_`, `-`, `+` and `.`, none of them empty, `.` or `..`. So it lies below the current folder.
pub fn is_normal_name(name: &[u8]) -> bool
    ensures { result ≡ is_normal name.now }
{
    !name.is_empty() && name.len() <= 255 && has_parts(name)
}

fn has_parts(name: &[u8]) -> bool
    ensures { result ≡ list_all is_part (slice_split (λ byte. byte == 47) name.now) }
{
    name.split(|byte| *byte == b'/').all(is_name_part)
}

#[tactic(auto, unfolding(crate::specs::Names::is_part))]
fn is_name_part(part: &[u8]) -> bool
    ensures { result ≡ is_part part.now }
{
    has_plain_form(part) && has_name_bytes(part)
}

fn has_name_bytes(part: &[u8]) -> bool
    ensures { result ≡ list_all is_name_byte part.now }
{
    part.iter().all(|byte| may_stand_in_name(*byte))
}

#[tactic(auto, unfolding(crate::specs::Names::is_plain_part))]
fn has_plain_form(part: &[u8]) -> bool
    ensures { result ≡ is_plain_part part.now }
{
    match part {
        [] => false,
        [only] => *only != b'.',
        [first, second] => !(*first == b'.' && *second == b'.'),
        _ => true,
    }
}

#[tactic(auto, unfolding(crate::specs::Names::is_name_byte, crate::specs::Bytes::is_digit))]
fn may_stand_in_name(byte: u8) -> bool
    ensures { result ≡ is_name_byte byte }
{
    matches!(byte, b'a'..=b'z' | b'A'..=b'Z' | b'0'..=b'9' | b'_' | b'-' | b'+' | b'.')
}
