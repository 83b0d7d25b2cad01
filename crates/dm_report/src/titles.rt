ghost use Rattle.std.specs.Prelude.{◌≡◌};
ghost use Rattle.dm_report.specs.Titles.{title_of};

/// The title of a rule, which is empty where there is no such rule.
#[tactic(auto, unfolding(crate::specs::Titles::title_of))]
pub fn title<'a>(rule: u8) -> &'a str
    ensures { result.now ≡ title_of rule }
{
    match rule {
        1 => "Body",
        2 => "Again",
        3 => "Directive",
        4 => "Unused",
        5 => "Gone",
        6 => "Place",
        7 => "Name",
        8 => "Parameter",
        9 => "Subtree",
        10 => "Constant",
        11 => "Lvalue",
        12 => "Type",
        13 => "Capture",
        14 => "Evaluation",
        15 => "Reread",
        _ => "",
    }
}
