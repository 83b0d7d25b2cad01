//! Rules on runs.

/// A rule that asks what stands where a macro's runs stand.
#[derive(Clone, Copy, Debug, PartialEq, Eq)]
pub(crate) enum RunRule {
    /// 9: a run is one expression, and so is each occurrence of a parameter in it.
    Subtree,
    /// 10: no constant is wanted where it stands, or what it becomes is one.
    Constant,
    /// 11: it is no lvalue, and neither is an occurrence in it.
    Lvalue,
    /// 14: its arguments may be evaluated once, and before everything else.
    Evaluation,
}
