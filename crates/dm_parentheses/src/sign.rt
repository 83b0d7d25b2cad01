/// What a token is to the arguments of an invocation (6.10.3p10, p11).
#[derive(Clone, Copy, Debug, PartialEq, Eq)]
pub enum Sign {
    /// `(`
    Opening,
    /// `)`
    Closing,
    /// `,`
    Comma,
    /// Any other token.
    Other,
}
