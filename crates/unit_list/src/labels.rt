//! What a line of the listing says of one node of a typed tree.

use dm_int::Op;
use dm_tree::{Form, Sign};

/// A word for a statement. None for an expression.
pub fn statement_word(form: &Form) -> Option<&'static str> {
    match form {
        Form::Block(_) => Some("block"),
        Form::Declare(_, _) => Some("declare"),
        Form::Full(_) => Some("full expression"),
        Form::Empty => Some("empty"),
        Form::If(_, _, _) => Some("if"),
        Form::Switch(_, _) => Some("switch"),
        Form::Case(_, _) => Some("case"),
        Form::Default(_) => Some("default"),
        Form::While(_, _) => Some("while"),
        Form::Do(_, _) => Some("do"),
        Form::For(_, _, _, _) => Some("for"),
        Form::Break => Some("break"),
        Form::Continue => Some("continue"),
        Form::Return(_) => Some("return"),
        _ => None,
    }
}

/// A word for an expression that is told by nothing else.
pub fn expression_word(form: &Form) -> &'static str {
    match form {
        Form::Read(_) => "read",
        Form::Decay(_) => "decay",
        Form::Convert(_, _) => "convert",
        Form::Address(_) => "address",
        Form::Follow(_) => "follow",
        Form::Both(_, _) => "&&",
        Form::Either(_, _) => "||",
        Form::Choose(_, _, _) => "choose",
        Form::Comma(_, _) => "comma",
        Form::Store(_, _) => "store",
        Form::Call(_, _) => "call",
        Form::SizeofTree(_) => "sizeof",
        _ => "?",
    }
}

/// The spelling of a binary operator (6.5.5 to 6.5.12).
pub fn operator(op: Op) -> &'static str {
    match op {
        Op::Add => "+",
        Op::Sub => "-",
        Op::Mul => "*",
        Op::Div => "/",
        Op::Rem => "%",
        Op::Shl => "<<",
        Op::Shr => ">>",
        Op::Less => "<",
        Op::Greater => ">",
        Op::LessEq => "<=",
        Op::GreaterEq => ">=",
        Op::Equal => "==",
        Op::NotEqual => "!=",
        Op::And => "&",
        Op::Xor => "^",
        Op::Or => "|",
    }
}

/// The spelling of a unary operator (6.5.3.3).
pub fn sign(sign: Sign) -> &'static str {
    match sign {
        Sign::Plus => "+",
        Sign::Minus => "-",
        Sign::Complement => "~",
        Sign::Not => "!",
    }
}
