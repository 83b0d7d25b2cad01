//! Reading a condition from left to right, with what waits for an operand on a stack of its own.

ghost use Rattle.std.specs.Prelude.{◌≡◌, true, false, [], ◌∷◌, IfOk, MatchOption, None};
ghost use Rattle.dm_cond.specs.Machine.{awaits, has, step, ends_before, first_ends, reduced, outcome as value_at, number_of, begun, continued, behind_colon, behind_comma, behind_close};
ghost use Rattle.dm_cond.specs.Points.{point_of, stack_of, Takes, IsSound};

use crate::frame::{Frame, level_of};
use crate::symbol::{Operator, Sign, Symbol};
use crate::value::Value;
use dm_int::Op;
use dm_token::Memory;
use std::alloc::Global;

/// How far a condition is read.
#[derive(Drop)]
pub struct Parser {
    /// What waits for an operand, the innermost last.
    frames: Vec<Frame>,
    /// The operand that has come, if one isn't to come.
    operand: Option<Value>,
}

impl Parser {
    /// Nothing is read yet. It takes no memory.
    pub fn new(alloc: Global) -> Parser
        ensures { point_of result ≡ awaits [] }
    {
        Parser {
            frames: Vec::new(alloc),
            operand: None,
        }
    }

    /// Reads a symbol, and says whether it may stand here. If not, or where memory runs out, the parser isn't used again.
    pub fn take(&mut self, symbol: Symbol) -> Result<bool, Memory>
        requires { IsSound symbol }
        ensures { IfOk result (λ taken. Takes taken (step (point_of self.old) symbol) (point_of self.new)) }
    {
        match self.operand {
            None => self.begin(symbol),
            Some(value) => self.go_on(value, symbol),
        }
    }

    // Reads a symbol where an operand is to come.
    fn begin(&mut self, symbol: Symbol) -> Result<bool, Memory>
        requires sound { IsSound symbol }
        requires none { self.old.operand ≡ None }
        ensures { IfOk result (λ taken. Takes taken (begun (stack_of self.old) symbol) (point_of self.new)) }
    {
        match symbol {
            Symbol::Operand(kind, number) => {
                self.operand = Some(Value::constant(kind, number));
                Ok(true)
            }
            Symbol::Open => self.push(Frame::Parenthesis),
            Symbol::Complement => self.push(Frame::Unary(Sign::Complement)),
            Symbol::Not => self.push(Frame::Unary(Sign::Not)),
            Symbol::Operator(Operator::Integer(Op::Add)) => self.push(Frame::Unary(Sign::Plus)),
            Symbol::Operator(Operator::Integer(Op::Sub)) => self.push(Frame::Unary(Sign::Minus)),
            _ => Ok(false),
        }
    }

    // Reads a symbol behind an operand.
    fn go_on(&mut self, value: Value, symbol: Symbol) -> Result<bool, Memory>
        ensures { IfOk result (λ taken. Takes taken (continued (stack_of self.old) value symbol) (point_of self.new)) }
    {
        match symbol {
            Symbol::Operator(operator) => {
                let left = self.reduce(level_of(operator), value);
                self.push(Frame::Binary(operator, left))
            }
            Symbol::Question => {
                let first = self.reduce(2, value);
                self.push(Frame::Second(first))
            }
            Symbol::Colon => self.take_colon(value),
            Symbol::Comma => self.take_comma(value),
            Symbol::Close => Ok(self.close(value)),
            _ => Ok(false),
        }
    }

    // `:` behind the second operand of `?:`.
    fn take_colon(&mut self, value: Value) -> Result<bool, Memory>
        ensures { IfOk result (λ taken. Takes taken (behind_colon (reduced 0 (stack_of self.old) value)) (point_of self.new)) }
    {
        let second = self.reduce(0, value);
        match self.pop() {
            Some(frame) => self.push_third(frame, second),
            None => Ok(false),
        }
    }

    // The third operand of `?:` is to come, where the frame waited for the second one.
    fn push_third(&mut self, frame: Frame, second: Value) -> Result<bool, Memory>
        ensures { IfOk result (λ taken. Takes taken (behind_colon (has (frame ∷ stack_of self.old) second)) (point_of self.new)) }
    {
        match frame {
            Frame::Second(first) => self.push(Frame::Third(first, second)),
            _ => Ok(false),
        }
    }

    // A comma, which may stand only within something.
    fn take_comma(&mut self, value: Value) -> Result<bool, Memory>
        ensures { IfOk result (λ taken. Takes taken (behind_comma (reduced 0 (stack_of self.old) value)) (point_of self.new)) }
    {
        let left = self.reduce(0, value);
        if self.frames.is_empty() {
            return Ok(false);
        }
        self.push(Frame::AfterComma(left))
    }

    // `)`
    fn close(&mut self, value: Value) -> bool
        ensures { Takes result (behind_close (reduced 0 (stack_of self.old) value)) (point_of self.new) }
    {
        let value = self.reduce(0, value);
        self.operand = Some(value);
        matches!(self.pop(), Some(Frame::Parenthesis))
    }

    // A frame that waits for an operand.
    fn push(&mut self, frame: Frame) -> Result<bool, Memory>
        ensures taken { IfOk result (λ taken. taken ≡ true) }
        ensures waits { IfOk result (λ _. point_of self.new ≡ awaits (frame ∷ stack_of self.old)) }
    {
        self.frames.push(frame)?;
        self.operand = None;
        Ok(true)
    }

    // The innermost frame, if there is one.
    fn pop(&mut self) -> Option<Frame>
        ensures frame { MatchOption result (stack_of self.old ≡ []) (λ frame. stack_of self.old ≡ frame ∷ stack_of self.new) }
        ensures operand { self.new.operand ≡ self.old.operand }
    {
        self.frames.pop()
    }

    // Whether the innermost frame's operand ends before an operator of this level.
    fn is_ending(&self, level: u8) -> bool
        ensures { result ≡ first_ends level (stack_of self.now) }
    {
        match self.frames.last() {
            Some(frame) => frame.ends_before(level),
            None => false,
        }
    }

    // The innermost frame, if its operand ends before an operator of this level.
    fn pop_ending(&mut self, level: u8) -> Option<Frame>
        ensures { MatchOption result
            ((stack_of self.new ≡ stack_of self.old) × (first_ends level (stack_of self.old) ≡ false))
            (λ frame. (stack_of self.old ≡ frame ∷ stack_of self.new) × (ends_before level frame ≡ true)) }
    {
        if self.is_ending(level) {
            self.pop()
        } else {
            None
        }
    }

    // Completes what ends before an operator of this level.
    fn reduce(&mut self, level: u8, value: Value) -> Value
        ensures { reduced level (stack_of self.old) value ≡ has (stack_of self.new) result }
    {
        let mut value = value;
        while let Some(frame) = self.pop_ending(level) {
            value = frame.complete(value);
        }
        value
    }

    /// The number of what is read, if that is a whole expression and has one.
    pub fn number(mut self) -> Option<i128>
        ensures { result ≡ number_of (value_at (point_of self)) }
    {
        let value = self.operand?;
        let value = self.reduce(0, value);
        if self.frames.is_empty() {
            value.number()
        } else {
            None
        }
    }
}
