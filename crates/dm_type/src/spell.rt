//! How types are spelled (6.7.6, 6.7.7).

ghost use Rattle.std.specs.Prelude.{◌≡◌, ◌<◌, ◌+◌, ◌==◌, ◌∷◌, [], MatchOption, if◌then◌else◌, Some, None, All, reverse, length, IfOk};
ghost use Rattle.std.specs.Option.{option_copied};
ghost use Rattle.std.specs.List.{list_any};
ghost use Rattle.dm_type.specs.Tables as tables;
ghost use Rattle.dm_type.specs.Spelling as spelling;
ghost use Rattle.dm_type.specs.Writing as writing;

use crate::declarator::Declarator;
use crate::shape::{Shape, TypeId};
use crate::types::Types;
use dm_int::Kind;
use dm_token::{Memory, Text};

/// A function type that is being written: its parameters are put behind its declarator one after another.
#[derive(Drop)]
pub(crate) struct Frame {
    pub function: TypeId,
    /// The number of the parameter behind the one that is being written.
    pub next: usize,
    pub declarator: Declarator,
}

/// A type that is to be written round a declarator.
#[derive(Drop)]
pub(crate) struct Focus {
    pub id: TypeId,
    pub qualified: bool,
    pub declarator: Declarator,
}

/// Where the writing goes on.
#[derive(Drop)]
pub(crate) enum Advance {
    To(Focus),
    Done(Option<Declarator>),
}

impl Types {
    /// The type as a declaration of a declarator, which may be empty (6.7.6, 6.7.7). None where a struct in it isn't
    /// among the visible ones or has no tag. 4,294,967,296 bytes or more count as want of memory.
    pub fn spell(
        &self,
        id: TypeId,
        declarator: &Text,
        visible: &[u32],
    ) -> Result<Option<Text>, Memory>
        requires { tables.IsId self.now id }
        ensures { IfOk result (λ text. text ≡ spelling.spelling self.now visible.now (tables.type_of self.now id) declarator.now) }
    {
        let alloc = *self.parts.allocator();
        let mut start = Declarator::new(alloc);
        start.put_behind(declarator.bytes())?;
        let focus = Focus {
            id,
            qualified: false,
            declarator: start,
        };
        match self.write(focus, visible)? {
            Some(written) => Ok(Some(Text::from_vec(alloc, written.into_bytes()?)?)),
            None => Ok(None),
        }
    }

    /// What is written of a type, and of all types inside, which wait in a list for their turn.
    fn write(&self, focus: Focus, visible: &[u32]) -> Result<Option<Declarator>, Memory>
        requires { tables.IsId self.now focus.id }
        ensures { IfOk result (λ text. text ≡ writing.written self.now visible.now (tables.type_of self.now focus.id) focus.qualified focus.declarator) }
    {
        let mut frames = Vec::new(*self.parts.allocator());
        let mut step = Advance::To(focus);
        loop {
            match step {
                Advance::To(focus) => step = self.advance(focus, &mut frames, visible)?,
                Advance::Done(text) => return Ok(text),
            }
        }
    }

    /// Writes the outermost part of a type.
    fn advance(
        &self,
        focus: Focus,
        frames: &mut Vec<Frame>,
        visible: &[u32],
    ) -> Result<Advance, Memory>
        requires focus { tables.IsId self.now focus.id }
        requires frames { All (λ frame. tables.IsId self.now frame.function) frames.old.items }
        ensures shows { IfOk result (λ step. writing.Shows self.now visible.now (reverse frames.new.items) step
            (writing.resumed self.now visible.now (reverse frames.old.items) (writing.written self.now visible.now (tables.type_of self.now focus.id) focus.qualified focus.declarator))) }
        ensures step { IfOk result (writing.IsStep self.now) }
        ensures frames { All (λ frame. tables.IsId self.now frame.function) frames.new.items }
        ensures work { IfOk result (λ step. writing.work_left self.now (reverse frames.new.items) step
            < writing.work (tables.type_of self.now focus.id) + writing.work_of_frames self.now (reverse frames.old.items)) }
    {
        let Focus {
            id,
            qualified,
            mut declarator,
        } = focus;
        match self.shape(id) {
            Shape::Pointer(inner) => {
                declarator.point(qualified)?;
                Ok(Advance::To(Focus {
                    id: *inner,
                    qualified: false,
                    declarator,
                }))
            }
            Shape::Array(inner, length) => {
                declarator.count(*length)?;
                Ok(Advance::To(Focus {
                    id: *inner,
                    qualified,
                    declarator,
                }))
            }
            Shape::Const(inner) => Ok(Advance::To(Focus {
                id: *inner,
                qualified: true,
                declarator,
            })),
            Shape::Function(_, _) => {
                declarator.wrap()?;
                declarator.put_behind(b"(")?;
                self.go_on(id, 0, declarator, frames, visible)
            }
            Shape::Void => {
                declarator.specify(qualified, b"void")?;
                self.close(declarator, frames, visible)
            }
            Shape::Integer(kind) => {
                declarator.specify(qualified, words_of(*kind).as_bytes())?;
                self.close(declarator, frames, visible)
            }
            Shape::Struct(number) => match self.named(*number, visible) {
                Some(tag) => {
                    declarator.specify_struct(qualified, tag.bytes())?;
                    self.close(declarator, frames, visible)
                }
                None => Ok(Advance::Done(None)),
            },
        }
    }

    /// Goes on with a function type whose declarator has all its parameters up to one of this number.
    fn go_on(
        &self,
        function: TypeId,
        next: usize,
        declarator: Declarator,
        frames: &mut Vec<Frame>,
        visible: &[u32],
    ) -> Result<Advance, Memory>
        requires function { tables.IsId self.now function }
        requires frames { All (λ frame. tables.IsId self.now frame.function) frames.old.items }
        ensures shows { IfOk result (λ step. writing.Shows self.now visible.now (reverse frames.new.items) step
            (writing.resumed self.now visible.now (reverse frames.old.items) (writing.finished self.now visible.now (tables.type_of self.now function) next declarator))) }
        ensures step { IfOk result (writing.IsStep self.now) }
        ensures frames { All (λ frame. tables.IsId self.now frame.function) frames.new.items }
        ensures work { IfOk result (λ step. writing.work_left self.now (reverse frames.new.items) step
            < writing.work_behind (tables.type_of self.now function) next + writing.work_of_frames self.now (reverse frames.old.items)) }
    {
        match self.parameter(function, next) {
            Some(found) => self.further(function, next, found, declarator, frames, visible),
            None => self.behind(function, next, declarator, frames, visible),
        }
    }

    /// The type of the parameter of this number, if there is one, and the number of the one behind it.
    fn parameter(&self, function: TypeId, next: usize) -> Option<(TypeId, usize)>
        requires { tables.IsId self.now function }
        ensures { MatchOption result (writing.parameters_at (tables.type_of self.now function) next ≡ [])
            (λ found. tables.IsId self.now found.0 × (writing.parameters_at (tables.type_of self.now function) next ≡ tables.type_of self.now found.0 ∷ writing.parameters_at (tables.type_of self.now function) (next + 1)) × (found.1 ≡ next + 1)) }
    {
        let Shape::Function(_, parameters) = self.shape(function) else {
            return None;
        };
        if let Some(one) = parameters.items().get(next) {
            return Some((*one, next + 1));
        }
        None
    }

    /// Goes on with the parameter of this number.
    fn further(
        &self,
        function: TypeId,
        next: usize,
        found: (TypeId, usize),
        declarator: Declarator,
        frames: &mut Vec<Frame>,
        visible: &[u32],
    ) -> Result<Advance, Memory>
        requires function { tables.IsId self.now function }
        requires parameter { tables.IsId self.now found.0 }
        requires more { writing.parameters_at (tables.type_of self.now function) next ≡ tables.type_of self.now found.0 ∷ writing.parameters_at (tables.type_of self.now function) (next + 1) }
        requires after { found.1 ≡ next + 1 }
        requires frames { All (λ frame. tables.IsId self.now frame.function) frames.old.items }
        ensures shows { IfOk result (λ step. writing.Shows self.now visible.now (reverse frames.new.items) step
            (writing.resumed self.now visible.now (reverse frames.old.items) (writing.finished self.now visible.now (tables.type_of self.now function) next declarator))) }
        ensures step { IfOk result (writing.IsStep self.now) }
        ensures frames { All (λ frame. tables.IsId self.now frame.function) frames.new.items }
        ensures work { IfOk result (λ step. writing.work_left self.now (reverse frames.new.items) step
            < writing.work_behind (tables.type_of self.now function) next + writing.work_of_frames self.now (reverse frames.old.items)) }
    {
        let mut declarator = declarator;
        declarator.put_behind(mark_before(next).as_bytes())?;
        let empty = Declarator::new(*self.parts.allocator());
        frames.push(Frame {
            function,
            next: found.1,
            declarator,
        })?;
        Ok(Advance::To(Focus {
            id: found.0,
            qualified: false,
            declarator: empty,
        }))
    }

    /// Goes on behind the last parameter, with the result.
    fn behind(
        &self,
        function: TypeId,
        next: usize,
        declarator: Declarator,
        frames: &mut Vec<Frame>,
        visible: &[u32],
    ) -> Result<Advance, Memory>
        requires function { tables.IsId self.now function }
        requires last { writing.parameters_at (tables.type_of self.now function) next ≡ [] }
        requires frames { All (λ frame. tables.IsId self.now frame.function) frames.old.items }
        ensures shows { IfOk result (λ step. writing.Shows self.now visible.now (reverse frames.new.items) step
            (writing.resumed self.now visible.now (reverse frames.old.items) (writing.finished self.now visible.now (tables.type_of self.now function) next declarator))) }
        ensures step { IfOk result (writing.IsStep self.now) }
        ensures frames { All (λ frame. tables.IsId self.now frame.function) frames.new.items }
        ensures work { IfOk result (λ step. writing.work_left self.now (reverse frames.new.items) step
            < writing.work_behind (tables.type_of self.now function) next + writing.work_of_frames self.now (reverse frames.old.items)) }
    {
        let Shape::Function(first, _) = self.shape(function) else {
            return Ok(Advance::Done(None));
        };
        let mut declarator = declarator;
        declarator.put_behind(end_behind(next).as_bytes())?;
        Ok(Advance::To(Focus {
            id: *first,
            qualified: false,
            declarator,
        }))
    }

    /// Goes on behind a type that is written.
    fn close(
        &self,
        text: Declarator,
        frames: &mut Vec<Frame>,
        visible: &[u32],
    ) -> Result<Advance, Memory>
        requires { All (λ frame. tables.IsId self.now frame.function) frames.old.items }
        ensures shows { IfOk result (λ step. writing.Shows self.now visible.now (reverse frames.new.items) step
            (writing.resumed self.now visible.now (reverse frames.old.items) (Some text))) }
        ensures step { IfOk result (writing.IsStep self.now) }
        ensures frames { All (λ frame. tables.IsId self.now frame.function) frames.new.items }
        ensures work { IfOk result (λ step. writing.work_left self.now (reverse frames.new.items) step
            < 1 + writing.work_of_frames self.now (reverse frames.old.items)) }
    {
        match frames.pop() {
            Some(frame) => {
                let Frame {
                    function,
                    next,
                    mut declarator,
                } = frame;
                declarator.join(text)?;
                self.go_on(function, next, declarator, frames, visible)
            }
            None => Ok(Advance::Done(Some(text))),
        }
    }

    /// The tag of a struct that can be named: one of the visible ones that has a tag.
    fn named(&self, number: u32, visible: &[u32]) -> Option<&Text>
        requires { number < length self.now.structs }
        ensures { option_copied result ≡ (if list_any (λ other. other == number) visible.now then tables.tag_of self.now number else None) }
    {
        if visible.contains(&number) {
            self.tag(number)
        } else {
            None
        }
    }
}

/// What stands before a parameter.
fn mark_before(parameter: usize) -> &'static str
    ensures { result.now ≡ writing.between parameter }
{
    if parameter == 0 { "" } else { ", " }
}

/// What stands behind so many parameters.
fn end_behind(parameters: usize) -> &'static str
    ensures { result.now ≡ writing.closing parameters }
{
    if parameters == 0 { "void)" } else { ")" }
}

/// The words of an integer kind (6.7.2p2).
fn words_of(kind: Kind) -> &'static str
    ensures { result.now ≡ spelling.kind_words kind }
{
    match kind {
        Kind::Bool => "_Bool",
        Kind::Char => "char",
        Kind::SChar => "signed char",
        Kind::UChar => "unsigned char",
        Kind::Short => "short",
        Kind::UShort => "unsigned short",
        Kind::Int => "int",
        Kind::UInt => "unsigned int",
        Kind::Long => "long",
        Kind::ULong => "unsigned long",
        Kind::LLong => "long long",
        Kind::ULLong => "unsigned long long",
    }
}
