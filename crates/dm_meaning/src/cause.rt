/// Why a step has undefined behaviour (3.4.3).
#[derive(Clone, Copy, Debug, PartialEq, Eq)]
pub enum Cause {
    /// A result that its type can't represent (6.5p5).
    Overflow,
    /// A division by 0 (6.5.5p5).
    Division,
    /// A shift by a count, or of a value, that 6.5.7 leaves undefined.
    Shift,
    /// An access to what an unsequenced store writes (6.5p2).
    Conflict,
    /// An access, or arithmetic, through a null pointer (6.5.3.2p4).
    Null,
    /// Arithmetic that leaves an array and one past its end, or an access there (6.5.6p8).
    Bounds,
    /// Pointers into different objects ordered or subtracted (6.5.8p5, 6.5.6p9).
    Pointer,
    /// An object, or a pointer to it, used after its lifetime (6.2.4p2).
    Life,
    /// The value of a scalar that was never set (6.3.2.1p2).
    Unset,
    /// An access with another type than the object's (6.5p7).
    OtherType,
    /// A store into what is const, or into a string literal (6.7.3p6, 6.4.5p7).
    Const,
    /// A function whose result isn't void reaches its closing brace (6.9.1p12).
    NoValue,
    /// A function or object that the program doesn't define (6.9p5).
    External,
}
