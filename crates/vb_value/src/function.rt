//! The functions of the language (VBScript 5.6, "Functions").

/// A function on texts.
#[derive(Clone, Copy, Debug, PartialEq, Eq)]
pub enum StrFn {
    Len,
    Left,
    Right,
    Mid,
    InStr,
    InStrRev,
    LCase,
    UCase,
    Trim,
    LTrim,
    RTrim,
    Replace,
    Split,
    Join,
    StrReverse,
    Space,
    String,
    StrComp,
    Asc,
    AscW,
    Chr,
    ChrW,
}

/// A function on values that needs neither a class's name nor a component.
#[derive(Clone, Copy, Debug, PartialEq, Eq)]
pub enum PlainFn {
    Abs,
    Int,
    Fix,
    Sgn,
    CBool,
    CCur,
    CInt,
    CLng,
    CStr,
    Hex,
    Oct,
    IsArray,
    IsEmpty,
    IsNull,
    IsObject,
    IsNumeric,
    VarType,
    Array,
    UBound,
    LBound,
}
