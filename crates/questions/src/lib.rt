// Every call as one question: whatever is proved of all questions holds for all calls.

#![tactic(auto)]

use classes::ClassNumber;

// The calls for a number. A class is meant by its number, all else by its place, from 0.
#[derive(Clone, Copy)]
pub enum NumberQuestion {
    ClassCount,
    ClassFlags(ClassNumber),
    GenericCount(ClassNumber),
    BaseCount(ClassNumber),
    MethodCount(ClassNumber),
    MethodFlags(ClassNumber, u32),
    MethodGenericCount(ClassNumber, u32),
    ParamCount(ClassNumber, u32),
    ClassPacking(ClassNumber),
    ClassSize(ClassNumber),
}

// The calls for a name.
#[derive(Clone, Copy)]
pub enum NameQuestion {
    ClassName(ClassNumber),
    GenericName(ClassNumber, u32),
    BaseName(ClassNumber, u32),
    MethodName(ClassNumber, u32),
    MethodGenericName(ClassNumber, u32, u32),
    ReturnType(ClassNumber, u32),
    ParamType(ClassNumber, u32, u32),
    ParamName(ClassNumber, u32, u32),
}
