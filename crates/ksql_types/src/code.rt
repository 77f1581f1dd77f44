/// Why a script is refused. The codes are S1 to S16, in this order.
#[derive(Clone, Copy, Debug, PartialEq, Eq)]
pub enum Code {
    Syntax,
    TooLarge,
    UnknownRelation,
    NameTaken,
    UnknownColumn,
    AmbiguousColumn,
    DuplicateColumn,
    TypeMismatch,
    WrongKind,
    KeyMissing,
    JoinNotOnKey,
    PartitionMismatch,
    AggregateMisuse,
    BadWindow,
    Unsupported,
    BadProperty,
}
