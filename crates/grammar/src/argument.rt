// The codes that a provider's tape has and document 01's have not (document 02, point 11): a method call, a field, and a lone argument that
// becomes a term's.
pub const METHOD_CALL: u8 = 70;

pub const FIELD: u8 = 71;

pub const STRING: u8 = 72;

pub const INTEGER: u8 = 73;

pub const DECIMAL: u8 = 74;

pub const BOOL: u8 = 75;

pub const SET: u8 = 76;
