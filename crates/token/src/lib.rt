// Byte classes, keywords and the token cursor; N and the first bad byte.
// The table of classes stands once in memory, and each byte is looked up there.
#![tactic(auto)]

pub mod class;
pub mod count;
pub mod cursor;
