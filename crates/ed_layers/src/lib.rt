//! Definitions of buffers that stand on buffers: the records of versions (a base's text, a
//! projection's members, an elision buffer's hidden places), the cells of a version with the way
//! by which each comes from a base, the order of members on one source and their bounds after a
//! step, the pieces of an edit on their way down, and who stands on whom. Nothing here runs; what
//! the crates above are proved to do is said in these words.
#![tactic(auto)]
