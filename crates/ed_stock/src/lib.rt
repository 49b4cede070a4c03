//! Definitions of all buffers together: the stock, how a new version of a base rises through the
//! carriers above it, how an edit is sent down and lands as one group, how projections and elision
//! buffers are made and changed, undo, and the limits of the stock. Nothing here runs; what the
//! crates above are proved to do is said in these words.
#![tactic(auto)]
