//! Laws over the definitions of all buffers: what a version shows doesn't depend on versions that
//! come later, what one version more and a buffer more leave of a stock, and that a stock on which
//! versions have risen is settled again. Nothing here runs.
#![tactic(auto)]
