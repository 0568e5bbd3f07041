// What the programs print, as definitions of the bytes that they read: see specs/. In proofs/ are document 01's example and other sessions, and
// that a print fits its buffer. The code is the crate `prints`.
#![tactic(auto)]
