//! Trials of the written machine: its definitions, computed on worked words and programs.
//!
//! There is no code here. Each theorem in `proofs/` computes a definition on literals and compares
//! it with a value that an independent program or a worked example gave.
#![tactic(auto)]
