//! The definitions of leank computed on worked formulas and documents, whose values come from outside. It has no
//! code: the values stand in the files of `proofs/`, and the check compares them.
#![tactic(auto)]
