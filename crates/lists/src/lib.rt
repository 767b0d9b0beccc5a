//! Lemmas on lists, and on lists of numbers, that every crate may cite. There is no code here.
//! Definitions: `specs/Numbers` (count, sum, least, greatest and product of some numbers), `specs/Rules` (the first rule
//! that is broken) and `specs/Appending` (what is appended to a list that may be unknown).
//! Stands on std alone; every crate but `command_words` may use it.
#![tactic(auto)]
