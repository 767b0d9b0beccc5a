//! Tests of the libraries: what no clause says and no command shows.
//! They stand here, above all libraries, so that none of these is proved a second time for its tests.
//! Boxes and points by their calls, files in memory that fail by plan, the system's files, chunks read in pieces, the
//! words of a command that is not built, and commands run on a shelf in which one call fails after the other. What a
//! command shows is a case, in `cases/`.
#![tactic(auto)]

#[cfg(test)]
mod boxes;
#[cfg(test)]
mod chunks;
#[cfg(test)]
mod files_in_memory;
#[cfg(test)]
mod real_files;
#[cfg(test)]
mod runs;
#[cfg(test)]
mod words;
