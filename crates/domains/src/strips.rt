//! The strips of a box, for a search that shares a box out among workers.
ghost use Rattle.std.specs.Prelude.{◌≡◌, ◌<◌, ◌≤◌};
ghost use Rattle.domains.specs.Values.{HasValue, size_of};
ghost use Rattle.domains.specs.Strips.{strip_count, strip_of, part_of, cut_at};

use crate::{Dom, VarBox};

/// The index of the value with which one of so many parts of a domain begins.
fn cut(d: &Dom, i: u32, of: u32) -> u64
    requires some { 0 < of }
    requires there { i ≤ of }
    ensures { result ≡ cut_at d.now i of }
{
    u64::from(i) * d.count() / u64::from(of)
}

/// A part of a domain that is divided into this many parts of almost equal size.
fn part(d: &Dom, i: u32, of: u32) -> Dom
    requires there { i < of }
    requires few { of ≤ size_of d.now }
    ensures parts { result ≡ part_of d.now i of }
    ensures some { HasValue result }
{
    Dom {
        lo: d.value(cut(d, i, of)),
        hi: d.value(cut(d, i + 1, of) - 1),
    }
}

impl VarBox {
    /// How many strips it has if so many are asked for, at least one: at most one for each value of the first variable,
    /// and one if the box is empty.
    pub fn strips(&self, asked: u32) -> u32
        requires { 0 < asked }
        ensures count { result ≡ strip_count self.now asked }
        ensures again { result ≡ strip_count self.now result }
        ensures some { 0 < result }
    {
        match self.dom(0) {
            None => 1,
            Some(first) => {
                let size = first.count();
                if size < u64::from(asked) {
                    size as u32
                } else {
                    asked
                }
            }
        }
    }

    /// Keeps one of its strips, by its index. `strips` says how many there are.
    pub fn keep_strip(&mut self, i: u32, of: u32)
        requires there { i < of }
        requires count { of ≡ strip_count self.old of }
        ensures { self.new ≡ strip_of self.old i of }
    {
        if let Some(first) = self.dom(0) {
            self.set(0, &part(&first, i, of));
        }
    }

    /// One of its strips, by its index. `strips` says how many there are. Strips divide the domain of the first
    /// variable into parts of almost equal size. All other domains are whole.
    pub fn strip(&self, i: u32, of: u32) -> VarBox
        requires there { i < of }
        requires count { of ≡ strip_count self.now of }
        ensures { result ≡ strip_of self.now i of }
    {
        let mut kept = *self;
        kept.keep_strip(i, of);
        kept
    }
}
