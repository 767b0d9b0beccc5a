//! Rectangles of cells.
//! Used by `layouts`.
ghost use Rattle.std.specs.Prelude.{◌≡◌, ◌<◌, ◌-◌, ◌↔◌, ◌^◌, pos, IsTrue, map, zip};
ghost use Rattle.cells.specs.Rects.{area_of, meet_of, rect_contains, sides_of, LiesInside};

use crate::Side;

/// The cells with coordinates from `from` up to but not including `to`, in each of three dimensions. It has no cells if
/// some `from` is not below its `to`.
#[derive(Clone, Copy, Debug, PartialEq, Eq)]
pub struct Rect {
    /// The first coordinate in each dimension.
    pub from: [u32; 3],
    /// The coordinate past the last one in each dimension.
    pub to: [u32; 3],
}

impl Rect {
    /// How many cells it has.
    pub fn area(&self) -> u64
        requires { area_of self.now < 2 ^ 64 }
        ensures { result ≡ area_of self.now }
    {
        let [a, b, c] = self.lengths();
        u64::from(a) * u64::from(b) * u64::from(c)
    }

    /// The rectangle of the cells that lie in both.
    pub fn meet(&self, other: &Rect) -> Rect
        ensures { result ≡ meet_of self.now other.now }
    {
        let [f, f_2, f_3] = self.from;
        let [g, g_2, g_3] = other.from;
        let [t, t_2, t_3] = self.to;
        let [u, u_2, u_3] = other.to;
        Rect {
            from: [f.max(g), f_2.max(g_2), f_3.max(g_3)],
            to: [t.min(u), t_2.min(u_2), t_3.min(u_3)],
        }
    }

    /// Its side in each dimension, as those of a region.
    pub fn sides(&self) -> [Side; 3]
        ensures { result ≡ sides_of self.now }
    {
        let [f, f_2, f_3] = self.from;
        let [t, t_2, t_3] = self.to;
        [side(f, t), side(f_2, t_2), side(f_3, t_3)]
    }

    /// Whether the cell with these coordinates lies in it.
    pub fn contains(&self, at: [u32; 3]) -> bool
        ensures { result ≡ rect_contains self.now at }
    {
        let [c, c_2, c_3] = at;
        let [f, f_2, f_3] = self.from;
        let [t, t_2, t_3] = self.to;
        f <= c && c < t && f_2 <= c_2 && c_2 < t_2 && f_3 <= c_3 && c_3 < t_3
    }

    /// Whether all its cells lie in another one.
    pub fn inside(&self, other: &Rect) -> bool
        ensures { IsTrue result ↔ LiesInside self.now other.now }
    {
        self.is_empty() || self.is_between(other)
    }

    /// How long it is in each dimension.
    fn lengths(&self) -> [u32; 3]
        ensures { result ≡ map (λ (f, t). t - f) (zip self.now.from self.now.to) }
    {
        let [f, f_2, f_3] = self.from;
        let [t, t_2, t_3] = self.to;
        [
            t.saturating_sub(f),
            t_2.saturating_sub(f_2),
            t_3.saturating_sub(f_3),
        ]
    }

    /// Whether it has no cells.
    pub fn is_empty(&self) -> bool
        ensures { IsTrue result ↔ area_of self.now ≡ 0 }
    {
        let [a, b, c] = self.lengths();
        a == 0 || b == 0 || c == 0
    }

    /// Whether its ends lie between those of another one.
    fn is_between(&self, other: &Rect) -> bool
        ensures { IsTrue result ↔ meet_of self.now other.now ≡ self.now }
    {
        let [f, f_2, f_3] = self.from;
        let [g, g_2, g_3] = other.from;
        let [t, t_2, t_3] = self.to;
        let [u, u_2, u_3] = other.to;
        g <= f && t <= u && g_2 <= f_2 && t_2 <= u_2 && g_3 <= f_3 && t_3 <= u_3
    }
}

/// The side from one coordinate up to but not including another.
fn side(from: u32, to: u32) -> Side
    ensures { result ≡ record { from = pos from; to = pos to } }
{
    Side {
        from: i64::from(from),
        to: i64::from(to),
    }
}
