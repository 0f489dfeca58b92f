// A boundary with kept sets of its surfaces.
ghost use Rattle.std.specs.Prelude.{◌≡◌, ◌+◌, ◌≤◌, ◌<◌, length};

// Triangles, each with its surface, and the sets: set s has the surfaces kept[starts[s]] .. kept[starts[s + 1] - 1].
#[derive(Clone, Copy)]
pub struct Boundary<'a> {
    pub tris: &'a [[u32; 6]],
    pub surfaces: &'a [u32],
    pub starts: &'a [u32],
    pub kept: &'a [u32],
    pub sets: usize,
    ghost surfaced: { length tris.now ≤ length surfaces.now },
    ghost begun: { sets < length starts.now },
}

// Set `number`: `starts` has its beginning and its end.
#[derive(Clone, Copy)]
pub struct KeptSet<'a> {
    pub boundary: Boundary<'a>,
    pub number: usize,
    ghost there: { number + 1 < length boundary.starts.now },
}

impl<'a> Boundary<'a> {
    // One of its sets. A `KeptSet` made by hand need not be: it asks only that `starts` has its end.
    pub fn kept_set(self, number: usize) -> KeptSet<'a>
        requires { number < self.sets }
        ensures of { result.boundary ≡ self.entry }
        ensures numbered { result.number ≡ number }
        ensures there { result.number < result.boundary.sets }
    {
        KeptSet {
            boundary: self,
            number,
        }
    }
}
