// Paths by the names on the way: the root's, a child's of the root, a child's of that. So the path of a node need not be written down anywhere.
ghost use Rattle.std.specs.Prelude.{◌≡◌, ◌∷◌, ◌<◌, ◌≤◌, length, drop, get_or};
ghost use Rattle.paths.specs.Steps.{starts, fits, way_of};

// The names on the way from the root.
#[derive(Clone, Copy)]
pub enum Way<'a> {
    Top,
    Child(&'a [u8]),
    Below(&'a [u8], &'a [u8]),
}

// The byte at `i` of a / and a name.
fn slash_byte(name: &[u8], i: usize) -> u8
    requires { i ≤ length name.now }
    ensures { result ≡ get_or (47 ∷ name.now) i 0 }
{
    if i == 0 { b'/' } else { name[i - 1] }
}

impl<'a> Way<'a> {
    // The length of its path.
    #[tactic(auto, unfolding(lookup::specs::Values::path, lookup::specs::Values::steps))]
    pub fn len(&self) -> usize
        requires { fits self.now }
        ensures { result ≡ length (way_of self.now) }
    {
        match *self {
            Way::Top => 1,
            Way::Child(p) => p.len() + 1,
            Way::Below(p, q) => p.len() + q.len() + 2,
        }
    }

    // The path's byte at `i`.
    #[tactic(auto, unfolding(lookup::specs::Values::path, lookup::specs::Values::steps))]
    fn byte(&self, i: usize) -> u8
        requires { i < length (way_of self.now) }
        ensures { result ≡ get_or (way_of self.now) i 0 }
    {
        match *self {
            Way::Top => b'/',
            Way::Child(p) => slash_byte(p, i),
            Way::Below(p, q) => {
                if i <= p.len() {
                    slash_byte(p, i)
                } else {
                    slash_byte(q, i - p.len() - 1)
                }
            }
        }
    }

    // Whether a / and a name stand at `done` of its path.
    #[tactic(auto, using(crate::proofs::Bytes::way_short, crate::proofs::Bytes::way_other), unfolding(crate::specs::Steps::starts))]
    pub fn goes_on(&self, done: usize, name: &[u8]) -> bool
        requires { (fits self.now) × (done ≤ length (way_of self.now)) }
        ensures { result ≡ starts (47 ∷ name.now) (drop done (way_of self.now)) }
    {
        if self.len() - done <= name.len() || self.byte(done) != b'/' {
            return false;
        }
        for (j, b) in name.iter().enumerate() {
            if self.byte(done + 1 + j) != *b {
                return false;
            }
        }
        true
    }
}
