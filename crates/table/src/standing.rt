// Where a thread stands in both tables.
ghost use Rattle.std.specs.Prelude.{◌≡◌, ◌+◌, ◌%◌, ◌<◌, ◌≤◌, length, slice_index};
ghost use Rattle.table.specs.Standing.{PlacedAt};

// Where a thread stands: its number, its innermost frame's number from the outermost, and the places of that frame's words and of its line's.
#[derive(Clone, Copy)]
pub struct Here {
    pub thread: usize,
    pub depth: usize,
    pub frame: usize,
    pub row: usize,
    pub ghost placed: { PlacedAt thread depth frame row },
}

impl Here {
    // The same frame at its next line.
    pub fn next_line(self) -> Here
        ensures { (result.thread ≡ self.thread) × (result.depth ≡ self.depth) × (result.row ≡ (self.row + 8) % 8192) }
    {
        Here {
            thread: self.thread,
            depth: self.depth,
            frame: self.frame,
            row: (self.row + 8) % 8192,
        }
    }

    // Word k of the line where the thread stands.
    pub fn part(self, p: &[u16], k: usize) -> u16
        requires { (8192 ≤ length p.now) × (k < 8) }
        ensures { result ≡ slice_index p.now (self.row + k) }
    {
        p[self.row + k]
    }
}
