// Document 01, "Windows, ladder, gate": the cursor of the windows of one length, as a value.
#![tactic(auto)]

ghost use Rattle.std.specs.Prelude.{◌≡◌, ◌*◌, ◌<◌};
ghost use Rattle.cursors.specs.Cursors.{CursorFits, advanced_of, middle_from};

// Where the windows of one length stand: its length, the place of the next sample and how many places are filled. That the three fit is a clause of what
// steps it and no ghost field: `gate_cursors::cursor` reads one of any gate that is long enough, sound or not.
#[derive(Clone, Copy)]
pub struct Cursor {
    pub m: usize,
    pub at: usize,
    pub filled: usize,
}

// A cursor handed back with the place of its middle sample: document 01 has a cursor's steps take it and give it back.
#[derive(Clone, Copy)]
pub struct Middle {
    pub cursor: Cursor,
    pub place: usize,
}

// R-2: no division and no remainder, on which a handset's processor spends longest. A place is never a whole turn too far, so a comparison
// finds what the remainder would.
impl Cursor {
    // One hop on: the place wraps at 2m, and filled stops there.
    pub fn advance(self) -> Cursor
        requires { CursorFits self }
        ensures { result ≡ advanced_of self }
    {
        let width = self.m + self.m;
        let next = self.at + 1;
        let at = if next >= width { 0 } else { next };
        Cursor {
            m: self.m,
            at,
            filled: (self.filled + 1).min(width),
        }
    }

    // Half a ring on from the place of the next sample.
    #[tactic(auto, using(crate::proofs::Wraps::within, crate::proofs::Wraps::past))]
    pub fn middle(self) -> Middle
        requires { CursorFits self }
        ensures { (result ≡ middle_from self) × (result.place < 2 * self.m) }
    {
        let place = if self.at >= self.m {
            self.at - self.m
        } else {
            self.at + self.m
        };
        Middle {
            cursor: self,
            place,
        }
    }
}
