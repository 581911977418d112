// Words that are lent to be read.
ghost use Rattle.std.specs.Prelude.{◌≡◌, ◌≤◌, ◌<◌, length, MatchOption};

// At least so many words.
#[derive(Clone, Copy)]
pub struct LentWords<'a, const COUNT: usize> {
    pub words: &'a [u32],
    ghost enough: { COUNT ≤ length words.now },
}

impl<'a, const COUNT: usize> LentWords<'a, COUNT> {
    // The words, or none where there are fewer.
    pub fn of(words: &'a [u32]) -> Option<LentWords<'a, COUNT>>
        ensures { MatchOption result (length words.now < COUNT) (λ lent. lent.words.now ≡ words.now) }
    {
        if words.len() < COUNT {
            return None;
        }
        Some(LentWords { words })
    }
}
