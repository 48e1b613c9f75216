// How many lines came to what.
use crate::line::Came;
use std::fmt;

#[derive(Clone, Copy, Default)]
pub struct Tally {
    agree: usize,
    differ: usize,
    open: usize,
    unread: usize,
}

impl Tally {
    pub fn add(&mut self, came: Came) {
        let n = match came {
            Came::Agrees => &mut self.agree,
            Came::Differs => &mut self.differ,
            Came::Open => &mut self.open,
            Came::Unread => &mut self.unread,
        };
        *n = n.saturating_add(1);
    }
}

impl fmt::Display for Tally {
    fn fmt<W: fmt::Write>(&self, f: &mut fmt::Formatter<W>) -> fmt::Result {
        let Tally {
            agree,
            differ,
            open,
            unread,
        } = *self;
        let tests = agree
            .saturating_add(differ)
            .saturating_add(open)
            .saturating_add(unread);
        write!(
            f,
            "tests {tests}, agree {agree}, differ {differ}, open {open}, cannot be read {unread}"
        )
    }
}
