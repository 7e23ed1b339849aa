//! The good counts of one process from one on, and all good counts of the others.
use wide_conjunctions::GoodCounts;

/// The good counts of one process from one on, and all good counts of the others.
#[derive(Drop)]
pub(crate) struct GoodFrom<'a, G> {
    pub(crate) wanted: &'a G,
    pub(crate) process: usize,
    pub(crate) from: u64,
}

impl<'a, G: GoodCounts> GoodCounts for GoodFrom<'a, G> {
    ghost use Rattle.wide_slice.specs.Goods.{good_from};

    ghost good = { λ counts. good_from (G.good counts.wanted.now) counts.process counts.from };

    fn is_good(&self, process: usize, count: u64) -> bool {
        self.wanted.is_good(process, count) && (process != self.process || self.from <= count)
    }

    fn next_good(&self, process: usize, from: u64, last: u64) -> Option<u64> {
        let mut low = from;
        if process == self.process && low < self.from {
            low = self.from;
        }
        self.wanted.next_good(process, low, last)
    }
}
